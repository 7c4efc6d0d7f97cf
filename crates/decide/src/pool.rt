// Numbers to try: those that are named, and fresh ones.
ghost use Rattle.std.specs.Prelude.{◌≡◌, ℕ, ◌+◌, ◌<◌, ◌≤◌, length, take, slice_index};
ghost use Rattle.decide.specs.Trying.{LeastOther};

use arrayvec::ArrayVec;

// The numbers that are given, and behind them as many fresh ones as are asked for: each is the least that is none of those before it.
pub(crate) fn pool(numbers: &[u64], fresh: usize) -> ArrayVec<u64, 14>
    requires { (length numbers.now ≤ 8) × (fresh ≤ 6) }
    ensures many { length result.items ≡ length numbers.now + fresh }
    ensures given { take (length numbers.now) result.items ≡ numbers.now }
    ensures fresh { (p : ℕ) → length numbers.now ≤ p → p < length result.items → LeastOther (take p result.items) (slice_index result.items p) }
{
    let mut pool = ArrayVec::new();
    pool.try_extend_from_slice(numbers).unwrap();
    for _ in 0..fresh {
        let number = least_other(&pool);
        pool.push(number);
    }
    pool
}

// The least number that is none of these.
fn least_other(numbers: &[u64]) -> u64
    ensures { LeastOther numbers.now result }
{
    let count = numbers.len() as u64;
    (0..count).find(|n| !numbers.contains(n)).unwrap_or(count)
}
