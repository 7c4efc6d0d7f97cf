// Lists one behind the other: a check of each, up to the first that fails it.
ghost use Rattle.std.specs.Prelude.{◌≡◌, ℕ, ◌≤◌, true, false, List, length, IfSome, MatchOption};
ghost use Rattle.list.specs.Layout.{list_size, passing, AtEach};

// Of the k lists at the front, how many pass a check before the first that fails it. Where a list passes, the check tells how many
// numbers it takes.
pub(crate) fn passing<F: Fn(&[u64]) -> Option<usize>>(xs: &[u64], k: u64, check: F) -> u64
    requires callable { AtEach (λ ys. (front : _) → front.now ≡ ys → F.pre check front) k xs.now }
    requires sizes { (front size : _) → F.post check front size → IfSome size (λ n. (n ≡ list_size front.now) × (n ≤ length front.now)) }
    ensures { (ok : List ℕ → _) → ((front size : _) → F.post check front size → MatchOption size (ok front.now ≡ false) (λ _. ok front.now ≡ true)) → result ≡ passing ok k xs.now }
{
    let mut rest = xs;
    for t in 0..k {
        let Some(size) = check(rest) else {
            return t;
        };
        rest = &rest[size..];
    }
    k
}
