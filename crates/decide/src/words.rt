// Words: 256 answers at once, one in each lane.
ghost use Rattle.std.specs.Prelude.{◌≡◌, ℕ, ◌+◌, ◌<◌, ◌≤◌, not, ◌&&◌, ◌||◌, length, ◌==◌, slice_index_or};
ghost use Rattle.std.specs.Fn.{FnReturnsAt};
ghost use Rattle.decide.specs.Bit.{bit, lane, wide};

use std::array;
use std::ops::{BitAnd, BitOr, Not};

// 256 answers.
#[derive(Clone, Copy, Default)]
pub(crate) struct Word {
    bits: [u64; 4],
}

impl Word {
    // The same answer in every lane.
    pub(crate) fn same(answer: bool) -> Word
        ensures { (l : ℕ) → l < 256 → lane l result ≡ answer }
    {
        let bits = if answer { !0 } else { 0 };
        Word { bits: [bits; 4] }
    }

    // The lanes whose items pass a test, one item in each lane.
    pub(crate) fn passing<T, F: Fn(&T) -> bool>(items: &[T], test: F) -> Word
        requires few { length items.now ≤ 256 }
        requires callable { F.IsAlwaysCallable test }
        ensures { (l : ℕ) (d : T) → l < length items.now → FnReturnsAt F.Fn test (slice_index_or items.now l d) (lane l result) }
    {
        let mut bits = [0; 4];
        for i in 0..4 {
            bits[i] = passing_bits(items, 64 * i, &test);
        }
        Word { bits }
    }

    // What lane k says.
    pub(crate) fn test(self, k: usize) -> bool
        requires { k < 256 }
        ensures { result ≡ lane k self }
    {
        self.bits[k / 64] >> k % 64 & 1 == 1
    }
}

// Two words; what each of them says is up to the sense in which conditions are worked out.
#[derive(Clone, Copy, Default)]
pub(crate) struct Pair {
    pub(crate) first: Word,
    pub(crate) second: Word,
}

impl Pair {
    // What lane l of both says, where those of the second come behind the 256 of the first.
    pub(crate) fn test(self, l: usize) -> bool
        requires { l < 512 }
        ensures { result ≡ wide self l }
    {
        if l < 256 {
            self.first.test(l)
        } else {
            self.second.test(l - 256)
        }
    }
}

// The lanes in which both say yes.
impl BitAnd for Word {
    type Output = Word;

    ghost bitand_gives = { λ a b r. (l : ℕ) → l < 256 → lane l r ≡ (lane l a && lane l b) };

    fn bitand(self, other: Word) -> Word {
        Word {
            bits: array::from_fn(|i| self.bits[i] & other.bits[i]),
        }
    }
}

// The lanes in which one says yes.
impl BitOr for Word {
    type Output = Word;

    ghost bitor_gives = { λ a b r. (l : ℕ) → l < 256 → lane l r ≡ (lane l a || lane l b) };

    fn bitor(self, other: Word) -> Word {
        Word {
            bits: array::from_fn(|i| self.bits[i] | other.bits[i]),
        }
    }
}

// The contrary in every lane.
impl Not for Word {
    type Output = Word;

    ghost not_gives = { λ a r. (l : ℕ) → l < 256 → lane l r ≡ not (lane l a) };

    fn not(self) -> Word {
        Word {
            bits: self.bits.map(|a| !a),
        }
    }
}

// The answers of up to 64 items, from one on, to a test: one in each bit.
fn passing_bits<T, F: Fn(&T) -> bool>(items: &[T], from: usize, test: &F) -> u64
    requires few { from ≤ 256 }
    requires callable { F.IsAlwaysCallable test.now }
    ensures { (l : ℕ) (d : T) → l < 64 → from + l < length items.now → FnReturnsAt F.Fn test.now (slice_index_or items.now (from + l) d) (bit l result) }
{
    let mut bits = 0;
    for l in (from..items.len().min(from + 64)).rev() {
        bits = bits << 1 | u64::from(test(&items[l]));
    }
    bits
}
