// One copy of a bounded sheet: wrong by itself or behind the copy before it.
// Rests on words; what is wrong with a copy is said by specs BadCopy.
#![tactic(auto)]

ghost use Rattle.std.specs.Prelude.{◌≡◌};

use words::{MOST_BLOCKS, is_outside};

/// A block and the low of one of its copies: "Copies rise by block, then low".
#[derive(Clone, Copy, Debug, PartialEq, Eq, PartialOrd, Ord)]
pub struct CopyKey {
    pub block: usize,
    pub low: usize,
}

impl CopyKey {
    ghost use Rattle.copy_check.specs.BadCopy.{copy_in, bad_copy};

    /// Whether the block is none, the low is above the largest budget, or the copy does not stand behind the one before it.
    #[tactic(auto, using(crate::proofs::BadCopy::not_before), unfolding(crate::specs::BadCopy::bad_copy))]
    pub fn is_bad(self, previous: CopyKey, largest: usize) -> bool
        ensures { result ≡ bad_copy largest (copy_in previous) (copy_in self) }
    {
        is_outside(1, MOST_BLOCKS, self.block) || largest < self.low || previous >= self
    }
}
