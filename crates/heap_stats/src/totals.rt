// What threads are told of the heap.

ghost use Rattle.std.specs.Prelude.{[], ◌∷◌};

use crossbeam_utils::atomic::seq_cell::Words;

/// Totals of a heap at one moment: how many commands it has answered, how many objects aren't
/// finalised, how many words these have, and how many objects were finalised.
#[derive(Clone, Copy, Debug, PartialEq, Eq, Drop)]
pub struct Totals {
    pub ordinal: u64,
    pub objects: u64,
    pub used: u64,
    pub finalised: u64,
}

impl Words<4> for Totals {
    ghost words = { λ t. t.ordinal ∷ t.objects ∷ t.used ∷ t.finalised ∷ [] };

    fn to_words(self) -> [u64; 4] {
        [self.ordinal, self.objects, self.used, self.finalised]
    }

    fn from_words(bits: &[u64; 4]) -> Totals {
        Totals {
            ordinal: bits[0],
            objects: bits[1],
            used: bits[2],
            finalised: bits[3],
        }
    }
}
