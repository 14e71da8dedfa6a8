// No two items of a deck define one name.
ghost use Rattle.deck.specs.Defines.{defines_same};

use crate::rules::Apart;
use card::{Item, Name};

// The keys are names, as numbers.
impl Apart for Item<usize> {
    type Key = u64;

    ghost clashes = { defines_same };

    fn clashes(&self, later: &Item<usize>) -> bool {
        match (self.defines(), later.defines()) {
            (Some(a), Some(b)) => a == b,
            _ => false,
        }
    }

    fn key(&self) -> Option<u64> {
        self.defines().map(Name::number)
    }

    fn keys_meet(first: u64, second: u64) -> bool {
        first == second
    }
}
