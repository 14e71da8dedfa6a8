// A library of decks, asked by name.
ghost use Rattle.std.specs.Prelude.{◌≡◌, List, Option};
ghost use Rattle.card.specs.declared.name.Name.{Name};
ghost use Rattle.library.specs.Slots.{Slot, Sound, counted, slot_at};
ghost use Rattle.library.specs.Answers.{answered, filled};

use card::Name;

// A function that is lent a library says for itself that its meaning stays (`same`): no type of a `&mut` can say it.
pub trait Library {
    // What the library holds under each name. Asking does not change it.
    ghost meaning: { Self → Name → Option (List Slot) };

    // Every deck has 1 to 512 cards, and every card that can be read has 80 bytes.
    ghost sound: { (s : Self) (name : Name) → Sound (meaning s name) };

    // How many cards the deck of that name has.
    fn count(&mut self, name: Name) -> Option<u16>
        ensures same { meaning self.new ≡ meaning self.old }
        ensures answer { result ≡ counted (meaning self.old name) };

    // Copies card i, from 1, of the deck of that name; `into` stays as it is where there is none to read.
    fn card(&mut self, name: Name, i: u16, into: &mut [u8; 80]) -> Result<(), NoCard>
        ensures same { meaning self.new ≡ meaning self.old }
        ensures answer { result ≡ answered (slot_at (meaning self.old name) i) }
        ensures filled { into.new ≡ filled (slot_at (meaning self.old name) i) into.old };
}

// Why a library gives no card.
#[derive(Clone, Copy, PartialEq, Eq, Debug)]
pub enum NoCard {
    // The card cannot be read: its mark.
    Flawed(u8),
    // There is no such card.
    Nothing,
}
