// Cards of a tray in a row.
ghost use Rattle.std.specs.Prelude.{◌≡◌};
ghost use Rattle.library.specs.Found.{has_card};

// The place of the first card, from 0, and how many there are.
#[derive(Clone, Copy)]
pub(crate) struct Stretch {
    pub(crate) first: usize,
    pub(crate) size: u16,
}

impl Stretch {
    // Whether there is a card i, counted from 1.
    pub(crate) fn has(self, i: u16) -> bool
        ensures { result ≡ has_card self i }
    {
        1 <= i && i <= self.size
    }
}
