// The five kinds of cards.
ghost use Rattle.std.specs.Prelude.{◌≡◌};
ghost use Rattle.card.specs.Kinds.{spelled_kind};

#[derive(Clone, Copy, PartialEq, Eq, Debug)]
pub enum CardKind {
    Esd,
    Txt,
    Rld,
    End,
    Sym,
}

impl CardKind {
    // The kind that columns 2 to 4 spell, whatever column 1 holds.
    #[inline]
    pub fn of(card: &[u8; 80]) -> Option<CardKind>
        ensures { result ≡ spelled_kind card.now }
    {
        match [card[1], card[2], card[3]] {
            [0xC5, 0xE2, 0xC4] => Some(CardKind::Esd),
            [0xE3, 0xE7, 0xE3] => Some(CardKind::Txt),
            [0xD9, 0xD3, 0xC4] => Some(CardKind::Rld),
            [0xC5, 0xD5, 0xC4] => Some(CardKind::End),
            [0xE2, 0xE8, 0xD4] => Some(CardKind::Sym),
            _ => None,
        }
    }
}
