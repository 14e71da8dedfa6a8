// Rules as values: which elements of a list break one, and the smallest card at fault.
ghost use Rattle.std.specs.Prelude.{◌≡◌, Bool, [], None};
ghost use Rattle.deck.specs.Rules.{lower, worst, meets, latest, unbroken};

use card::CardAt;

// What is punched on a card.
#[derive(Clone, Copy)]
pub struct OnCard<T> {
    pub card: u16,
    pub what: T,
}

// A rule that an element can break by itself.
pub trait Rule<X> {
    ghost breaks: { Self → X → Bool };

    fn breaks(&self, x: &X) -> bool
        ensures { result ≡ breaks self.now x.now };
}

// A rule that an element breaks together with an earlier one.
pub(crate) trait Apart {
    // What is sorted: if no two elements clash, no two neighbours among the keys meet.
    type Key: Ord + Copy;

    ghost clashes: { Self → Self → Bool };

    fn clashes(&self, later: &Self) -> bool
        ensures { result ≡ clashes self.now later.now };

    // None where the element can clash with no other.
    fn key(&self) -> Option<Self::Key>;

    fn keys_meet(first: Self::Key, second: Self::Key) -> bool;
}

// The smaller of a card found before, if any, and another.
pub fn lower(found: Option<u16>, card: u16) -> Option<u16>
    ensures { result ≡ lower found card }
{
    match found {
        Some(other) if other <= card => found,
        _ => Some(card),
    }
}

// The smallest card of the elements that break a rule, given what was found before.
pub fn worst<X, R: Rule<X>>(rule: &R, xs: &[OnCard<X>], before: Option<u16>) -> Option<u16>
    ensures { result ≡ worst (R.Rule.breaks rule.now) before xs.now }
{
    xs.iter()
        .filter(|x| rule.breaks(&x.what))
        .map(|x| x.card)
        .fold(before, lower)
}

// Refuses a deck at the card at fault, if there is one.
pub fn unbroken(deck: u64, card: Option<u16>) -> Result<(), CardAt>
    ensures { result ≡ unbroken deck card }
{
    match card {
        Some(card) => Err(CardAt { deck, card }),
        None => Ok(()),
    }
}

// Whether an element clashes with one of those before it.
fn meets<X: Apart>(before: &[OnCard<X>], x: &X) -> bool
    ensures { result ≡ meets X.Apart.clashes before.now x.now }
{
    before.iter().any(|y| y.what.clashes(x))
}

// The smallest card of the elements that clash with an earlier one, by all pairs.
pub(crate) fn latest<X: Apart>(xs: &[OnCard<X>]) -> Option<u16>
    ensures { result ≡ latest X.Apart.clashes None [] xs.now }
{
    let mut found = None;
    for (i, x) in xs.iter().enumerate() {
        if meets(&xs[0..i], &x.what) {
            found = lower(found, x.card);
        }
    }
    found
}
