// Reading the cards of a deck as they are punched.
ghost use Rattle.std.specs.Prelude.{◌≡◌, ◌+◌, ◌<◌, ◌≤◌, IfOk, vec_len};
ghost use Rattle.deck.specs.Gathered.{Room, Grown, Clear};
ghost use Rattle.card.specs.Names.{number_of};
ghost use Rattle.library.specs.Slots.{slot_at};
ghost use Rattle.deck.specs.Asked.{cards_of, fault_at, bytes_at};

use crate::fault::DeckFault;
use crate::ids::{IdRows, give_id};
use crate::punched::Punched;
use crate::rules::OnCard;
use card::{Card, CardAt, CardFault, EndCard, EsdCard, Item, Name, RldCard, Text, parse};
use library::{Library, LibraryFault, NoCard};
use table::Count;

// Whether an item of this kind has an ID: all have but labels.
fn has_id(item: Item<u32>) -> bool {
    !matches!(item, Item::Label { .. })
}

// What each part of a card adds is bounded by `Room` and `Grown`, and not by an invariant that counts cards: every function here
// would have to restore it.
impl Punched {
    // Forgets the deck before.
    pub(crate) fn clear(&mut self)
        ensures { Clear self.new }
    {
        self.items.all.clear();
        self.texts.all.clear();
        self.constants.all.clear();
        self.end = EndCard::default();
    }

    // One item, which has the ID `id` unless it is a label; gives the ID of the next.
    fn take_item(
        &mut self,
        item: Item<u32>,
        id: u32,
        at: CardAt,
        rows: &mut IdRows,
        count: &mut Count,
    ) -> Result<u32, CardFault>
        requires { vec_len self.old.items.all < 1536 }
        ensures items { vec_len self.new.items.all ≤ vec_len self.old.items.all + 1 }
        ensures others { (vec_len self.new.texts.all ≡ vec_len self.old.texts.all) × (vec_len self.new.constants.all ≡ vec_len self.old.constants.all) }
    {
        let mut next = id;
        if has_id(item) {
            give_id(rows, count, id, self.items.all.len(), at)?;
            next = id.saturating_add(1);
        }
        self.items.all.push_reserved(OnCard {
            card: at.card,
            what: item,
        });
        Ok(next)
    }

    fn take_esd(
        &mut self,
        esd: EsdCard,
        at: CardAt,
        rows: &mut IdRows,
        count: &mut Count,
    ) -> Result<(), CardFault>
        requires { Room self.old }
        ensures { Grown self.old self.new }
    {
        let mut id = u32::from(esd.first_id);
        for slot in &esd.items {
            if let Some(item) = slot {
                id = self.take_item(*item, id, at, rows, count)?;
            }
        }
        Ok(())
    }

    fn take_txt(&mut self, text: Text<u16>, card: u16)
        requires { Room self.old }
        ensures { Grown self.old self.new }
    {
        self.texts.all.push_reserved(OnCard { card, what: text });
    }

    fn take_rld(&mut self, rld: &RldCard, card: u16)
        requires { Room self.old }
        ensures { Grown self.old self.new }
    {
        for item in rld.items() {
            self.constants
                .all
                .push_reserved(OnCard { card, what: *item });
        }
    }

    // What one card adds to the deck.
    fn take_card(
        &mut self,
        content: Card,
        at: CardAt,
        rows: &mut IdRows,
        count: &mut Count,
    ) -> Result<(), CardFault>
        requires { Room self.old }
        ensures { Grown self.old self.new }
    {
        match content {
            Card::Esd(esd) => self.take_esd(esd, at, rows, count)?,
            Card::Txt(text) => self.take_txt(text, at.card),
            Card::Rld(rld) => self.take_rld(&rld, at.card),
            Card::End(end) => self.end = end,
            Card::Sym => {}
        }
        Ok(())
    }
}

// What follows is lent a library, and says each time that its meaning stays; why stands at the trait.

// The number of cards of a deck.
fn ask_count<L: Library>(library: &mut L, name: Name) -> Result<u16, LibraryFault>
    ensures same { L.Library.meaning library.new ≡ L.Library.meaning library.old }
    ensures answer { result ≡ cards_of (number_of name) (L.Library.meaning library.old name) }
    ensures few { IfOk result (λ n. n ≤ 512) }
{
    library.count(name).ok_or(LibraryFault::NoSuchDeck {
        deck: name.number(),
    })
}

// Why a card of a deck cannot be had.
fn fault_at(at: CardAt, no_card: NoCard) -> LibraryFault
    ensures { result ≡ fault_at at no_card }
{
    match no_card {
        NoCard::Flawed(mark) => LibraryFault::FlawedCard { at, mark },
        NoCard::Nothing => LibraryFault::NoSuchDeck { deck: at.deck },
    }
}

// One card of a deck.
fn ask_card<L: Library>(library: &mut L, name: Name, at: CardAt) -> Result<[u8; 80], LibraryFault>
    ensures same { L.Library.meaning library.new ≡ L.Library.meaning library.old }
    ensures answer { result ≡ bytes_at at (slot_at (L.Library.meaning library.old name) at.card) }
{
    let mut card = [0; 80];
    library
        .card(name, at.card, &mut card)
        .map_err(|no_card| fault_at(at, no_card))?;
    Ok(card)
}

// Reads every card of a deck, and tells how many there are.
pub(crate) fn read_cards<L: Library>(
    library: &mut L,
    name: Name,
    rows: &mut IdRows,
    count: &mut Count,
    punched: &mut Punched,
) -> Result<u16, DeckFault>
    requires { Clear punched.old }
    ensures same { L.Library.meaning library.new ≡ L.Library.meaning library.old }
{
    let cards = ask_count(library, name)?;
    let deck = name.number();
    // The library is asked for each card by its number.
    for card in 1..=cards {
        let at = CardAt { deck, card };
        let bytes = ask_card(library, name, at)?;
        let content = parse(bytes, at, card == cards)?;
        punched.take_card(content, at, rows, count)?;
    }
    Ok(cards)
}
