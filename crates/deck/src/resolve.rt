// From IDs to places: items, texts and constants know each other by their places among the items.
ghost use Rattle.std.specs.Prelude.{◌≤◌, length};

use crate::content::Deck;
use crate::ids::{IdRows, Ids};
use crate::punched::Punched;
use crate::rules::{OnCard, lower};
use card::{Constant, Entry, Item, Text};
use reserved::Reserved;
use table::Count;

// The length of a section: END's where its ESD item says zero and END gives one.
fn full_length(esd: u32, end: Option<u32>) -> u32 {
    match end {
        Some(length) if esd == 0 => length,
        _ => esd,
    }
}

// An item by the place of its section; none where it is a label whose section ID no section has.
fn item_of(item: Item<u32>, ids: Ids, end: Option<u32>) -> Option<Item<usize>> {
    match item {
        Item::Section {
            name,
            address,
            length,
        } => Some(Item::Section {
            name,
            address,
            length: full_length(length, end),
        }),
        Item::Label {
            name,
            address,
            section,
        } => Some(Item::Label {
            name,
            address,
            section: ids.section(section)?,
        }),
        Item::Reference { name, strength } => Some(Item::Reference { name, strength }),
        Item::Common { name, length } => Some(Item::Common { name, length }),
    }
}

// A text by the place of its section.
fn text_of(text: Text<u16>, ids: Ids) -> Option<Text<usize>> {
    Some(Text {
        section: ids.section(u32::from(text.section))?,
        address: text.address,
        count: text.count,
        bytes: text.bytes,
    })
}

// A constant by the places of its section and of what it moves with.
fn constant_of(constant: Constant<u16>, ids: Ids) -> Option<Constant<usize>> {
    Some(Constant {
        target: ids.item(constant.target)?,
        section: ids.section(u32::from(constant.section))?,
        address: constant.address,
        width: constant.width,
        sign: constant.sign,
    })
}

// END's entry by the place of its section; none where its ID is no section's.
fn entry_of(entry: Entry<u16>, ids: Ids) -> Option<Entry<usize>> {
    match entry {
        Entry::Address { section, address } => Some(Entry::Address {
            section: ids.section(u32::from(section))?,
            address,
        }),
        Entry::Named(name) => Some(Entry::Named(name)),
    }
}

// Takes what is punched over as what it comes to; tells the smallest card of what comes to nothing.
fn take_over<P: Copy, X: Copy, const N: usize, F: Fn(P) -> Option<X>>(
    punched: &[OnCard<P>],
    into: &mut Reserved<OnCard<X>, N>,
    before: Option<u16>,
    resolve: F,
) -> Option<u16>
    requires few { length punched.now ≤ N }
    requires callable { F.IsAlwaysCallable resolve }
{
    let mut found = before;
    into.all.clear();
    for x in punched {
        match resolve(x.what) {
            Some(what) => into.all.push_reserved(OnCard { card: x.card, what }),
            None => found = lower(found, x.card),
        }
    }
    found
}

impl Deck {
    // Takes a punched deck over, with places for IDs; tells the smallest card with an ID that is not given, or is no
    // section's where one is meant. END is card `last`.
    pub(crate) fn resolve(
        &mut self,
        punched: &Punched,
        rows: &IdRows,
        count: &Count,
        last: u16,
    ) -> Option<u16> {
        let items = punched.items.all.as_slice();
        let texts = punched.texts.all.as_slice();
        let constants = punched.constants.all.as_slice();
        let end = punched.end.length;
        let ids = Ids { rows, count, items };
        let found = take_over(items, &mut self.items, None, |item| item_of(item, ids, end));
        let found = take_over(texts, &mut self.texts, found, |text| text_of(text, ids));
        let found = take_over(
            constants,
            &mut self.constants,
            found,
            |constant| constant_of(constant, ids),
        );
        self.take_entry(punched.end.entry, ids, last, found)
    }

    // Takes END's entry over; tells END's card where its ID is not given, or is no section's.
    fn take_entry(
        &mut self,
        entry: Option<Entry<u16>>,
        ids: Ids,
        last: u16,
        before: Option<u16>,
    ) -> Option<u16> {
        self.entry = None;
        let Some(entry) = entry else {
            return before;
        };
        match entry_of(entry, ids) {
            Some(entry) => {
                self.entry = Some(entry);
                before
            }
            None => lower(before, last),
        }
    }
}
