// ESD cards: sections, labels, references and commons.
ghost use Rattle.std.specs.Prelude.{◌≡◌, ◌+◌, ◌≤◌};
ghost use Rattle.card.specs.declared.content.Item.TheVariants.{Section};
ghost use Rattle.card.specs.Items.{esd_item, typed_item, unless_blank};
ghost use Rattle.card.specs.Contents.{esd_says, says, or_item};

use crate::content::{Card, EsdCard, Item, Strength};
use crate::fields::{half, name_at, third};
use crate::name::Name;
use crate::refusal::{CardAt, CardFault};

// A label or a reference must have a name.
fn unless_blank(name: Name, item: Item<u32>) -> Option<Item<u32>>
    ensures { result ≡ unless_blank name item }
{
    if name.is_blank() { None } else { Some(item) }
}

fn section(name: Option<Name>, address: u32, length: u32) -> Item<u32>
    ensures { result ≡ Section name address length }
{
    Item::Section {
        name,
        address,
        length,
    }
}

// The item that a type and the other fields make; none where they break the rule of items. The type is a number since it is
// punched so; the item is what it comes to.
fn typed_item(kind: u8, name: Name, address: u32, length: u32) -> Option<Item<u32>>
    ensures { result ≡ typed_item kind name address length }
{
    match kind {
        0x00 if name.is_blank() => Some(section(None, address, length)),
        0x00 => Some(section(Some(name), address, length)),
        0x04 => Some(section(None, address, length)),
        0x01 => unless_blank(
            name,
            Item::Label {
                name,
                address,
                section: length,
            },
        ),
        0x02 => unless_blank(
            name,
            Item::Reference {
                name,
                strength: Strength::Strong,
            },
        ),
        0x0A => unless_blank(
            name,
            Item::Reference {
                name,
                strength: Strength::Weak,
            },
        ),
        0x05 => Some(Item::Common { name, length }),
        _ => None,
    }
}

// The item in the sixteen bytes from a place on.
#[tactic(auto, unfolding(crate::specs::Items::esd_item))]
fn esd_item(card: &[u8; 80], at: usize) -> Option<Item<u32>>
    requires { at + 16 ≤ 80 }
    ensures { result ≡ esd_item card.now at }
{
    typed_item(
        card[at + 8],
        name_at(card, at),
        third(card, at + 9),
        third(card, at + 13),
    )
}

// The same, with the fault of a bad item. Not by `ok_or`, which copies the item once more: every item of every deck comes through here.
#[inline]
fn good_item(card: &[u8; 80], at: usize, place: CardAt) -> Result<Item<u32>, CardFault>
    requires { at + 16 ≤ 80 }
    ensures { result ≡ or_item place (esd_item card.now at) }
{
    let Some(item) = esd_item(card, at) else {
        return Err(CardFault::BadItem(place));
    };
    Ok(item)
}

// What an ESD card says.
pub(crate) fn esd_card(card: &[u8; 80], place: CardAt) -> Result<Card, CardFault>
    ensures { says result ≡ esd_says card.now place }
{
    let first_id = half(card, 14);
    let items = match half(card, 10) {
        16 => [Some(good_item(card, 16, place)?), None, None],
        32 => [
            Some(good_item(card, 16, place)?),
            Some(good_item(card, 32, place)?),
            None,
        ],
        48 => [
            Some(good_item(card, 16, place)?),
            Some(good_item(card, 32, place)?),
            Some(good_item(card, 48, place)?),
        ],
        _ => return Err(CardFault::BadCount(place)),
    };
    Ok(Card::Esd(EsdCard { first_id, items }))
}
