// RLD cards: the address constants of a deck.
ghost use Rattle.std.specs.Prelude.{◌≡◌, ◌≤◌, [], length, take, None};
ghost use Rattle.card.specs.Items.{data_words, good_width, flag_sign, after_flag, pointers_in, constant_in, rld_items};
ghost use Rattle.card.specs.Contents.{rld_says, says, good_rld_count, rld_held};

use crate::content::{Card, Constant, Pointers, RldCard, Sign, Width};
use crate::fields::half;
use crate::refusal::{CardAt, CardFault};

impl RldCard {
    // The card's items in order.
    pub fn items(&self) -> &[Constant<u16>]
        ensures value { result.now ≡ take self.now.count self.now.places }
        ensures few { length result.now ≤ 14 }
    {
        &self.places[0..self.count]
    }
}

// Columns 17 to 72 as words of four bytes.
#[tactic(auto, unfolding(crate::specs::Items::data_words))]
fn data_words(card: &[u8; 80]) -> &[[u8; 4]]
    ensures value { result.now ≡ data_words card.now }
    ensures len { length result.now ≡ 14 }
{
    let (words, _) = card[16..72].as_chunks();
    words
}

// The width that a flag gives; none for another type or width.
fn good_width(flag: u8) -> Option<Width>
    ensures { result ≡ good_width flag }
{
    if flag / 16 > 1 {
        return None;
    }
    match flag / 4 % 4 {
        2 => Some(Width::Three),
        3 => Some(Width::Four),
        _ => None,
    }
}

fn flag_sign(flag: u8) -> Sign
    ensures { result ≡ flag_sign flag }
{
    if flag / 2 % 2 == 1 {
        Sign::Minus
    } else {
        Sign::Plus
    }
}

// The R and P of the next constant: the same again where the flag says so.
fn after_flag(flag: u8, ids: Pointers) -> Option<Pointers>
    ensures { result ≡ after_flag flag ids }
{
    if flag % 2 == 1 { Some(ids) } else { None }
}

// R and P in a word.
fn pointers_in(word: [u8; 4]) -> Pointers
    ensures { result ≡ pointers_in word }
{
    let [a, b, c, d] = word;
    Pointers {
        r: u16::from_be_bytes([a, b]),
        p: u16::from_be_bytes([c, d]),
    }
}

// The constant of R and P whose flag and address a word holds.
fn constant_in(word: [u8; 4], ids: Pointers, width: Width) -> Constant<u16>
    ensures { result ≡ constant_in word ids width }
{
    let [flag, a, b, c] = word;
    Constant {
        target: ids.r,
        section: ids.p,
        width,
        sign: flag_sign(flag),
        address: u32::from_be_bytes([0, a, b, c]),
    }
}

// The items in words of four bytes; none where one breaks the rule of relocation items.
fn rld_items(words: &[[u8; 4]]) -> Option<RldCard>
    requires { length words.now ≤ 14 }
    ensures { rld_held result ≡ rld_items words.now None [] }
{
    let unused = Constant {
        target: 0,
        section: 0,
        width: Width::Three,
        sign: Sign::Plus,
        address: 0,
    };
    let mut places = [unused; 14];
    let mut count = 0;
    let mut pointers = None;
    for word in words {
        match pointers {
            None => pointers = Some(pointers_in(*word)),
            Some(ids) => {
                let width = good_width(word[0])?;
                places[count] = constant_in(*word, ids, width);
                count += 1;
                pointers = after_flag(word[0], ids);
            }
        }
    }
    match pointers {
        None => Some(RldCard { count, places }),
        Some(_) => None,
    }
}

fn good_count(count: u16) -> bool
    ensures { result ≡ good_rld_count count }
{
    count % 4 == 0 && count >= 8 && count <= 56
}

// What an RLD card says.
pub(crate) fn rld_card(card: &[u8; 80], place: CardAt) -> Result<Card, CardFault>
    ensures { says result ≡ rld_says card.now place }
{
    let count = half(card, 10);
    if !good_count(count) {
        return Err(CardFault::BadCount(place));
    }
    let words = &data_words(card)[..(count / 4) as usize];
    let items = rld_items(words).ok_or(CardFault::BadRelocation(place))?;
    Ok(Card::Rld(items))
}
