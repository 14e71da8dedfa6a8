// The rules of a tray, looked through in their order.
ghost use Rattle.std.specs.Prelude.{◌≡◌, ◌≤◌, length};
ghost use Rattle.library.specs.Answers.{answer_by};
ghost use Rattle.library.specs.Decks.{cards_of, header_names};
ghost use Rattle.library.specs.Faults.{good_length, good_start, good_size, good_behind, good_sizes, good_decks, among, all_apart, tray_fault};

use crate::LibraryFault;
use crate::cards::{cards_of, deck_size, is_header, name_on};
use arrayvec::ArrayVec;

const MAX_CARDS: usize = 12_000;

const MAX_DECKS: usize = 1_024;

const MAX_DECK: usize = 512;

// Refuses a tray by the first rule that it breaks.
pub(crate) fn check(bytes: &[u8]) -> Result<(), LibraryFault>
    ensures { result ≡ answer_by (tray_fault bytes.now) }
{
    if !good_length(bytes) {
        return Err(LibraryFault::BadTrayLength);
    }
    let cards = cards_of(bytes);
    if !good_decks(cards) {
        return Err(LibraryFault::BadTrayDecks);
    }
    if !names_apart(cards) {
        return Err(LibraryFault::NameTwice);
    }
    Ok(())
}

fn good_length(bytes: &[u8]) -> bool
    ensures { result ≡ good_length bytes.now }
{
    bytes.len() % 80 == 0 && bytes.len() / 80 <= MAX_CARDS
}

fn good_decks(cards: &[[u8; 80]]) -> bool
    ensures { result ≡ good_decks cards.now }
{
    good_start(cards) && header_count(cards) <= MAX_DECKS && good_sizes(cards)
}

fn good_start(cards: &[[u8; 80]]) -> bool
    ensures { result ≡ good_start cards.now }
{
    match cards.first() {
        Some(card) => is_header(card),
        None => true,
    }
}

fn header_count(cards: &[[u8; 80]]) -> usize
    ensures { result ≡ length (header_names cards.now) }
{
    cards.iter().filter(|card| is_header(card)).count()
}

// This walk and that of `all_apart` look at an element and those behind it; one function for both would take the test as a closure
// and promise no more than what that closure answers.
fn good_sizes(cards: &[[u8; 80]]) -> bool
    ensures { result ≡ good_sizes cards.now }
{
    let mut left = cards;
    while let Some((card, behind)) = left.split_first() {
        if !good_behind(card, behind) {
            return false;
        }
        left = behind;
    }
    true
}

fn good_behind(card: &[u8; 80], behind: &[[u8; 80]]) -> bool
    ensures { result ≡ good_behind card.now behind.now }
{
    !is_header(card) || good_size(deck_size(behind))
}

fn good_size(size: usize) -> bool
    ensures { result ≡ good_size size }
{
    1 <= size && size <= MAX_DECK
}

// No two headers have one name.
fn names_apart(cards: &[[u8; 80]]) -> bool
    requires { length (header_names cards.now) ≤ 1024 }
    ensures { result ≡ all_apart (header_names cards.now) }
{
    all_apart(header_names(cards).as_slice())
}

fn header_names(cards: &[[u8; 80]]) -> ArrayVec<[u8; 8], MAX_DECKS>
    requires { length (header_names cards.now) ≤ 1024 }
    ensures { result.items ≡ header_names cards.now }
{
    let mut names = ArrayVec::new();
    for card in cards {
        if is_header(card) {
            names.push(name_on(card));
        }
    }
    names
}

// A walk of its own; the reason stands at `good_sizes`.
fn all_apart(names: &[[u8; 8]]) -> bool
    ensures { result ≡ all_apart names.now }
{
    let mut left = names;
    while let Some((name, others)) = left.split_first() {
        if is_among(others, *name) {
            return false;
        }
        left = others;
    }
    true
}

// A loop, as this is what opening a tray of many decks spends its time in: `contains` and `any` took 1.6 times as long.
fn is_among(names: &[[u8; 8]], name: [u8; 8]) -> bool
    ensures { result ≡ among name names.now }
{
    for other in names {
        if *other == name {
            return true;
        }
    }
    false
}
