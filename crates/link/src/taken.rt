// What the link keeps of the decks that it has taken: their texts and constants at final addresses.
ghost use Rattle.std.specs.Prelude.{◌≡◌, ◌*◌, ◌≤◌, [], vec_len};

use card::{Sign, Width};
use reserved::Reserved;
use std::alloc::{AllocError, Global};

// The first `count` of the bytes, from a final address on. Kept with its count, as texts are.
#[derive(Clone, Copy)]
pub struct Run {
    pub address: u32,
    pub count: u16,
    pub bytes: [u8; 56],
}

// By how much a constant moves: a known shift, or the address that a line has when the program is fixed. The line stands by its
// place: dictionaries are swapped whole, so nothing can borrow from one.
#[derive(Clone, Copy)]
pub enum Shift {
    Known(u32),
    OfLine(usize),
}

// A relocation item of a kept section, at a final address.
#[derive(Clone, Copy)]
pub struct Relocation {
    pub address: u32,
    pub width: Width,
    pub sign: Sign,
    pub shift: Shift,
}

const MAX_RUNS: usize = 131_072;

const MAX_RELOCATIONS: usize = 1_835_008;

// At most 256 decks of at most 512 texts and 7,168 constants each.
#[derive(Drop)]
pub(crate) struct Taken {
    pub(crate) decks: usize,
    pub(crate) runs: Reserved<Run, MAX_RUNS>,
    pub(crate) relocations: Reserved<Relocation, MAX_RELOCATIONS>,
    ghost few_decks: { decks ≤ 256 },
    ghost few_runs: { vec_len runs.all ≤ 512 * decks },
    ghost few_relocations: { vec_len relocations.all ≤ 7168 * decks },
}

impl Taken {
    pub(crate) fn new(heap: Global) -> Result<Taken, AllocError> {
        Ok(Taken {
            decks: 0,
            runs: Reserved::new(heap)?,
            relocations: Reserved::new(heap)?,
        })
    }

    pub(crate) fn clear(&mut self)
        ensures decks { self.new.decks ≡ 0 }
        ensures runs { self.new.runs.all.items ≡ [] }
        ensures relocations { self.new.relocations.all.items ≡ [] }
    {
        self.runs.all.clear();
        self.relocations.all.clear();
        self.decks = 0;
    }
}
