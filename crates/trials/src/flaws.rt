// A library with a flawed card: 11.
ghost use Rattle.std.specs.Prelude.{◌≡◌, [], ◌∷◌, length, Some};
ghost use Rattle.std.proofs.Common.{arith};
ghost use Rattle.library.specs.Slots.{Card, Flaw};

use crate::bench::{Bench, Expected, Plan, Step};
use crate::cases::{Case, try_all};
use crate::punch::Card::Plain;
use crate::punch::{SYM, punch};
use card::Name;
use library::{Library, NoCard};
use std::process::Abort;
use std::test::Fail;

// Under every name a deck of two cards, of which the second is flawed with the mark 7.
#[derive(Drop)]
pub(crate) struct Marred {
    pub(crate) first: [u8; 80],
    ghost sized: { length first ≡ 80 },
}

impl Library for Marred {
    ghost meaning = { λ s _. Some (Card s.first ∷ Flaw 7 ∷ []) };

    ghost sound = { λ s _. (omega arith, omega arith, (s.sized, (tt, tt))) };

    fn count(&mut self, _name: Name) -> Option<u16> {
        Some(2)
    }

    fn card(&mut self, _name: Name, i: u16, into: &mut [u8; 80]) -> Result<(), NoCard> {
        match i {
            1 => {
                *into = self.first;
                Ok(())
            }
            2 => Err(NoCard::Flawed(7)),
            _ => Err(NoCard::Nothing),
        }
    }
}

// Column 1 of the first card, and what the include answers.
#[derive(Clone, Copy)]
struct FlawCase(u8, Expected);

impl Case for FlawCase {
    fn passes(&self, rt: &impl Abort, bench: &mut Bench) -> Result<(), Fail> {
        let library = Marred {
            first: punch(Plain(self.0, SYM, 0)),
        };
        let steps = [(Step::Include("D"), self.1)];
        let plan = Plan::of_steps("a library with a flawed card", 8, &steps);
        bench.link(rt, library, plan)
    }
}

// A fault of an earlier card is told first.
const CASES: &[FlawCase] = &[
    FlawCase(0x02, Expected::Flawed("D", 2, 7)),
    FlawCase(0x40, Expected::Refused(12, "D", 1)),
];

#[test]
fn flawed_cards(rt: HostRuntime) -> Result<(), Fail> {
    try_all(&rt, rt.alloc(), CASES)
}
