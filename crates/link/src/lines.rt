// The lines of the dictionary.
ghost use Rattle.std.specs.Prelude.{◌≡◌, vec_len};

use card::{Name, Strength};
use table::{Count, Row};

// What a line is found by. A private section's line has no name, and is never looked for.
#[derive(Clone, Copy, PartialEq, Eq)]
pub struct LineName {
    pub name: Option<Name>,
}

// What is known of a line's name: defined as a section, a label or a common, or open.
#[derive(Clone, Copy)]
pub enum LineState {
    Section { address: u32, length: u32 },
    Label { address: u32 },
    Common { length: u32 },
    Open,
}

// A line: what its name is, whether a strong reference named it, and whether a call has picked it.
#[derive(Clone, Copy)]
pub struct Line {
    pub state: LineState,
    pub strength: Strength,
    pub marked: bool,
}

impl Line {
    // Whether a strong reference names it, and nothing defines it.
    pub(crate) fn is_wanted(self) -> bool {
        self.strength == Strength::Strong && matches!(self.state, LineState::Open)
    }
}

// One line a name in order of first appearance, and one for every private section; at most 1,024. Rows and count are the two fields
// that the table's functions take.
#[derive(Drop)]
pub(crate) struct Dictionary {
    pub(crate) rows: Vec<Row<LineName, Line>>,
    pub(crate) count: Count,
    ghost sized: { vec_len rows ≡ 1024 },
}
