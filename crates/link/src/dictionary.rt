// Looking names up, and adding lines.
ghost use Rattle.std.specs.Prelude.{◌≡◌, ◌<◌, ◌≤◌, length, IfOk, IfSome};
ghost use Rattle.link.specs.Lines.{same_line_name, lines, line_of, place_of};
ghost use Rattle.link.specs.Keys;

use crate::homes::Extent;
use crate::lines::{Dictionary, Line, LineName, LineState};
use card::{Name, Strength};
use std::alloc::{AllocError, Global};
use table::{Count, Full, Key, Row, find, held, insert, lookup};

// The line of a name that nothing refers to strongly, and nothing defines yet.
const OPEN: Line = Line {
    state: LineState::Open,
    strength: Strength::Weak,
    marked: false,
};

// `Key` has its own equality (see there); this one is what `Eq` is derived to be.
impl Key for LineName {
    ghost same = { same_line_name };

    ghost decides = { Keys.decides };

    fn equals(self, other: LineName) -> bool {
        self == other
    }
}

impl Dictionary {
    // No lines yet, and room for 1,024.
    pub(crate) fn new(heap: Global) -> Result<Dictionary, AllocError> {
        let row = Row {
            key: LineName { name: None },
            value: OPEN,
        };
        let rows = vec![in heap; row; 1024]?;
        Ok(Dictionary {
            rows,
            count: Count { rows: 0 },
        })
    }

    // The lines in use.
    pub(crate) fn all(&self) -> &[Row<LineName, Line>]
        ensures value { result.now ≡ lines self.now }
        ensures few { length result.now ≤ 1024 }
    {
        held(self.rows.as_slice(), &self.count)
    }

    // The line of a name.
    pub(crate) fn line_of(&self, name: Name) -> Option<Line>
        ensures { result ≡ line_of name (lines self.now) }
    {
        let key = LineName { name: Some(name) };
        lookup(self.rows.as_slice(), &self.count, key)
    }

    // The place of a name's line.
    pub(crate) fn place_of(&self, name: Name) -> Option<usize>
        ensures answer { result ≡ place_of name (lines self.now) }
        ensures within { IfSome result (λ i. i < 1024) }
    {
        let key = LineName { name: Some(name) };
        find(self.rows.as_slice(), &self.count, key)
    }

    // Where the section of a name lies, if it is one.
    pub(crate) fn section_of(&self, name: Name) -> Option<Extent> {
        match self.line_of(name)?.state {
            LineState::Section { address, length } => Some(Extent {
                start: address,
                end: address.wrapping_add(length),
            }),
            LineState::Label { .. } | LineState::Common { .. } | LineState::Open => None,
        }
    }

    // One line more at the end, and its place; refused where there are 1,024.
    fn add(&mut self, name: Option<Name>, line: Line) -> Result<usize, Full>
        ensures { IfOk result (λ i. i < 1024) }
    {
        let key = LineName { name };
        insert(self.rows.as_mut_slice(), &mut self.count, key, line)
    }

    // A section's line that has no name; refused where there are 1,024.
    pub(crate) fn add_private(&mut self, state: LineState) -> Result<(), Full> {
        self.add(None, Line { state, ..OPEN })?;
        Ok(())
    }

    // Changes the line of a name, which is a new one where it has none; refused where there are 1,024.
    pub(crate) fn change_line<F: FnOnce(&mut Line)>(
        &mut self,
        name: Name,
        change: F,
    ) -> Result<(), Full>
        requires { F.IsAlwaysCallable change }
    {
        let place = match self.place_of(name) {
            Some(place) => place,
            None => self.add(Some(name), OPEN)?,
        };
        change(&mut self.rows[place].value);
        Ok(())
    }

    // Becomes a copy of another dictionary.
    pub(crate) fn copy_from(&mut self, other: &Dictionary)
        ensures { lines self.new ≡ lines other.now }
    {
        self.rows
            .as_mut_slice()
            .copy_from_slice(other.rows.as_slice());
        self.count = other.count;
    }
}
