// The map of a fixed program.
use crate::layout::Free;
use crate::lines::{Dictionary, Line, LineName, LineState};
use crate::maplines::{MapKind, MapLine, MapLines};
use card::{Name, Strength};

// The kind of an open name.
fn open_kind(strength: Strength) -> MapKind {
    match strength {
        Strength::Strong => MapKind::Strong,
        Strength::Weak => MapKind::Weak,
    }
}

// A section's kind, by its name.
fn section_kind(name: Option<Name>) -> MapKind {
    match name {
        Some(_) => MapKind::Section,
        None => MapKind::Private,
    }
}

// The map's line of a line of the dictionary. A common lies where the next bytes are free: commons are laid out in line order.
fn map_line(key: LineName, line: Line, free: &mut Free) -> MapLine {
    let (kind, address, length) = match line.state {
        LineState::Section { address, length } => (section_kind(key.name), address, length),
        LineState::Label { address } => (MapKind::Label, address, 0),
        LineState::Common { length } => {
            let next = free.next;
            let address = free.take(length).map_or(next, |extent| extent.start);
            (MapKind::Common, address, length)
        }
        LineState::Open => (open_kind(line.strength), 0, 0),
    };
    MapLine {
        name: key.name.unwrap_or(Name::blank()),
        kind,
        address,
        length,
    }
}

// Fills a map with the lines of all lines of the dictionary.
pub(crate) fn fill_map(map: &mut MapLines, dictionary: &Dictionary, free: Free) {
    let mut free = free;
    map.all.clear();
    for row in dictionary.all() {
        map.all
            .push_reserved(map_line(row.key, row.value, &mut free));
    }
}

impl Dictionary {
    // Whether a strong name is open.
    pub(crate) fn has_open(&self) -> bool {
        self.all().iter().any(|row| row.value.is_wanted())
    }

    // The address behind the last byte of a section or common, where the sections' last is `end`; none where a common ends
    // past what is free.
    pub(crate) fn image_end(&self, free: Free, end: u32) -> Option<u32> {
        let mut free = free;
        let mut end = end;
        for row in self.all() {
            if let LineState::Common { length } = row.value.state {
                let extent = free.take(length)?;
                if extent.end > extent.start {
                    end = extent.end;
                }
            }
        }
        Some(end)
    }
}
