// What a deck must not define, given the dictionary.
ghost use Rattle.std.specs.Prelude.{◌≡◌};
ghost use Rattle.link.specs.Lines.{lines};
ghost use Rattle.link.specs.Clashes.{state_of, is_section, is_label, is_defined, kept, kept_at, kept_kind, label_clash, common_too_long, passes_section, below_common};

use crate::lines::{Dictionary, LineState};
use card::{Item, Name};
use deck::{OnCard, Rule};

impl Dictionary {
    // What is known of a name.
    fn state_of(&self, name: Name) -> Option<LineState>
        ensures { result ≡ state_of name (lines self.now) }
    {
        self.line_of(name).map(|line| line.state)
    }

    fn is_section(&self, name: Name) -> bool
        ensures { result ≡ is_section (state_of name (lines self.now)) }
    {
        matches!(self.state_of(name), Some(LineState::Section { .. }))
    }

    fn is_label(&self, name: Name) -> bool
        ensures { result ≡ is_label (state_of name (lines self.now)) }
    {
        matches!(self.state_of(name), Some(LineState::Label { .. }))
    }

    fn is_defined(&self, name: Name) -> bool
        ensures { result ≡ is_defined (state_of name (lines self.now)) }
    {
        matches!(
            self.state_of(name),
            Some(LineState::Section { .. } | LineState::Label { .. } | LineState::Common { .. })
        )
    }

    // A section is kept unless its name is a section already; a private one always is.
    pub(crate) fn keeps(&self, name: Option<Name>) -> bool
        ensures { result ≡ kept (lines self.now) name }
    {
        match name {
            Some(name) => !self.is_section(name),
            None => true,
        }
    }
}

// Whether an item is a section that is kept.
fn keeps_item(dictionary: &Dictionary, item: Item<usize>) -> bool
    ensures { result ≡ kept_kind (lines dictionary.now) item }
{
    match item {
        Item::Section { name, .. } => dictionary.keeps(name),
        Item::Label { .. } | Item::Reference { .. } | Item::Common { .. } => false,
    }
}

// Whether the item at a place is a section that is kept.
fn keeps_at(dictionary: &Dictionary, items: &[OnCard<Item<usize>>], place: usize) -> bool
    ensures { result ≡ kept_at (lines dictionary.now) items.now place }
{
    match items.get(place) {
        Some(item) => keeps_item(dictionary, item.what),
        None => false,
    }
}

// No label of a kept section is defined already, and no section or common is a label already.
#[derive(Clone, Copy)]
pub(crate) struct LabelsApart<'l, 'i> {
    pub(crate) dictionary: &'l Dictionary,
    pub(crate) items: &'i [OnCard<Item<usize>>],
}

impl Rule<Item<usize>> for LabelsApart<'_, '_> {
    ghost breaks = { λ s. label_clash (lines s.dictionary.now) s.items.now };

    fn breaks(&self, x: &Item<usize>) -> bool {
        let dictionary = self.dictionary;
        match *x {
            Item::Section {
                name: Some(name),
                ..
            } => dictionary.is_label(name),
            Item::Common { name, .. } => dictionary.is_label(name),
            Item::Label {
                name,
                address: _,
                section,
            } => keeps_at(dictionary, self.items, section) && dictionary.is_defined(name),
            Item::Section { name: None, .. } | Item::Reference { .. } => false,
        }
    }
}

// Whether a length passes that of a section.
fn passes_section(length: u32, state: Option<LineState>) -> bool
    ensures { result ≡ passes_section length state }
{
    match state {
        Some(
            LineState::Section {
                address: _,
                length: section,
            },
        ) => length > section,
        Some(LineState::Label { .. } | LineState::Common { .. } | LineState::Open) | None => false,
    }
}

// Whether a length stays below that of a common.
fn below_common(length: u32, state: Option<LineState>) -> bool
    ensures { result ≡ below_common length state }
{
    match state {
        Some(LineState::Common { length: common }) => length < common,
        Some(LineState::Section { .. } | LineState::Label { .. } | LineState::Open) | None => false,
    }
}

// No common is longer than the section of its name.
#[derive(Clone, Copy)]
pub(crate) struct CommonsFit<'l> {
    pub(crate) dictionary: &'l Dictionary,
}

impl Rule<Item<usize>> for CommonsFit<'_> {
    ghost breaks = { λ s. common_too_long (lines s.dictionary.now) };

    fn breaks(&self, x: &Item<usize>) -> bool {
        let dictionary = self.dictionary;
        match *x {
            Item::Common { name, length } => passes_section(length, dictionary.state_of(name)),
            Item::Section {
                name: Some(name),
                address: _,
                length,
            } => below_common(length, dictionary.state_of(name)),
            Item::Section { name: None, .. } | Item::Label { .. } | Item::Reference { .. } => false,
        }
    }
}
