// The lines of a map.
use card::Name;
use reserved::Reserved;

// What a line of the map shows: a section, a private one, a label, a common, or an open name, strong or weak.
#[derive(Clone, Copy, PartialEq, Eq, Debug)]
pub enum MapKind {
    Section,
    Private,
    Label,
    Common,
    Strong,
    Weak,
}

// A line of the map. A private section shows the blank name, an open name address and length zero.
#[derive(Clone, Copy, PartialEq, Eq, Debug)]
pub struct MapLine {
    pub name: Name,
    pub kind: MapKind,
    pub address: u32,
    pub length: u32,
}

// The map, while there is one.
pub(crate) type MapLines = Reserved<MapLine, 1024>;
