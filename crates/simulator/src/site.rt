// A SIB of the network with what stands behind it.
ghost use Rattle.std.specs.Prelude.{◌≡◌, vec_len};

use refusal::TableFault;
use table::Kind;

// What an instrument offers of the bits that it holds.
#[derive(Clone, Copy, Debug, PartialEq, Eq)]
pub enum Offer {
    Keeps,
    Inverts,
}

#[derive(Clone, Copy, PartialEq, Eq)]
pub(crate) enum Phase {
    Rest,
    Scan,
    Broken,
}

// A cell of a row, from 0, that always shows the same bit.
#[derive(Clone, Copy, Debug, PartialEq, Eq)]
pub struct Stuck {
    pub cell: usize,
    pub bit: bool,
}

// How an instrument behaves: what it offers, and its stuck cell, if it has one.
#[derive(Clone, Copy, Debug, PartialEq, Eq)]
pub struct Setting {
    pub offer: Offer,
    pub fault: Option<Stuck>,
}

// Why no network is made.
#[derive(Clone, Copy, Debug, PartialEq, Eq)]
pub enum NetworkFault {
    Table(TableFault),
    // There is not one setting for each record.
    Settings,
    // The stuck cell of this number lies outside its row.
    Outside { number: usize },
    // The bits held are not as many as all instruments have.
    Held,
    Memory,
}

// A cell of a path that always shows the same bit, by its place from the first on. A type of its own beside `Stuck`, so that a
// place on the path and a cell of a row are not mixed up.
#[derive(Clone, Copy)]
pub(crate) struct StuckPlace {
    pub(crate) place: usize,
    pub(crate) bit: bool,
}

#[derive(Drop)]
pub(crate) struct Site {
    pub(crate) kind: Kind,
    pub(crate) depth: u8,
    pub(crate) offer: Offer,
    pub(crate) fault: Option<Stuck>,
    pub(crate) latch: bool,
    pub(crate) cell: bool,
    // Cells and held bits are two rows, and no row of pairs: a capture and an update copy one into the other.
    pub(crate) row: Vec<bool>,
    pub(crate) held: Vec<bool>,
    ghost even: { vec_len held ≡ vec_len row },
}
