// What every room of the box speaks of: counts of bytes and counts of entries, as two types, so that neither can stand in for
// the other; how large a table is, with document 01's limits; and a refusal. specs/Refusals gives every number and every place.
#![tactic(auto)]

ghost use Rattle.std.specs.Prelude.{◌≡◌};
ghost use Rattle.units.specs.Units.{bytes_of};

mod refusals;

pub use refusals::{Refusal, Status};

// So many bytes. A header counts bytes and takes nothing else.
#[derive(Clone, Copy, Debug, PartialEq, Eq)]
pub struct Bytes(pub usize);

// So many entries of a table. A table's head counts them in 12 bits.
#[derive(Clone, Copy, Debug, PartialEq, Eq)]
pub struct Entries(pub u16);

// The one way from entries to bytes: how many bytes so many entries take.
impl From<Entries> for Bytes {
    ghost from_gives = { λ entries bytes. bytes.0 ≡ bytes_of entries.0 };

    fn from(entries: Entries) -> Bytes {
        Bytes((5 * usize::from(entries)).div_ceil(2))
    }
}

impl From<Entries> for usize {
    ghost from_gives = { λ entries n. n ≡ entries.0 };

    fn from(entries: Entries) -> usize {
        usize::from(entries.0)
    }
}

// The most signals, channels, ranks and pairs that a table may have.
pub const MOST_SIGNALS: usize = 200;

pub const MOST_CHANNELS: usize = 200;

pub const MOST_RANKS: usize = 15;

pub const MOST_PAIRS: usize = 3000;

// How many signals, channels, ranks and pairs a table has.
#[derive(Clone, Copy, Debug, PartialEq, Eq)]
pub struct Size {
    pub signals: usize,
    pub channels: usize,
    pub ranks: usize,
    pub pairs: Entries,
}
