// The public steps under their C names, for Rattle crates; graupenzelt_c exports them to C. Each hands on to the step itself, and tells
// its answer as C can read it: C has no Result, so a status stands before the fields. specs/Exports says what the fields are.
#![tactic(auto)]

ghost use Rattle.std.specs.Prelude.{◌≡◌};
ghost use Rattle.opening.specs.Opening.{opening_of};
ghost use Rattle.table.specs.Checking.{checked_of};
ghost use Rattle.graupenzelt.specs.Exports.{open_reply, block_reply, check_reply, compare_reply, FramesInto, ComparesLines, HandlesInto};

use command::handle;
use framing::frame;
use lines::{compare, order};
use opening::{Part, open};
use std::cmp::Ordering;
use table::check;
use units::{Bytes, Entries, Refusal, Size, Status};

// Where the payload starts, and how many bytes it has.
#[repr(C)]
#[derive(Clone, Copy)]
pub struct OpenReply {
    pub status: Status,
    pub start: usize,
    pub length: usize,
}

impl From<Result<Part, Refusal>> for OpenReply {
    ghost from_gives = { λ opening reply. reply ≡ open_reply opening };

    fn from(opening: Result<Part, Refusal>) -> OpenReply {
        let part = opening.unwrap_or(Part {
            start: 0,
            length: Bytes(0),
        });
        OpenReply {
            status: Status::of(&opening),
            start: part.start,
            length: part.length.0,
        }
    }
}

// How many bytes the block has that was written.
#[repr(C)]
#[derive(Clone, Copy)]
pub struct Reply {
    pub status: Status,
    pub length: usize,
}

impl From<Result<Bytes, Refusal>> for Reply {
    ghost from_gives = { λ written reply. reply ≡ block_reply written };

    fn from(written: Result<Bytes, Refusal>) -> Reply {
        Reply {
            status: Status::of(&written),
            length: written.unwrap_or(Bytes(0)).0,
        }
    }
}

// The numbers of a table's head.
#[repr(C)]
#[derive(Clone, Copy)]
pub struct CheckReply {
    pub status: Status,
    pub signals: u32,
    pub channels: u32,
    pub ranks: u32,
    pub pairs: u32,
}

// -1 where the first line is the lesser, 1 where it is the greater.
#[repr(C)]
#[derive(Clone, Copy)]
pub struct CompareReply {
    pub status: Status,
    pub order: i32,
}

impl From<Result<Ordering, Refusal>> for CompareReply {
    ghost from_gives = { λ comparison reply. reply ≡ compare_reply comparison };

    #[tactic(auto, unfolding(crate::specs::Exports::compare_reply))]
    fn from(comparison: Result<Ordering, Refusal>) -> CompareReply {
        CompareReply {
            status: Status::of(&comparison),
            order: order(comparison),
        }
    }
}

#[tactic(auto, unfolding(crate::specs::Exports::open_reply))]
pub fn graupenzelt_open(block: &[u8]) -> OpenReply
    ensures { result ≡ open_reply (opening_of block.now) }
{
    OpenReply::from(open(block))
}

#[tactic(auto, using(crate::proofs::Replies::frames_into))]
pub fn graupenzelt_frame(payload: &[u8], area: &mut [u8]) -> Reply
    ensures { FramesInto payload.now area.old result area.new }
{
    Reply::from(frame(payload, area))
}

// No conversion: the numbers fit for an accepted table, and not for every size.
pub fn graupenzelt_check(payload: &[u8]) -> CheckReply
    ensures { result ≡ check_reply (checked_of payload.now) }
{
    let checked = check(payload);
    let size = checked.unwrap_or(Size {
        signals: 0,
        channels: 0,
        ranks: 0,
        pairs: Entries(0),
    });
    CheckReply {
        status: Status::of(&checked),
        signals: size.signals as u32,
        channels: size.channels as u32,
        ranks: size.ranks as u32,
        pairs: u32::from(size.pairs.0),
    }
}

pub fn graupenzelt_compare(a: &[u8], b: &[u8]) -> CompareReply
    ensures { ComparesLines a.now b.now result }
{
    CompareReply::from(compare(a, b))
}

pub fn graupenzelt_handle(block: &[u8], area: &mut [u8], work: &mut [u16]) -> Reply
    ensures { HandlesInto block.now area.old work.old result area.new work.new }
{
    Reply::from(handle(block, area, work))
}
