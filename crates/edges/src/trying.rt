// Trying a step: what it answers, and what stands then in the lent areas, which are marked before.
use crate::reading::{Case, MOST_AREA, MOST_WORK, Trial};
use crate::say::{Hexadecimal, Opened, Outcome, Share};
use graupenzelt::{OpenReply, Reply};
use std::io;
use units::Status;

// What stands everywhere in the areas before: a byte that no ramp has, and a number.
const BYTE: u8 = 253;

const NUMBER: u16 = 42405;

// How many numbers of the work area an answer clears. The test has its own number here, so that it does not follow the library's.
const CLEARED: usize = 16384;

// Tries a case.
pub(crate) fn run(rt: &impl Print, case: &Case<'_>) -> io::Result<()> {
    rt.write_all(case.name)?;
    let bytes = case.bytes;
    match case.trial {
        Trial::Open => open(rt, bytes)?,
        Trial::Check => check(rt, bytes)?,
        Trial::Compare { split } => {
            // A split lies within the bytes: it was said before the last of them.
            let (a, b) = bytes.split_at(split.min(bytes.len()));
            compare(rt, a, b)?;
        }
        Trial::Frame { area } => frame(rt, bytes, area)?,
        Trial::Handle { area, work } => handle(rt, bytes, area, work)?,
    }
    println!(rt)
}

// The payload that opening found in a block, cut out by hand: the test does not lean on what it tests.
fn payload_in(block: &[u8], seen: OpenReply) -> &[u8] {
    let from_start = block.get(seen.start..).unwrap_or_default();
    from_start.get(..seen.length).unwrap_or(from_start)
}

fn open(rt: &impl Print, block: &[u8]) -> io::Result<()> {
    let seen = graupenzelt::graupenzelt_open(block);
    let payload = Hexadecimal(payload_in(block, seen));
    print!(rt; ": open {} payload {payload}", Opened(seen))
}

fn check(rt: &impl Print, payload: &[u8]) -> io::Result<()> {
    let seen = graupenzelt::graupenzelt_check(payload);
    print!(rt;
        ": check {} signals {} channels {} ranks {} pairs {}",
        Outcome(seen.status),
        seen.signals,
        seen.channels,
        seen.ranks,
        seen.pairs
    )
}

fn compare(rt: &impl Print, a: &[u8], b: &[u8]) -> io::Result<()> {
    let seen = graupenzelt::graupenzelt_compare(a, b);
    print!(rt; ": compare {} order {}", Outcome(seen.status), seen.order)
}

// The block that a step wrote at the start of an area, and what stands behind it; none where it was refused.
fn written(seen: Reply, area: &[u8]) -> Option<(&[u8], &[u8])> {
    if seen.status == Status::success() {
        area.split_at_checked(seen.length)
    } else {
        None
    }
}

// Frames in an area of so many bytes, which are at most those of the array: a step's sizes suit it.
fn frame(rt: &impl Print, payload: &[u8], bytes: usize) -> io::Result<()> {
    let mut area = [BYTE; MOST_AREA];
    let area = &mut area[..bytes.min(MOST_AREA)];
    let seen = graupenzelt::graupenzelt_frame(payload, area);
    print!(rt; ": frame {} length {}", Outcome(seen.status), seen.length)?;
    match written(seen, area) {
        Some((block, later)) => {
            framed(rt, payload, block)?;
            print!(rt; ", later bytes kept {}", Share::of(later, BYTE))
        }
        None => print!(rt; ", bytes kept {}", Share::of(area, BYTE)),
    }
}

// A framed block: what stands before the payload's bytes, and these; and both again when it is opened.
fn framed(rt: &impl Print, payload: &[u8], block: &[u8]) -> io::Result<()> {
    if let Some(header) = block.len().checked_sub(payload.len()) {
        let (header, seen) = block.split_at(header);
        let right = Share::same(payload, seen);
        print!(rt; ", header {}, payload right {right}", Hexadecimal(header))?;
    }
    let seen = graupenzelt::graupenzelt_open(block);
    let right = Share::same(payload, payload_in(block, seen));
    print!(rt; ", opened {}, payload right {right}", Opened(seen))
}

// Handles with areas of so many bytes and numbers, within the arrays as above. No area is allocated, so that no case runs out of
// memory.
fn handle(rt: &impl Print, block: &[u8], bytes: usize, numbers: usize) -> io::Result<()> {
    let mut area = [BYTE; MOST_AREA];
    let mut work = [NUMBER; MOST_WORK];
    let area = &mut area[..bytes.min(MOST_AREA)];
    let work = &mut work[..numbers.min(MOST_WORK)];
    let seen = graupenzelt::graupenzelt_handle(block, area, work);
    print!(rt; ": handle {} length {}", Outcome(seen.status), seen.length)?;
    match written(seen, area) {
        Some((block, later)) => {
            print!(rt;
                ", block {}, later bytes kept {}",
                Hexadecimal(block),
                Share::of(later, BYTE)
            )?;
            cleared(rt, work)
        }
        None => {
            print!(rt;
                ", bytes kept {}, numbers kept {}",
                Share::of(area, BYTE),
                Share::of(work, NUMBER)
            )
        }
    }
}

// The work area after an answer: the numbers that must be zero, and later ones.
fn cleared(rt: &impl Print, work: &[u16]) -> io::Result<()> {
    match work.split_at_checked(CLEARED) {
        Some((first, later)) => {
            print!(rt;
                ", numbers zero {}, later numbers kept {}",
                Share::of(first, 0),
                Share::of(later, NUMBER)
            )
        }
        None => Ok(()),
    }
}
