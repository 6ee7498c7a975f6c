// Opening a block: the header is read first, and then judged by how a block of its form must end. The payload is handed back as a
// part of the caller's bytes. specs/Opening says what is found in every input.
#![tactic(auto)]

ghost use Rattle.std.specs.Prelude.{◌≡◌, ◌≤◌, length};
ghost use Rattle.opening.specs.Opening.{ended_of, counted_of, opening_of, payload_of};

mod headers;

pub use headers::{Header, Part, read_header};
use units::{Bytes, Refusal};

// Open-ended: the first newline after `#0` is the last byte.
#[tactic(auto, unfolding(crate::specs::Opening::ended_of, crate::specs::Opening::index_of, crate::specs::Opening::from))]
fn open_ended(block: &[u8]) -> Result<Part, Refusal>
    requires { 2 ≤ length block.now }
    ensures { result ≡ ended_of block.now }
{
    let rest = &block[2..];
    match rest.iter().position(|&byte| byte == b'\n') {
        Some(length) if length + 1 == rest.len() => Ok(Part {
            start: 2,
            length: Bytes(length),
        }),
        _ => Err(Refusal::WrongEnd(2)),
    }
}

// Definite: as many bytes follow the header as it counts.
#[tactic(auto, unfolding(crate::specs::Opening::counted_of, crate::specs::Opening::from))]
fn open_counted(block: &[u8], part: Part) -> Result<Part, Refusal>
    requires { part.start ≤ length block.now }
    ensures { result ≡ counted_of block.now part.start part.length.0 }
{
    if part.length == Bytes(block.len() - part.start) {
        Ok(part)
    } else {
        Err(Refusal::WrongEnd(part.start))
    }
}

// Opens a block (rows 1 to 3).
#[tactic(auto, using(crate::proofs::Reading::ended_long, crate::proofs::Reading::counted_long), unfolding(crate::specs::Opening::opening_of, crate::specs::Opening::opening_by))]
pub fn open(block: &[u8]) -> Result<Part, Refusal>
    ensures { result ≡ opening_of block.now }
{
    match read_header(block)? {
        Header::OpenEnded => open_ended(block),
        Header::Counted(part) => open_counted(block, part),
    }
}

// The part that opening found; empty, at the input's start, for a refusal.
#[tactic(auto, using(crate::proofs::Ending::part_inside), unfolding(crate::specs::Opening::payload_of))]
pub fn cut(block: &[u8], opening: Result<Part, Refusal>) -> &[u8]
    requires { opening ≡ opening_of block.now }
    ensures { result.now ≡ payload_of block.now }
{
    match opening {
        Ok(part) => part.of(block),
        Err(_) => &block[..0],
    }
}

// Opens a block and hands back its payload.
pub fn payload(block: &[u8]) -> &[u8]
    ensures { result.now ≡ payload_of block.now }
{
    cut(block, open(block))
}
