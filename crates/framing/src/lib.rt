// Framing a payload as a block: the shortest header that counts its bytes, and the payload behind it in the lent area.
// specs/Framing says what is answered and written for every payload and every area.
#![tactic(auto)]

ghost use Rattle.std.specs.Prelude.{◌≡◌, ◌≤◌, length};
ghost use Rattle.framing.specs.Framing.{longest, width_of, digits_of, block_length, Headable, Heads, Frames};

use units::{Bytes, Refusal};

// The longest payload that is framed.
pub const LONGEST: usize = 7504;

// The fewest digits that write n, which has at most four.
#[tactic(auto, unfolding(crate::specs::Framing::width_of))]
fn width(n: usize) -> usize
    ensures { (result ≡ width_of n) × (result ≤ 4) }
{
    match n {
        ..=9 => 1,
        ..=99 => 2,
        ..=999 => 3,
        _ => 4,
    }
}

// Fills `out` with the last digits of n, each straight to its position, from the last one up. The loop goes by index: of a reversed
// walk over the elements a proof does not know what it has written.
#[tactic(auto, using(crate::proofs::Written::digit_put, crate::proofs::Written::digits_done))]
fn put_digits(out: &mut [u8], n: usize)
    ensures { out.new ≡ digits_of (length out.old) n }
{
    let mut left = n;
    for i in (0..out.len()).rev() {
        out[i] = b'0' + (left % 10) as u8;
        left /= 10;
    }
}

// Writes the header that counts so many bytes at the area's start, and says how many bytes it has.
#[tactic(auto, using(crate::proofs::Written::head_written), unfolding(crate::specs::Framing::header_length))]
pub fn put_header(area: &mut [u8], length: Bytes) -> Bytes
    requires { Headable length.0 area.old }
    ensures { Heads length.0 area.old result.0 area.new }
{
    let n = length.0;
    let digits = width(n);
    let end = 2 + digits;
    area[0] = b'#';
    area[1] = b'0' + digits as u8;
    put_digits(&mut area[2..end], n);
    Bytes(end)
}

// How many bytes the block of a payload of so many bytes has.
#[tactic(auto, unfolding(crate::specs::Framing::block_length, crate::specs::Framing::header_length))]
pub fn framed_length(length: Bytes) -> Bytes
    requires { length.0 ≤ longest }
    ensures { result.0 ≡ block_length length.0 }
{
    let n = length.0;
    Bytes(2 + width(n) + n)
}

// Frames a payload into the lent area (rows 6 and 10), and says how many bytes the block has.
#[tactic(auto, unfolding(crate::specs::Framing::framing_of, crate::specs::Framing::area_after, crate::specs::Framing::block_length))]
pub fn frame(payload: &[u8], area: &mut [u8]) -> Result<Bytes, Refusal>
    ensures { Frames payload.now area.old result area.new }
{
    let n = payload.len();
    if LONGEST < n {
        return Err(Refusal::TooLong);
    }
    let whole = framed_length(Bytes(n));
    if area.len() < whole.0 {
        return Err(Refusal::NoRoom);
    }
    let header = put_header(area, Bytes(n));
    area[header.0..whole.0].copy_from_slice(payload);
    Ok(whole)
}
