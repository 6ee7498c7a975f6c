// Reading a header: which form a block has by its first bytes, and how many bytes it counts. How a block must end is not judged
// here. specs/Header says what is read from every input.
ghost use Rattle.std.specs.Prelude.{◌≡◌, ◌+◌, ◌-◌, ◌≤◌, true, false, length, take, drop, get_or, MatchResult};
ghost use Rattle.opening.specs.Header.{is_digit, counted_in, header_in};

use units::{Bytes, Refusal};

// A part of a caller's bytes: where it starts, and how many bytes it has.
#[derive(Clone, Copy, Debug, PartialEq, Eq)]
pub struct Part {
    pub start: usize,
    pub length: Bytes,
}

impl Part {
    // The part's bytes.
    pub fn of(self, block: &[u8]) -> &[u8]
        requires { self.start + self.length.0 ≤ length block.now }
        ensures { result.now ≡ take self.length.0 (drop self.start block.now) }
    {
        &block[self.start..self.start + self.length.0]
    }
}

// What the header says of a block.
#[derive(Clone, Copy, Debug, PartialEq, Eq)]
pub enum Header {
    // `#0`.
    OpenEnded,
    // So many bytes from `start` on.
    Counted(Part),
}

// Reads the digit at byte i, which the form needs.
#[tactic(auto, unfolding(crate::specs::Header::is_digit))]
fn read_digit(block: &[u8], i: usize) -> Result<usize, Refusal>
    ensures { let byte = get_or block.now i 0 in MatchResult result (λ digit. (is_digit byte ≡ true) × (digit ≡ byte - 48)) (λ refusal. (is_digit byte ≡ false) × (refusal ≡ Refusal.NoDigit i)) }
{
    match block.get(i) {
        Some(byte @ b'0'..=b'9') => Ok(usize::from(byte - b'0')),
        _ => Err(Refusal::NoDigit(i)),
    }
}

// Reads so many count digits.
fn read_count(block: &[u8], digits: usize) -> Result<Header, Refusal>
    requires { digits ≤ 9 }
    ensures { result ≡ counted_in block.now digits }
{
    let mut count = 0;
    for i in 0..digits {
        count = count * 10 + read_digit(block, 2 + i)?;
    }
    Ok(Header::Counted(Part {
        start: 2 + digits,
        length: Bytes(count),
    }))
}

// Reads the mark, the digit behind it, and the count digits that this one asks for.
#[tactic(auto, unfolding(crate::specs::Header::header_in, crate::specs::Header::is_digit))]
pub fn read_header(block: &[u8]) -> Result<Header, Refusal>
    ensures { result ≡ header_in block.now }
{
    let Some(b'#') = block.first() else {
        return Err(Refusal::NoMark);
    };
    match read_digit(block, 1)? {
        0 => Ok(Header::OpenEnded),
        digits => read_count(block, digits),
    }
}
