// The bytes of a case, filled in by hexadecimal digits from the words of its line.
ghost use Rattle.std.specs.Prelude.{◌<◌, IfSome};

use crate::reading::Fault;
use crate::words::{letters, number, split_once};
use arrayvec::ArrayVec;
use std::ops::Range;

// The most bytes that a case may have.
const MOST_BYTES: usize = 8192;

// Bytes, and the first digit of one more where it stands there without its second. They lie in the value itself: no case runs out
// of memory.
#[derive(Drop)]
pub(crate) struct Digits {
    bytes: ArrayVec<u8, MOST_BYTES>,
    half: Option<u8>,
}

impl Digits {
    pub(crate) fn new() -> Self {
        Digits {
            bytes: ArrayVec::new(),
            half: None,
        }
    }

    // How many bytes there are.
    pub(crate) fn len(&self) -> Result<usize, Fault> {
        match self.half {
            Some(_) => Err(Fault::HalfByte),
            None => Ok(self.bytes.len()),
        }
    }

    pub(crate) fn bytes(&self) -> Result<&[u8], Fault> {
        self.len()?;
        Ok(self.bytes.as_slice())
    }

    fn push(&mut self, byte: u8) -> Result<(), Fault> {
        self.bytes.try_push(byte).map_err(|_| Fault::NoBytes)
    }

    // The first digit of one byte more, where there is room for it.
    fn first(&mut self, digit: u8) -> Result<(), Fault>
        requires { digit < 16 }
    {
        if self.bytes.is_full() {
            return Err(Fault::NoBytes);
        }
        self.half = Some(digit * 16);
        Ok(())
    }

    fn digit(&mut self, digit: u8) -> Result<(), Fault>
        requires { digit < 16 }
    {
        match self.half.take() {
            Some(first) => self.push(first | digit),
            None => self.first(digit),
        }
    }

    // Both digits at once where none waits for its second, as in most cases.
    fn byte(&mut self, byte: u8) -> Result<(), Fault> {
        match self.half.take() {
            Some(first) => {
                self.push(first | byte / 16)?;
                self.first(byte % 16)
            }
            None => self.push(byte),
        }
    }

    fn hexadecimal(&mut self, word: &[u8]) -> Result<(), Fault> {
        for &letter in word {
            self.digit(value(letter).ok_or(Fault::NoBytes)?)?;
        }
        Ok(())
    }

    fn text(&mut self, text: &[u8]) -> Result<(), Fault> {
        for &byte in text {
            self.byte(byte)?;
        }
        Ok(())
    }

    // A table's entry, of rank 1 where signal and channel have one number.
    fn entry(&mut self, signal: usize, channel: usize, other: u8) -> Result<(), Fault>
        requires { other < 16 }
    {
        self.byte((signal % 256) as u8)?;
        self.byte((channel % 256) as u8)?;
        self.digit(if signal == channel { 1 } else { other })
    }

    // What a run repeats is told once, and not at each index.
    fn run(&mut self, what: &[u8], mut indices: Range<usize>) -> Result<(), Fault> {
        if indices.is_empty() {
            return Err(Fault::NoBytes);
        }
        match letters(what) {
            b"ramp" => indices.try_for_each(|i| self.byte((i % 251) as u8)),
            b"pair" => indices.try_for_each(|i| self.entry(i / 16, i % 16, 1)),
            b"own" => indices.try_for_each(|i| self.entry(i / 15, i % 15, 2)),
            _ => indices.try_for_each(|_| self.hexadecimal(what)),
        }
    }

    // The bytes that a word says.
    pub(crate) fn word(&mut self, word: &[u8]) -> Result<(), Fault> {
        if let Some(text) = word.strip_prefix(b"\"") {
            // The second quotation mark ends a text.
            return self.text(text.strip_suffix(b"\"").ok_or(Fault::NoBytes)?);
        }
        match split_once(word, b'*') {
            Some((range, what)) if !what.is_empty() => {
                self.run(what, indices(range).ok_or(Fault::NoBytes)?)
            }
            _ => self.hexadecimal(word),
        }
    }
}

// What a letter is worth as a digit.
fn value(letter: u8) -> Option<u8>
    ensures { IfSome result (λ digit. digit < 16) }
{
    match letter {
        b'0'..=b'9' => Some(letter - b'0'),
        b'a'..=b'f' => Some(letter - b'a' + 10),
        _ => None,
    }
}

// What stands before the star says how often, or from which index up to which.
fn indices(range: &[u8]) -> Option<Range<usize>> {
    match split_once(range, b'-') {
        Some((from, to)) => Some(number(from)?..number(to)?),
        None => Some(0..number(range)?),
    }
}
