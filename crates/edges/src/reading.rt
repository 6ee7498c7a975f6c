// Reading a case: a name, and behind the colon the step and its words.
use crate::digits::Digits;
use crate::words::{Words, letters, number, split_once};
use std::fmt;

// The largest areas that may be lent, in bytes and in numbers.
pub(crate) const MOST_AREA: usize = 8192;

pub(crate) const MOST_WORK: usize = 16385;

// A step by its word, before it is known what else the line says: a line without a step is no case, whatever its words.
#[derive(Clone, Copy)]
enum Step {
    Open,
    Check,
    Compare,
    Frame,
    Handle,
}

impl TryFrom<&[u8]> for Step {
    type Error = Fault;

    fn try_from(word: &[u8]) -> Result<Step, Fault> {
        match letters(word) {
            b"open" => Ok(Step::Open),
            b"check" => Ok(Step::Check),
            b"compare" => Ok(Step::Compare),
            b"frame" => Ok(Step::Frame),
            b"handle" => Ok(Step::Handle),
            _ => Err(Fault::NoCase),
        }
    }
}

// What is wrong with a line; where several things are, the first of them.
#[derive(Clone, Copy, Debug)]
pub(crate) enum Fault {
    NoCase,
    NoBytes,
    WrongSizes,
    HalfByte,
}

impl fmt::Display for Fault {
    fn fmt<W: fmt::Write>(&self, f: &mut fmt::Formatter<W>) -> fmt::Result {
        f.write_str(match self {
            Fault::NoCase => "no name with a colon, or none of the five steps",
            Fault::NoBytes => "a word that is no text, digits or run, or more than 8192 bytes",
            Fault::WrongSizes =>
                "with, area= or work= too much, missing or too large for this step",
            Fault::HalfByte => "half a byte",
        })
    }
}

// What may be said once only: what was said, if anything; a fault where more was.
type Once<T> = Result<Option<T>, Fault>;

// One word more: after what was said already it is a fault, whatever it says.
fn once<T: Copy>(old: Once<T>, new: Option<T>) -> Once<T> {
    match old? {
        None => Ok(new),
        Some(_) => Err(Fault::WrongSizes),
    }
}

// What a step may need: how many bytes stand before `with`, and the sizes of the areas.
#[derive(Clone, Copy)]
struct Sizes {
    split: Once<Result<usize, Fault>>,
    area: Once<usize>,
    work: Once<usize>,
}

// A step with what it needs beside the bytes.
#[derive(Clone, Copy)]
pub(crate) enum Trial {
    Open,
    Check,
    Compare { split: usize },
    Frame { area: usize },
    Handle { area: usize, work: usize },
}

impl Sizes {
    // Each size is said just where it is needed, and within its limit.
    fn suit(self, step: Step) -> Result<Trial, Fault> {
        match (step, self.split?, self.area?, self.work?) {
            (Step::Open, None, None, None) => Ok(Trial::Open),
            (Step::Check, None, None, None) => Ok(Trial::Check),
            (Step::Compare, Some(split), None, None) => Ok(Trial::Compare { split: split? }),
            (Step::Frame, None, Some(area @ 0..=MOST_AREA), None) => Ok(Trial::Frame { area }),
            (Step::Handle, None, Some(area @ 0..=MOST_AREA), Some(work @ 0..=MOST_WORK)) => Ok(
                Trial::Handle { area, work },
            ),
            _ => Err(Fault::WrongSizes),
        }
    }
}

#[derive(Drop)]
pub(crate) struct Case<'a> {
    pub(crate) name: &'a [u8],
    pub(crate) trial: Trial,
    pub(crate) bytes: &'a [u8],
}

impl<'a> Case<'a> {
    // The case that a line says, whose bytes go into digits.
    pub(crate) fn read(line: &'a [u8], digits: &'a mut Digits) -> Result<Self, Fault> {
        let (name, words) = split_once(line, b':').ok_or(Fault::NoCase)?;
        let mut words = Words(words);
        let step = words
            .find(|word| !matches!(letters(word), b"" | b" "))
            .ok_or(Fault::NoCase)?;
        let step = Step::try_from(step)?;
        let mut sizes = Sizes {
            split: Ok(None),
            area: Ok(None),
            work: Ok(None),
        };
        for word in words {
            read_word(word, digits, &mut sizes)?;
        }
        let trial = sizes.suit(step)?;
        let bytes = digits.bytes()?;
        Ok(Case { name, trial, bytes })
    }
}

// One word behind the step.
fn read_word(word: &[u8], digits: &mut Digits, sizes: &mut Sizes) -> Result<(), Fault> {
    if let Some(size) = word.strip_prefix(b"area=") {
        sizes.area = once(sizes.area, number(size));
    } else if let Some(size) = word.strip_prefix(b"work=") {
        sizes.work = once(sizes.work, number(size));
    } else {
        match word {
            b" " => {}
            // By its first five bytes, of which a 0 is no letter.
            b"with" | [0, b'w', b'i', b't', b'h', ..] => {
                sizes.split = once(sizes.split, Some(digits.len()));
            }
            _ => digits.word(word)?,
        }
    }
    Ok(())
}
