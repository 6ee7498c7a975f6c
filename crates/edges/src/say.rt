// How what was seen is said: what a step answers, bytes in hexadecimal, and how many are as they should be.
use graupenzelt::OpenReply;
use std::fmt;
use units::Status;

// A number in document 01's table and its place.
#[derive(Clone, Copy)]
pub(crate) struct Outcome(pub(crate) Status);

impl fmt::Display for Outcome {
    fn fmt<W: fmt::Write>(&self, f: &mut fmt::Formatter<W>) -> fmt::Result {
        write!(f, "number {} place {}", self.0.number, self.0.place)
    }
}

// What opening answers.
#[derive(Clone, Copy)]
pub(crate) struct Opened(pub(crate) OpenReply);

impl fmt::Display for Opened {
    fn fmt<W: fmt::Write>(&self, f: &mut fmt::Formatter<W>) -> fmt::Result {
        let outcome = Outcome(self.0.status);
        write!(
            f,
            "{outcome} start {} length {}",
            self.0.start, self.0.length
        )
    }
}

#[derive(Clone, Copy)]
pub(crate) struct Hexadecimal<'a>(pub(crate) &'a [u8]);

impl fmt::Display for Hexadecimal<'_> {
    fn fmt<W: fmt::Write>(&self, f: &mut fmt::Formatter<W>) -> fmt::Result {
        for b in self.0 {
            write!(f, "{b:02x}")?;
        }
        Ok(())
    }
}

// So many of so many.
#[derive(Clone, Copy)]
pub(crate) struct Share {
    right: usize,
    all: usize,
}

// Both fold: in a fold the compiler takes many elements at once, behind `filter` one by one. No slice is so long that the number wraps.
impl Share {
    // How many of s are x.
    pub(crate) fn of<T: PartialEq + Copy>(s: &[T], x: T) -> Self {
        Share {
            right: s
                .iter()
                .fold(0, |n: usize, &y| n.wrapping_add(usize::from(y == x))),
            all: s.len(),
        }
    }

    // How many bytes of a stand in b at the same index.
    pub(crate) fn same(a: &[u8], b: &[u8]) -> Self {
        Share {
            right: a
                .iter()
                .zip(b)
                .fold(0, |n: usize, (x, y)| n.wrapping_add(usize::from(x == y))),
            all: a.len(),
        }
    }
}

impl fmt::Display for Share {
    fn fmt<W: fmt::Write>(&self, f: &mut fmt::Formatter<W>) -> fmt::Result {
        write!(f, "{} of {}", self.right, self.all)
    }
}
