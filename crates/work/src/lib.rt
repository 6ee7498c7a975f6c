// The work area's regions, and the functions that access to single numbers, fills and copies go through; who looks through a region
// takes it as a part of the slice. specs/Work says what each region holds.
// The area is a slice: C lends it with its count of numbers, and each public step takes any area that has at least NUMBERS.
// A region is its offset, a plain number: get and put take any offset, and with a type for regions every call would read the same.
// The area and the table's size go side by side through the steps, not as a struct with an invariant: the public steps are promised over
// the lent slice; and, tried on strike, no ghost field can hold facts such as Lists, which are data and no propositions, and a flip
// breaks them between two stores.
#![tactic(auto)]

ghost use Rattle.std.specs.Prelude.{◌≡◌, ◌+◌, ◌≤◌, ◌<◌, length};
ghost use Rattle.work.specs.Work.{at, Put, Fills, Copies};

use units::{MOST_CHANNELS, MOST_PAIRS, MOST_SIGNALS};

// Each region begins where the one before it ends. A rank has four bits; and there is one start more than there are signals.
pub const PAIR: usize = 0;

pub const LINK: usize = PAIR + MOST_PAIRS;

pub const FIRST: usize = LINK + MOST_PAIRS;

pub const START: usize = FIRST + 16;

pub const LIVE: usize = START + MOST_SIGNALS + 1;

pub const END: usize = LIVE + MOST_PAIRS;

pub const CHANNEL: usize = END + MOST_SIGNALS;

pub const SIGNAL: usize = CHANNEL + MOST_SIGNALS;

pub const SHUT_SIGNAL: usize = SIGNAL + MOST_CHANNELS;

pub const SHUT_CHANNEL: usize = SHUT_SIGNAL + MOST_SIGNALS;

pub const FROM: usize = SHUT_CHANNEL + MOST_CHANNELS;

pub const QUEUE: usize = FROM + MOST_CHANNELS;

pub const PLACE: usize = QUEUE + MOST_CHANNELS;

pub const COUNT: usize = PLACE + MOST_SIGNALS;

// No signal, or no channel. A number and no Option: the lent memory holds numbers, and 255 is the answer's own code for a signal
// without a place.
pub const NONE: usize = 255;

// So many numbers the area has at least.
pub const NUMBERS: usize = 16384;

// Number i of the region that starts at `off`.
#[tactic(auto, unfolding(crate::specs::Work::at))]
pub fn get(w: &[u16], off: usize, i: usize) -> usize
    requires { off + i < length w.now }
    ensures { (result ≡ at w.now off i) × (result < 65536) }
{
    usize::from(w[off + i])
}

// Puts x there.
pub fn put(w: &mut [u16], off: usize, i: usize, x: usize)
    requires { (off + i < length w.old) × (x < 65536) }
    ensures { Put w.old off i x w.new }
{
    w[off + i] = x as u16;
}

// Puts x into the first n numbers of the region that starts at `off`.
pub fn fill(w: &mut [u16], off: usize, n: usize, x: usize)
    requires { (off + n ≤ length w.old) × (x < 65536) }
    ensures { Fills off n x w.old w.new }
{
    w[off..off + n].fill(x as u16);
}

// Copies the first n numbers of the region that starts at `from` to the region that starts at `to`.
pub fn copy(w: &mut [u16], from: usize, to: usize, n: usize)
    requires { (from + n ≤ length w.old) × (to + n ≤ length w.old) }
    ensures { Copies from to n w.old w.new }
{
    w.copy_within(from..from + n, to);
}
