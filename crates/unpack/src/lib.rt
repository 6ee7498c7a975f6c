// A payload's table is unpacked into the work area: its entries, chained by rank, and where each signal's entries start.
// specs/Unpacking says what it promises.
#![tactic(auto)]

ghost use Rattle.std.specs.Prelude.{◌≡◌, ◌*◌, ◌/◌, ◌≤◌, length};
ghost use Rattle.tables.specs.Payload.{size_in};
ghost use Rattle.tables.specs.Sound.{Sound};
ghost use Rattle.work.specs.Work.{NUMBERS, UnchangedBut};
ghost use Rattle.unpack.specs.Unpacking.{Filled, Unpacked};
ghost use Rattle.unpack.specs.Inside.{EntriesFit, Unchained, Chained, Linkable, Linked, SignalsRise, RunOf, Started};

use tables::{entry_at, two_entries};
use units::Size;
use work::{FIRST, LINK, PAIR, START, fill, get, put};

pub fn unpack(payload: &[u8], w: &mut [u16], size: Size)
    requires { Sound payload.now × (size ≡ size_in payload.now) × (NUMBERS ≤ length w.old) }
    ensures { Unpacked payload.now size w.old w.new }
{
    let pairs = usize::from(size.pairs);
    // Every rank's chain is empty: a rank has four bits, and the number of pairs, which is no entry's, ends a chain.
    fill(w, FIRST, 16, pairs);
    chain(payload, w, pairs);
    find_starts(w, size.signals, pairs);
}

// The entries, from the last to the first, two by two: two entries are five whole bytes. Its loop goes through indices, as that of
// find_starts does: each turn writes the area that it reads.
fn chain(payload: &[u8], w: &mut [u16], pairs: usize)
    requires { Unchained pairs w.old }
    ensures { Chained payload.now pairs 0 w.new × UnchangedBut (Filled pairs 0) w.new w.old }
{
    chain_odd(payload, w, pairs);
    for two in (0..pairs / 2).rev() {
        let (even, odd) = two_entries(payload, two);
        link(w, 2 * two + 1, odd);
        link(w, 2 * two, even);
    }
}

// The last entry by itself, where their number is odd.
fn chain_odd(payload: &[u8], w: &mut [u16], pairs: usize)
    requires { Unchained pairs w.old }
    ensures { Chained payload.now pairs (2 * (pairs / 2)) w.new × UnchangedBut (Filled pairs 0) w.new w.old }
{
    if pairs % 2 == 1 {
        let last = pairs - 1;
        link(w, last, entry_at(payload, last));
    }
}

// Entry e, whose 20 bits are at hand, is put before the chain of its rank; packed, since two numbers of 16 bits hold it with its link.
#[tactic(auto, using(crate::proofs::Links::linked))]
fn link(w: &mut [u16], e: usize, entry: usize)
    requires { Linkable e entry w.old }
    ensures { Linked e entry w.old w.new }
{
    let rank = entry % 16;
    let next = get(w, FIRST, rank);
    put(w, PAIR, e, entry / 16);
    put(w, LINK, e, next * 16 + rank);
    put(w, FIRST, rank, e);
}

// Each signal starts where the entries of the one before end.
fn find_starts(w: &mut [u16], signals: usize, pairs: usize)
    requires { SignalsRise signals pairs w.old }
    ensures { Started signals pairs w.old w.new }
{
    let mut e = 0;
    for s in 0..signals {
        put(w, START, s, e);
        e = pass(w, pairs, s, e);
    }
    put(w, START, signals, e);
}

// The first entry from `start` on whose signal is not s.
fn pass(w: &[u16], pairs: usize, s: usize, start: usize) -> usize
    requires { EntriesFit pairs w.now × (start ≤ pairs) }
    ensures { RunOf pairs w.now s start result }
{
    let rest = &w[PAIR + start..PAIR + pairs];
    start
        + rest
            .iter()
            .position(|&pair| usize::from(pair) / 256 != s)
            .unwrap_or(rest.len())
}
