// The tally of a finished plan: the place of each signal, and how many are placed at each rank. specs/Tallying says what it
// promises. The loop goes through indices: each turn writes the area that it reads, which an iterator would hold borrowed.
#![tactic(auto)]

ghost use Rattle.work.specs.Input.{Input};
ghost use Rattle.work.specs.State.{Mates};
ghost use Rattle.tally.specs.Inside.{Findable, RankFound, SignalTallied, Tallyable};
ghost use Rattle.tally.specs.Tallying.{Placeable, Tallied};

use units::Size;
use work::{CHANNEL, COUNT, LINK, NONE, PAIR, PLACE, START, fill, get, put};

// Records the place of each signal and the plan's counts.
pub fn tally(w: &mut [u16], size: Size)
    requires { Input size w.old × Mates size w.old × Placeable size w.old }
    ensures { Tallied size w.old w.new }
{
    fill(w, COUNT, size.ranks, 0);
    for s in 0..size.signals {
        tally_signal(w, s);
    }
}

// One signal: its place is recorded, and where it sits on a channel their pair's rank is counted.
fn tally_signal(w: &mut [u16], s: usize)
    requires { Tallyable s w.old }
    ensures { SignalTallied s w.old w.new }
{
    let c = get(w, CHANNEL, s);
    if c == NONE {
        put(w, PLACE, s, 16 * NONE);
    } else {
        let r = rank_of(w, s, c);
        put(w, PLACE, s, 16 * c + r);
        let n = get(w, COUNT, r - 1);
        put(w, COUNT, r - 1, n + 1);
    }
}

// The rank of a listed pair: its entry stands among those of its signal. It is there, so the loop tests for no end; `position` over
// a slice, which does at each entry, was slower.
#[tactic(auto, using(crate::proofs::Finding::ahead_bounds))]
fn rank_of(w: &[u16], s: usize, c: usize) -> usize
    requires { Findable w.now s c }
    ensures { RankFound w.now s c result }
{
    let pair = 256 * s + c;
    let mut e = get(w, START, s);
    while get(w, PAIR, e) != pair {
        e += 1;
    }
    get(w, LINK, e) % 16
}
