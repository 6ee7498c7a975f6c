// Striking: the cover that the failed searches of a rank leave is read off the marks. specs/Striking says what it promises. The loops go
// through indices: each turn writes the area that it reads, which an iterator would hold borrowed.
#![tactic(auto)]

ghost use Rattle.std.specs.Prelude.{◌≤◌, ◌<◌, length};
ghost use Rattle.units.specs.Limits.{most_channels};
ghost use Rattle.work.specs.Input.{Input};
ghost use Rattle.work.specs.State.{Lists, Mates};
ghost use Rattle.work.specs.Work.{NUMBERS};
ghost use Rattle.strike.specs.Inside.{ClearOf, HasList, Strikable, StruckChannels, StruckSignal, StruckTo, ThinnedList};
ghost use Rattle.strike.specs.Striking.{Struck};

use units::Size;
use work::{CHANNEL, END, FROM, LIVE, NONE, SHUT_CHANNEL, SHUT_SIGNAL, START, get, put};

// Shuts every signal that sits on an unmarked channel, and takes the marked channels out of its list; then shuts every marked
// channel and takes the marks away.
pub fn strike(w: &mut [u16], size: Size)
    requires { Input size w.old × Lists size w.old × Mates size w.old }
    ensures { Struck size w.old w.new }
{
    let clear = is_clear(w, size.channels);
    strike_signals(w, size.signals, clear);
    strike_channels(w, size.channels);
}

// Whether no channel is marked. Then no list changes, and going through them can be spared.
fn is_clear(w: &[u16], channels: usize) -> bool
    requires { (NUMBERS ≤ length w.now) × (channels ≤ most_channels) }
    ensures { ClearOf channels result w.now }
{
    w[FROM..FROM + channels]
        .iter()
        .all(|&mark| usize::from(mark) == NONE)
}

// `clear` is what is_clear found: the marks are looked through once, and not for each signal.
fn strike_signals(w: &mut [u16], signals: usize, clear: bool)
    requires { Strikable signals clear w.old }
    ensures { StruckTo signals clear w.old w.new }
{
    for s in 0..signals {
        strike_signal(w, s, clear);
    }
}

// One signal: where it sits on an unmarked channel its list is thinned, unless no channel is marked, and it is shut.
fn strike_signal(w: &mut [u16], s: usize, clear: bool)
    requires { HasList s w.old }
    ensures { StruckSignal s clear w.old w.new }
{
    let c = get(w, CHANNEL, s);
    if c != NONE && get(w, FROM, c) == NONE {
        if !clear {
            thin(w, s);
        }
        put(w, SHUT_SIGNAL, s, 1);
    }
}

// Keeps of a signal's list the channels that are not marked.
fn thin(w: &mut [u16], s: usize)
    requires { HasList s w.old }
    ensures { ThinnedList s w.old w.new }
{
    let start = get(w, START, s);
    let end = get(w, END, s);
    let mut kept = start;
    for k in start..end {
        let c = get(w, LIVE, k);
        if get(w, FROM, c) == NONE {
            put(w, LIVE, kept, c);
            kept += 1;
        }
    }
    put(w, END, s, kept);
}

// What is not none is taken for a mark. Flag and mark are stored at every channel, marked or not: with no store that hangs on a mark,
// which cannot be foretold, the compiler takes many channels at once.
fn strike_channels(w: &mut [u16], channels: usize)
    requires { (NUMBERS ≤ length w.old) × (channels ≤ most_channels) }
    ensures { StruckChannels channels w.old w.new }
{
    for c in 0..channels {
        let flag = get(w, SHUT_CHANNEL, c);
        let flag = if get(w, FROM, c) == NONE { flag } else { 1 };
        put(w, SHUT_CHANNEL, c, flag);
        put(w, FROM, c, NONE);
    }
}
