// A rank's pairs become live: they enter the lists of live channels. Before the first rank the area is made ready (preparing).
// specs/Entering says what both promise.
#![tactic(auto)]

mod preparing;

ghost use Rattle.std.specs.Prelude.{◌≡◌, false, ◌≤◌, ◌<◌, length};
ghost use Rattle.units.specs.Limits.{most_signals, most_pairs};
ghost use Rattle.work.specs.Work.{at, END, signal_at, channel_at, NUMBERS};
ghost use Rattle.work.specs.Input.{Input};
ghost use Rattle.work.specs.State.{Lists};
ghost use Rattle.enter.specs.Entering.{Room, Entered, Quiet};
ghost use Rattle.enter.specs.Inside.{EnteredPair};

pub use preparing::prepare;
use units::Size;
use work::{END, FIRST, LINK, LIVE, PAIR, SHUT_CHANNEL, SHUT_SIGNAL, get, put};

// Each pair of the rank joins its signal's list, unless an end of it is shut. Says whether any did.
pub fn enter(w: &mut [u16], size: Size, rank: usize) -> bool
    requires { Input size w.old × Lists size w.old × Room size rank w.old × (1 ≤ rank) × (rank ≤ size.ranks) }
    ensures { Entered size rank w.old w.new × (result ≡ false → Quiet size w.old w.new) }
{
    let pairs = usize::from(size.pairs);
    let mut any = false;
    // No index is counted: each entry names the next one of its rank, in the area that the turn writes.
    let mut e = get(w, FIRST, rank);
    while e < pairs {
        any |= enter_pair(w, e);
        e = get(w, LINK, e) / 16;
    }
    any
}

// A pair joins its signal's list, unless an end of it is shut; one test of both flags, since neither can be foretold. Says
// whether it did.
fn enter_pair(w: &mut [u16], e: usize) -> bool
    requires { (NUMBERS ≤ length w.old) × (e < most_pairs) × (signal_at w.old e < most_signals) × (at w.old END (signal_at w.old e) < most_pairs) }
    ensures { EnteredPair result (signal_at w.old e) (channel_at w.old e) w.old w.new }
{
    let pair = get(w, PAIR, e);
    let s = pair / 256;
    let c = pair % 256;
    let shut = get(w, SHUT_SIGNAL, s) + get(w, SHUT_CHANNEL, c);
    if shut == 0 {
        let end = get(w, END, s);
        put(w, LIVE, end, c);
        put(w, END, s, end + 1);
        return true;
    }
    false
}
