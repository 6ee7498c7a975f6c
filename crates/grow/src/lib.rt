// The plan grows: every free signal in turn is the root of a search (searching), and a path that is found is flipped (flipping).
// specs/Growing says what comes of it. The loops go through indices: each turn writes the area that it reads, which an iterator would
// hold borrowed.
#![tactic(auto)]

mod flipping;
mod searching;

ghost use Rattle.std.specs.Prelude.{◌≡◌, false};
ghost use Rattle.work.specs.Input.{Input};
ghost use Rattle.work.specs.State.{Lists, Mates, Along, Sealed};
ghost use Rattle.grow.specs.Growing.{Grown, Everyone};
ghost use Rattle.grow.specs.Inside.{RootReady, GrowsFor};

use flipping::{clear, flip};
use searching::search;
use units::Size;
use work::{CHANNEL, NONE, QUEUE, get};

// One root: where the search finds a free channel the path to it is flipped, and its marks go; where not they stay. Says
// whether the root is placed.
fn grow_from(w: &mut [u16], root: usize) -> bool
    requires { RootReady root w.old }
    ensures { GrowsFor root w.old w.new result }
{
    let Some(reached) = search(w, root) else {
        return false;
    };
    let c = get(w, QUEUE, reached - 1);
    flip(w, root, c, reached);
    clear(w, reached);
    true
}

// All roots. Afterwards nothing more can be reached from a free signal. Says whether any signal is left without a channel.
pub fn grow(w: &mut [u16], size: Size) -> bool
    requires { Input size w.old × Lists size w.old × Mates size w.old × Along size w.old × Sealed size 0 w.old }
    ensures { Grown size size.signals w.old w.new × (result ≡ false → Everyone size size.signals w.new) }
{
    let mut unplaced = false;
    for root in 0..size.signals {
        if get(w, CHANNEL, root) == NONE && !grow_from(w, root) {
            unplaced = true;
        }
    }
    unplaced
}
