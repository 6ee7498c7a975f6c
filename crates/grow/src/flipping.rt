// Flipping the path that a search found.
ghost use Rattle.grow.specs.Inside.{FlipReady, FlipsFor, ClearReady, Cleared};

use work::{CHANNEL, FROM, NONE, QUEUE, SIGNAL, get, put};

// Puts channel c's signal on it, the one that the search reached it from, and so on with the channel that this signal leaves,
// back to the root. `steps` is more than the position of c in the queue: it is the proof's measure, and the code reads it only to hand
// it on.
pub(crate) fn flip(w: &mut [u16], root: usize, c: usize, steps: usize)
    requires { FlipReady root c steps w.old }
    ensures { FlipsFor root c steps w.old w.new }
{
    let s = get(w, FROM, c);
    let before = get(w, CHANNEL, s);
    put(w, CHANNEL, s, c);
    put(w, SIGNAL, c, s);
    if s != root {
        flip(w, root, before, steps - 1);
    }
}

// Takes the marks of the first n channels of the queue away.
pub(crate) fn clear(w: &mut [u16], n: usize)
    requires { ClearReady n w.old }
    ensures { Cleared n w.old w.new }
{
    for j in 0..n {
        let c = get(w, QUEUE, j);
        put(w, FROM, c, NONE);
    }
}
