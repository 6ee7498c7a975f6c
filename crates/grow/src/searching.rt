// The search for a free channel.
ghost use Rattle.grow.specs.Inside.{SearchReady, SearchesFor};

use work::{END, FROM, LIVE, NONE, QUEUE, SIGNAL, START, get, put};

// Looks from a free signal through live pairs for a free channel, and stops at the first one found: the answer is how many channels
// were reached, the free one last, or nothing. Channels reached by an earlier search of this rank are passed by: they lead to none.
#[tactic(auto, using(crate::proofs::Reaching::read_bounds, crate::proofs::Reaching::mark_bounds, crate::proofs::Reaching::new_bounds))]
pub(crate) fn search(w: &mut [u16], root: usize) -> Option<usize>
    requires { SearchReady root w.old }
    ensures { SearchesFor root w.old w.new result }
{
    let mut signal = root;
    let mut head = 0;
    let mut tail = 0;
    // The channels reached are a queue that grows while it is read: there is no range to go through. One break leaves both loops, since
    // the path's end is found within the inner one.
    'reached: loop {
        let start = get(w, START, signal);
        let end = get(w, END, signal);
        for k in start..end {
            let c = get(w, LIVE, k);
            if get(w, FROM, c) == NONE {
                put(w, FROM, c, signal);
                put(w, QUEUE, tail, c);
                tail += 1;
                if get(w, SIGNAL, c) == NONE {
                    break 'reached;
                }
            }
        }
        if head == tail {
            return None;
        }
        let next = get(w, QUEUE, head);
        signal = get(w, SIGNAL, next);
        head += 1;
    }
    Some(tail)
}
