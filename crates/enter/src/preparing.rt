// The work area is made ready: empty lists, nobody placed, nothing shut, no marks.
ghost use Rattle.work.specs.Input.{Input};
ghost use Rattle.enter.specs.Entering.{Prepared};

use units::Size;
use work::{CHANNEL, END, FROM, NONE, SHUT_CHANNEL, SHUT_SIGNAL, SIGNAL, START, copy, fill};

pub fn prepare(w: &mut [u16], size: Size)
    requires { Input size w.old }
    ensures { Prepared size w.old w.new }
{
    // Each list ends where it starts.
    copy(w, START, END, size.signals);
    fill(w, CHANNEL, size.signals, NONE);
    fill(w, SIGNAL, size.channels, NONE);
    fill(w, SHUT_SIGNAL, size.signals, 0);
    fill(w, SHUT_CHANNEL, size.channels, 0);
    fill(w, FROM, size.channels, NONE);
}
