// The placer: it finds a best plan of a table that lies unpacked in the work area, rank by rank, and keeps what shows it to be
// best. specs/Placing says what it promises; the steps have crates of their own.
#![tactic(auto)]

ghost use Rattle.work.specs.Input.{Input};
ghost use Rattle.placer.specs.Placing.{PlacedFrom};

use enter::{enter, prepare};
use grow::grow;
use strike::strike;
use units::Size;

// Places the table in the area. At each rank its pairs enter, the plan grows from what it was, and what the failed searches of
// the rank cover is struck. A rank at which nothing entered changes nothing; with every signal placed the rest is done.
pub fn place(w: &mut [u16], size: Size)
    requires { Input size w.old }
    ensures { PlacedFrom size w.old w.new }
{
    prepare(w, size);
    for rank in 1..=size.ranks {
        if enter(w, size, rank) {
            if grow(w, size) {
                strike(w, size);
            } else {
                return;
            }
        }
    }
}
