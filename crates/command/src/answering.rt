// Answering an accepted table: it is placed in the work area, its answer is written, and the work area is zeroed.
ghost use Rattle.std.specs.Prelude.{◌≡◌, ◌≤◌, length, replicate};
ghost use Rattle.tables.specs.Payload.{size_in};
ghost use Rattle.tables.specs.Sound.{Sound};
ghost use Rattle.work.specs.Work.{NUMBERS};
ghost use Rattle.command.specs.Handling.{reply_length, Written};
ghost use Rattle.command.specs.Inside.{Solved};

use framing::put_header;
use placer::place;
use tally::tally;
use units::Size;
use unpack::unpack;
use work::{COUNT, PLACE};

// Places the table, and writes the answer's block at the area's start: the header, which counts bytes, and the payload, whose
// counts and places are parts of the work area, into the part of the area from the header's end on. The work area is zero
// afterwards. It is a slice, and not an array of its length: Rattle does not cover parts of an array behind a reference that is
// lent.
#[tactic(auto, using(crate::proofs::Solving::header_inside))]
pub(crate) fn write_answer(payload: &[u8], size: Size, area: &mut [u8], w: &mut [u16])
    requires { Sound payload.now × (size ≡ size_in payload.now) × (length w.old ≡ NUMBERS) × (reply_length size ≤ length area.old) }
    ensures { Written payload.now area.old area.new × (w.new ≡ replicate NUMBERS 0) }
{
    solve(payload, size, w);
    let header = put_header(area, answer::length(size.signals, size.ranks));
    answer::write(
        &mut area[header.0..],
        &w[COUNT..COUNT + size.ranks],
        &w[PLACE..PLACE + size.signals],
    );
    w.fill(0);
}

fn solve(payload: &[u8], size: Size, w: &mut [u16])
    requires { Sound payload.now × (size ≡ size_in payload.now) × (length w.old ≡ NUMBERS) }
    ensures { Solved payload.now size w.new }
{
    unpack(payload, w, size);
    place(w, size);
    tally(w, size);
}
