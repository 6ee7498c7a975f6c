// A whole command, from the client's block to the answer's block. specs/Handling says what it comes to for every input.
#![tactic(auto)]

mod answering;

ghost use Rattle.command.specs.Handling.{Handles};

use answering::write_answer;
use framing::framed_length;
use opening::open;
use table::check;
use units::{Bytes, Refusal};
use work::NUMBERS;

// Handles a whole command block (rows 1 to 11), and says how many bytes its answer's block has. Nothing is written before all rows
// are decided.
#[tactic(auto, using(crate::proofs::Deciding::findings), unfolding(crate::specs::Handling::verdict_of, crate::specs::Handling::after_opening, crate::specs::Handling::after_checking, crate::specs::Handling::room_for, crate::specs::Handling::reply_length))]
pub fn handle(block: &[u8], area: &mut [u8], work: &mut [u16]) -> Result<Bytes, Refusal>
    ensures { Handles block.now area.old work.old result area.new work.new }
{
    let part = open(block)?;
    let payload = part.of(block);
    let size = check(payload)?;
    let whole = framed_length(answer::length(size.signals, size.ranks));
    if area.len() < whole.0 {
        return Err(Refusal::NoRoom);
    }
    let work = work.first_chunk_mut::<NUMBERS>().ok_or(Refusal::NoWork)?;
    write_answer(payload, size, area, work);
    Ok(whole)
}
