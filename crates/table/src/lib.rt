// Checking a bare payload: whether it is a table's, and which refusal it gets if not (rows 4 to 9). specs/Checking says what checking
// answers for every byte string.
#![tactic(auto)]

ghost use Rattle.std.specs.Prelude.{◌≡◌, ◌≤◌, Ok};
ghost use Rattle.std.specs.Result.{result_and};
ghost use Rattle.units.specs.Limits.{most_ranks};
ghost use Rattle.tables.specs.Payload.{pairs_in, size_in};
ghost use Rattle.table.specs.Checking.{judged, checked_of};
ghost use Rattle.table.specs.Judging.{judged_bits};

use tables::{entry_at, size_of, two_entries};
use units::{Bytes, MOST_CHANNELS, MOST_PAIRS, MOST_SIGNALS, Refusal, Size};

// Judges entry i of a table of this size by its 20 bits (rows 8 and 9). All but its rank is its key, 256 times the signal and the
// channel, so entries ascend where their keys do; `floor` is the least key that may stand here. Rank 0 comes round to 15,
// which is never below `ranks`.
fn judge(size: Size, floor: usize, i: usize, entry: usize) -> Result<(), Refusal>
    requires { size.ranks ≤ most_ranks }
    ensures { result_and result (Ok size) ≡ judged_bits size floor i entry }
{
    let key = entry / 16;
    let rank = entry % 16;
    if size.signals <= key / 256 || size.channels <= key % 256 || size.ranks <= (rank + 15) % 16 {
        return Err(Refusal::NotInTable(i));
    }
    if key < floor {
        return Err(Refusal::NotAbove(i));
    }
    Ok(())
}

// Judges the entries in turn. Two of them are five whole bytes, so they are read two by two; by index, since where they stand is
// said in `tables` alone. Unpacking takes them from the last to the first, and has a loop of its own.
#[tactic(auto, using(tables::proofs::Parts::few_ranks_in))]
fn check_entries(payload: &[u8], size: Size) -> Result<(), Refusal>
    requires { size ≡ size_in payload.now }
    ensures { result_and result (Ok size) ≡ judged payload.now (pairs_in payload.now) }
{
    let pairs = usize::from(size.pairs);
    let mut floor = 0;
    for two in 0..pairs / 2 {
        let (even, odd) = two_entries(payload, two);
        judge(size, floor, 2 * two, even)?;
        judge(size, even / 16 + 1, 2 * two + 1, odd)?;
        floor = odd / 16 + 1;
    }
    if pairs % 2 == 1 {
        judge(size, floor, pairs - 1, entry_at(payload, pairs - 1))?;
    }
    Ok(())
}

// Checks a bare payload (rows 4 to 9): how large its table is, or which refusal it gets.
pub fn check(payload: &[u8]) -> Result<Size, Refusal>
    ensures { result ≡ checked_of payload.now }
{
    if payload.len() < 4 {
        return Err(Refusal::Short);
    }
    let size = size_of(payload);
    let pairs = usize::from(size.pairs);
    if MOST_SIGNALS < size.signals || MOST_CHANNELS < size.channels || MOST_PAIRS < pairs {
        return Err(Refusal::TooLarge);
    }
    if payload.len() != 4 + Bytes::from(size.pairs).0 {
        return Err(Refusal::WrongLength);
    }
    let end = 32 + 20 * pairs;
    if fields::read(payload, end, 8 * payload.len() - end) != 0 {
        return Err(Refusal::DirtyFill);
    }
    check_entries(payload, size)?;
    Ok(size)
}
