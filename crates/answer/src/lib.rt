// The answer's payload, written from counts and places. specs/Answer says which bytes a table and its plan make, specs/Writing
// which these lists make. A place has 12 bits, so two places are three whole bytes, and every byte is written once. A cast with
// `as` loses no bits here, by proof; `try_from` would give a Result that cannot fail.
#![tactic(auto)]

ghost use Rattle.std.specs.Prelude.{◌≡◌, [], ◌∷◌, ◌++◌, ◌+◌, ◌*◌, ◌/◌, ◌≤◌, ◌<◌, length, drop, set, get_or};
ghost use Rattle.fields.specs.Fields.{packed};
ghost use Rattle.plans.specs.Order.{filled};
ghost use Rattle.units.specs.Limits.{most_signals, most_ranks};
ghost use Rattle.answer.specs.Answer.{field, head_fields, row, answer_length};
ghost use Rattle.answer.specs.Writing.{AllBelow, Answerable, fields_of, Spliced};

use units::Bytes;

// How many bytes the payload has.
pub fn length(signals: usize, ranks: usize) -> Bytes
    requires { (signals ≤ most_signals) × (ranks ≤ most_ranks) }
    ensures { result.0 ≡ answer_length signals ranks }
{
    Bytes(2 + ranks + (3 * signals).div_ceil(2))
}

// Writes the payload of these counts and places at the start of `out`, and nothing after it. A place is 16 times the channel plus
// the rank.
pub fn write(out: &mut [u8], counts: &[u16], places: &[u16])
    requires { Answerable counts.now places.now × (answer_length (length places.now) (length counts.now) ≤ length out.old) }
    ensures { out.new ≡ packed (fields_of counts.now places.now) ++ drop (answer_length (length places.now) (length counts.now)) out.old }
{
    write_head(out, places.len(), counts.len());
    write_counts(out, counts);
    write_places(out, 2 + counts.len(), places);
}

fn write_head(out: &mut [u8], signals: usize, ranks: usize)
    requires { (signals ≤ most_signals) × (ranks ≤ most_ranks) × (2 ≤ length out.old) }
    ensures { Spliced 0 (packed (head_fields signals ranks)) out.old out.new }
{
    out[0] = signals as u8;
    out[1] = (16 * ranks) as u8;
}

// By index, since `out` is written from byte 2 on: of a walk over the elements of a lent part a proof does not know what was written.
fn write_counts(out: &mut [u8], counts: &[u16])
    requires { AllBelow 256 counts.now × (2 + length counts.now ≤ length out.old) }
    ensures { Spliced 2 (packed (row 8 (length counts.now) (filled counts.now))) out.old out.new }
{
    for (i, &count) in counts.iter().enumerate() {
        out[2 + i] = count as u8;
    }
}

// The places from byte `start` on, two by two, and the last by itself where their number is odd.
fn write_places(out: &mut [u8], start: usize, places: &[u16])
    requires { AllBelow 4096 places.now × (start + (3 * length places.now + 1) / 2 ≤ length out.old) }
    ensures { Spliced start (packed (row 12 (length places.now) (filled places.now))) out.old out.new }
{
    let (twos, last) = places.as_chunks::<2>();
    for (two, &[p, q]) in twos.iter().enumerate() {
        put_two(out, start + 3 * two, p, q);
    }
    if let &[p] = last {
        put_last(out, start + 3 * twos.len(), p);
    }
}

// Two places from byte i on.
fn put_two(out: &mut [u8], i: usize, p: u16, q: u16)
    requires { (i + 3 ≤ length out.old) × (p < 4096) × (q < 4096) }
    ensures { Spliced i (packed (field 12 p ∷ field 12 q ∷ [])) out.old out.new }
{
    out[i] = (p / 16) as u8;
    out[i + 1] = (p % 16 * 16 + q / 256) as u8;
    out[i + 2] = (q % 256) as u8;
}

// One place from byte i on, and four zero bits. Only its first byte is as in `put_two`, so each writes its own bytes.
fn put_last(out: &mut [u8], i: usize, p: u16)
    requires { (i + 2 ≤ length out.old) × (p < 4096) }
    ensures { Spliced i (packed (field 12 p ∷ [])) out.old out.new }
{
    out[i] = (p / 16) as u8;
    out[i + 1] = (p % 16 * 16) as u8;
}
