// Which table a payload holds, and readers of its size and of its entries. specs/Payload says where each number stands; specs/Sound
// which payloads are a table's. The proofs say that every table within the limits has exactly one payload, and how tables are made
// from others.
#![tactic(auto)]

ghost use Rattle.std.specs.Prelude.{◌≡◌, ◌+◌, ◌*◌, ◌≤◌};
ghost use Rattle.tables.specs.Payload.{size_in, entry_bits};

use units::{Entries, Size};

// Reads the head, all of its 32 bits at once: signals (8), channels (8), ranks (4), pairs (12).
pub fn size_of(payload: &[u8]) -> Size
    ensures { result ≡ size_in payload.now }
{
    let bits = fields::read(payload, 0, 32) as usize;
    Size {
        signals: bits >> 24,
        channels: (bits >> 16) % 256,
        ranks: (bits >> 12) % 16,
        pairs: Entries((bits % 4096) as u16),
    }
}

// The 20 bits of entry i as one number: the signal, the channel, the rank.
pub fn entry_at(payload: &[u8], i: usize) -> usize
    requires { i ≤ 65535 }
    ensures { result ≡ entry_bits payload.now i }
{
    fields::read(payload, 32 + 20 * i, 20) as usize
}

// The 20 bits of entry 2 · two, and those of entry 2 · two + 1. Before them stand the head and an even number of entries, so
// the two are five whole bytes.
pub fn two_entries(payload: &[u8], two: usize) -> (usize, usize)
    requires { two ≤ 32767 }
    ensures { (result.0 ≡ entry_bits payload.now (2 * two)) × (result.1 ≡ entry_bits payload.now (2 * two + 1)) }
{
    let both = fields::five_bytes(payload, 4 + 5 * two) as usize;
    (both >> 20, both % (1 << 20))
}
