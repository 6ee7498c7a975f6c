// Fields of up to 32 bits at any bit offset of a byte string, the most significant bit first: `read` gives one and `write`
// puts one. Both go by whole bytes and never by single bits. They are internal to the box and no public steps, so where a
// public step would refuse they have a `requires`. specs/Fields says what each gives. A cast with `as` loses no bits here, by
// proof; `try_from` would give a Result that cannot fail.
#![tactic(auto)]

ghost use Rattle.std.specs.Prelude.{◌≡◌, ◌+◌, ◌*◌, ◌%◌, ◌^◌, ◌≤◌, ◌<◌, min, length, get_or};
ghost use Rattle.fields.specs.Fields.{field_at, Puts, byte_with};

// The byte at i; past the end 0.
fn byte_at(s: &[u8], i: usize) -> u8
    ensures { result ≡ get_or s.now i 0 }
{
    s.get(i).copied().unwrap_or(0)
}

// Five bytes as one number, the first the most significant.
fn joined(a: u8, b: u8, c: u8, d: u8, e: u8) -> u64
    ensures { result ≡ (((a * 256 + b) * 256 + c) * 256 + d) * 256 + e }
{
    u64::from_be_bytes([0, 0, 0, a, b, c, d, e])
}

// The five bytes from i on as one number. All but the last few places of a string have five bytes left, and are read
// without a test of each. A slice pattern over `get(i..i + 5)` is as fast and no plainer: it gives five references to copy.
#[tactic(auto, using(crate::proofs::Reading::five_joined))]
pub fn five_bytes(s: &[u8], i: usize) -> u64
    requires { i < 2 ^ 62 }
    ensures { result ≡ field_at s.now (8 * i) 40 }
{
    if i + 5 <= s.len() {
        return joined(s[i], s[i + 1], s[i + 2], s[i + 3], s[i + 4]);
    }
    joined(
        byte_at(s, i),
        byte_at(s, i + 1),
        byte_at(s, i + 2),
        byte_at(s, i + 3),
        byte_at(s, i + 4),
    )
}

// The n low bits of x.
#[tactic(auto, using(crate::proofs::Reading::masked))]
fn low_bits(x: u64, n: usize) -> u64
    requires { n < 64 }
    ensures { result ≡ x % 2 ^ n }
{
    x & ((1 << n) - 1)
}

// The field of `width` bits from bit `at` on: five bytes from the one that `at` is in hold it, wherever it starts in that
// byte, and what stands to its right is shifted out.
pub fn read(s: &[u8], at: usize, width: usize) -> u32
    requires { width ≤ 32 }
    ensures { result ≡ field_at s.now at width }
{
    let right = 40 - at % 8 - width;
    low_bits(five_bytes(s, at / 8) >> right, width) as u32
}

// A byte with the n bits that have `right` bits to their right replaced.
fn put_in_byte(byte: u8, n: usize, right: usize, bits: u64) -> u8
    requires { (n + right ≤ 8) × (bits < 2 ^ n) }
    ensures { result ≡ byte_with byte n right bits }
{
    let old = u64::from(byte);
    let with_bits = (old >> (n + right) << n) + bits;
    ((with_bits << right) + low_bits(old, right)) as u8
}

// Writes the `width` low bits of the value from bit `at` on. Each turn fills what the field covers of one byte: `room` bits
// are there from the next bit to be written to the byte's end, and `left` bits are still to be written. It goes by index: of a
// walk over the elements of a lent part of `out` a proof does not know what was written.
pub fn write(out: &mut [u8], at: usize, width: usize, value: u32)
    requires { (width ≤ 32) × (value < 2 ^ width) × (at + width ≤ 8 * length out.old) }
    ensures { Puts out.old at width value out.new }
{
    let first = at / 8;
    let covered = (at % 8 + width).div_ceil(8);
    let mut room = 8 - at % 8;
    let mut left = width;
    for i in first..first + covered {
        let n = room.min(left);
        left -= n;
        let bits = low_bits(u64::from(value) >> left, n);
        out[i] = put_in_byte(out[i], n, room - n, bits);
        room = 8;
    }
}
