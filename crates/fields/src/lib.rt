// "Multi-byte fields are big-endian and unsigned": fields of 1, 2 and 4 bytes, read from a slice and written into one.
// Every offset is answered: a byte past the end reads as 0, and a field that does not fit whole is not written.
#![tactic(auto)]

ghost use Rattle.std.specs.Prelude.{◌≡◌, ℕ, ◌+◌, ◌*◌, ◌%◌, ◌<◌, get_or};
ghost use Rattle.schedule.specs.Fields.{field, bytes};
ghost use Rattle.fields.specs.Put.{put};

// ---- reading

// What stands at a position and behind it, nothing past the end.
fn rest(s: &[u8], at: usize) -> &[u8]
    ensures { (j : ℕ) → get_or result.now j 0 ≡ get_or s.now (at + j) 0 }
{
    &s[at.min(s.len())..]
}

// Two bytes as one number.
pub fn paired(a: u8, b: u8) -> u16
    ensures { result ≡ a * 256 + b }
{
    u16::from_be_bytes([a, b])
}

// One byte more at the end of a number of at most 3 bytes.
fn shift_in(v: u32, b: u8) -> u32
    requires { v < 16777216 }
    ensures { result ≡ v * 256 + b }
{
    (v << 8) | (b as u32)
}

// Four bytes as one number. Four bytes are also a mask or a tick's word, and these are "built by shifts and masks over u32".
pub fn joined(a: u8, b: u8, c: u8, d: u8) -> u32
    ensures { result ≡ ((a * 256 + b) * 256 + c) * 256 + d }
{
    shift_in(shift_in(shift_in(a as u32, b), c), d)
}

// The byte at a position.
pub fn byte(s: &[u8], at: usize) -> u8
    ensures { result ≡ field s.now at 1 }
{
    s.get(at).copied().unwrap_or(0)
}

// The two bytes at a position as one number. Where they are not both there, they are read one by one: by way of an array that is
// filled with what is there, the checks and the edits of a plan took a quarter to three quarters more time.
pub fn be16(s: &[u8], at: usize) -> u16
    ensures { result ≡ field s.now at 2 }
{
    let rest = rest(s, at);
    match rest.first_chunk::<2>() {
        Some([a, b]) => paired(*a, *b),
        None => paired(byte(rest, 0), byte(rest, 1)),
    }
}

// The four bytes at a position as one number, likewise.
pub fn be32(s: &[u8], at: usize) -> u32
    ensures { result ≡ field s.now at 4 }
{
    let rest = rest(s, at);
    match rest.first_chunk::<4>() {
        Some([a, b, c, d]) => joined(*a, *b, *c, *d),
        None => joined(byte(rest, 0), byte(rest, 1), byte(rest, 2), byte(rest, 3)),
    }
}

// ---- writing

// A number's last byte: its lowest 8 bits.
fn last_byte(v: u32) -> u8
    ensures { result ≡ v % 256 }
{
    (v & 255) as u8
}

// The four bytes of a number, the first the most significant: by shifts and a mask, as they are put together.
fn split(v: u32) -> [u8; 4]
    ensures { result ≡ bytes 4 v }
{
    [
        last_byte(v >> 24),
        last_byte(v >> 16),
        last_byte(v >> 8),
        last_byte(v),
    ]
}

// Bytes at a position where they all fit, and nothing where they do not.
fn store(out: &mut [u8], at: usize, bytes: &[u8])
    ensures { out.new ≡ put at bytes.now out.old }
{
    if at <= out.len() && bytes.len() <= out.len() - at {
        out[at..at + bytes.len()].copy_from_slice(bytes);
    }
}

// Writes one byte at a position. Three public names for one function, by the length of the field.
pub fn put8(out: &mut [u8], at: usize, v: u8)
    ensures { out.new ≡ put at (bytes 1 v) out.old }
{
    store(out, at, &[v]);
}

// Writes a number as two bytes at a position.
pub fn put16(out: &mut [u8], at: usize, v: u16)
    ensures { out.new ≡ put at (bytes 2 v) out.old }
{
    store(out, at, &u16::to_be_bytes(v));
}

// Writes a number as four bytes at a position.
pub fn put32(out: &mut [u8], at: usize, v: u32)
    ensures { out.new ≡ put at (bytes 4 v) out.old }
{
    store(out, at, &split(v));
}
