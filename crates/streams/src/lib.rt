// The bytes that the programs read, split into two records: "With 4 bytes or more and a first length L no greater than
// what was read, the first record, L bytes, is handed back as a part of the caller's bytes and the rest is the second.
// Otherwise everything is the first and the second is empty". Nothing is copied.
#![tactic(auto)]

ghost use Rattle.std.specs.Prelude.{◌≡◌, length, take};
ghost use Rattle.schedule.specs.Lent.{LiesAt};
ghost use Rattle.schedule.specs.Streams.{first_record, second_record};
ghost use Rattle.streams.specs.Cut;

// The first n bytes, or all where there are fewer.
pub fn front(s: &[u8], n: usize) -> &[u8]
    ensures { (result.now ≡ take n s.now) × LiesAt s.entry 0 result }
{
    &s[..n.min(s.len())]
}

// Where the first record ends. L may be 0 to 3.
fn cut(input: &[u8]) -> usize
    ensures { result ≡ Cut.cut input.now }
{
    let n = input.len();
    if n < 4 {
        return n;
    }
    let length = fields::be32(input, 0) as usize;
    if n < length {
        return n;
    }
    length
}

// "the first record, L bytes", or everything.
pub fn first_record(input: &[u8]) -> &[u8]
    ensures { (result.now ≡ first_record input.now) × LiesAt input.entry 0 result }
{
    &input[..cut(input)]
}

// "the rest is the second", or nothing.
pub fn second_record(input: &[u8]) -> &[u8]
    ensures { (result.now ≡ second_record input.now)
        × LiesAt input.entry (length (first_record input.now)) result }
{
    &input[cut(input)..]
}
