// A plan's grid by itself, the part behind the rows: "H words of 4 bytes". Every tick is answered: a byte past the end reads
// as 0, and a word that does not fit whole is not written.
ghost use Rattle.std.specs.Prelude.{◌≡◌, ◌≤◌};
ghost use Rattle.schedule.specs.Fields.{bytes};
ghost use Rattle.schedule.specs.Plan.{tick_at, word_in, ticks_in};
ghost use Rattle.fields.specs.Put.{put};

// The last tick whose place is a number of 64 bits. A tick is compared with it first, so that its place does not overflow:
// no slice reaches further, and where a loop's bound is known, the comparison costs nothing.
const LAST: usize = 18446744073709551615 / 4;

// Where the word of a tick stands.
pub(crate) fn tick_at(t: usize) -> usize
    requires { tick_at t ≤ 18446744073709551615 }
    ensures { result ≡ tick_at t }
{
    4 * t
}

// How many ticks have a whole word.
pub fn ticks(grid: &[u8]) -> usize
    ensures { result ≡ ticks_in grid.now }
{
    grid.len() / 4
}

// The word of a tick, read.
pub fn word(grid: &[u8], t: usize) -> u32
    ensures { result ≡ word_in grid.now t }
{
    if t <= LAST {
        fields::be32(grid, tick_at(t))
    } else {
        0
    }
}

// The word of a tick, written.
pub fn put_word(grid: &mut [u8], t: usize, word: u32)
    ensures { grid.new ≡ put (tick_at t) (bytes 4 word) grid.old }
{
    if t <= LAST {
        fields::put32(grid, tick_at(t), word);
    }
}
