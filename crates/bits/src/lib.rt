// A u32 word as a set of activity numbers: "Bit b of a mask, worth 2 to the power b". Words are tested and built by
// shifts and masks.
#![tactic(auto)]

ghost use Rattle.std.specs.Prelude.{◌≡◌, cond, ltb};
ghost use Rattle.schedule.specs.Bounded.{bit, word_of, ones, lowest};
ghost use Rattle.schedule.specs.Bounded.{with_bit, without_bit};

// "Bit a of a tick's word says that activity a is active": bit b is set. No bit from 32 on is.
pub fn has(word: u32, b: u32) -> bool
    ensures { result ≡ bit word b }
{
    b < 32 && (word >> b) & 1 == 1
}

// The word with bit b set; unchanged for b from 32 on.
pub fn with(word: u32, b: u32) -> u32
    ensures { result ≡ with_bit word b }
{
    if b < 32 { word | (1 << b) } else { word }
}

// The word with bit b cleared; unchanged for b from 32 on.
pub fn without(word: u32, b: u32) -> u32
    ensures { result ≡ without_bit word b }
{
    if b < 32 { word & !(1 << b) } else { word }
}

// "at most c ones in the word": how many bits are set.
pub fn ones(word: u32) -> u32
    ensures { result ≡ ones word }
{
    word.count_ones()
}

// The number of the lowest bit that is set, 32 where none is: the contract has the number 32, which no bit has, and walks over
// bits ask for none of an empty word. Such a walk takes the lowest bit away until the word is 0, so it counts no index.
pub fn lowest(word: u32) -> u32
    ensures { result ≡ lowest 32 (bit word) }
{
    word.trailing_zeros()
}

// The word with the n lowest bits set, all 32 for n from 32 on.
pub fn below(n: u32) -> u32
    ensures { result ≡ word_of 32 (λ b. ltb b n) }
{
    if n < 32 { (1 << n) - 1 } else { u32::MAX }
}

// The word with bit b set where the answer is yes.
pub fn mark(word: u32, b: u32, yes: bool) -> u32
    ensures { result ≡ cond yes (with_bit word b) word }
{
    if yes { with(word, b) } else { word }
}
