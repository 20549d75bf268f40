// Several rounds on one page (02): which round and row a number among all belongs to, and what moving on to round k does to a
// number, a release and a mask. Each result keeps the size of its field: on a page that meets its form rules nothing is cut off.
#![tactic(auto)]

ghost use Rattle.std.specs.Prelude.{◌≡◌, ◌+◌, ◌*◌, ◌/◌, ◌%◌, ◌≤◌};
ghost use Rattle.schedule.specs.Rounds.{in_all, number_in, moved_release, moved_mask, with_loop};

// The loop byte of an activity that has no loop. A byte and no Option: the record has it (rule 53), and the public `with_loop`
// takes it.
pub const NO_LOOP: u8 = 255;

// A product of numbers of a byte each.
pub fn times(x: u8, y: u8) -> u32
    ensures value { result ≡ x * y }
    ensures most { result ≤ 65025 }
{
    (x as u32) * (y as u32)
}

// How many threads, or activities, all rounds have together.
pub fn in_all(rounds: u8, n: u8) -> u8
    ensures { result ≡ in_all rounds n }
{
    rounds.wrapping_mul(n)
}

// The round of a number among all, where each round has n; 0 where it has none.
pub fn round(number: u8, n: u8) -> u8
    ensures { result ≡ number / n }
{
    number.checked_div(n).unwrap_or(0)
}

// The place in its round of a number among all, where each round has n.
pub fn place(number: u8, n: u8) -> u8
    ensures { result ≡ number % n }
{
    number.checked_rem(n).unwrap_or(number)
}

// "thread j of round k is thread k times n + j"
pub fn number(k: u8, n: u8, j: u8) -> u8
    ensures { result ≡ number_in k n j }
{
    k.wrapping_mul(n).wrapping_add(j)
}

// A release "moved on by k times the period (by 0 without one)", however far that is.
pub fn moved(k: u8, period: u16, release: u16) -> u32
    ensures { result ≡ release + k * period }
{
    (release as u32) + (k as u32) * (period as u32)
}

// A release moved on to round k, as a field of 2 bytes.
pub fn release(k: u8, period: u16, release: u16) -> u16
    ensures { result ≡ moved_release k period release }
{
    (moved(k, period, release) % 65536) as u16
}

// "Masks move likewise": bit b becomes bit k times m + b.
pub fn mask(k: u8, m: u8, mask: u32) -> u32
    ensures { result ≡ moved_mask k m mask }
{
    mask.checked_shl(times(k, m)).unwrap_or(0)
}

// "With loop byte q, activity q of round k is a temporal predecessor of a in round k + 1": the mask of a in round k, with the
// bit of q in the round before.
pub fn with_loop(k: u8, m: u8, q: u8, mask: u32) -> u32
    ensures { result ≡ with_loop k m q mask }
{
    if k == 0 || q == NO_LOOP {
        mask
    } else {
        bits::with(mask, times(k - 1, m) + q as u32)
    }
}
