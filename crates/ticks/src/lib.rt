// The paper's comparisons of ticks, made once for the checks, the run and the report, and a word that is kept from one change to
// the next.
#![tactic(auto)]

ghost use Rattle.std.specs.Prelude.{◌≡◌, ◌&&◌, cond, ◌+◌, min, leb, ltb};
ghost use Rattle.schedule.specs.Timing.{deadline, on_time};
ghost use Rattle.schedule.specs.Report.{lateness};

// "end + that predecessor's delay ≤ t", for every end and delay: no sum is made.
pub fn passed(end: u32, delay: u32, t: u32) -> bool
    ensures { result ≡ leb (end + delay) t }
{
    end <= t && delay <= t - end
}

// "start < end ≤ H"
pub fn spans(start: u32, end: u32, horizon: u32) -> bool
    ensures { result ≡ (ltb start end && leb end horizon) }
{
    start < end && end <= horizon
}

// The deadline of a thread that has a period: "release + period", in 64 bits, where the sum of any two numbers of 32 bits is
// whole.
fn deadline(release: u32, period: u32) -> u64
    ensures { result ≡ deadline release period }
{
    release as u64 + period as u64
}

// "a thread with a period" has "end ≤ release + period": period 0 is none.
pub fn on_time(release: u32, period: u32, end: u32) -> bool
    ensures { result ≡ on_time release period end }
{
    period == 0 || end as u64 <= deadline(release, period)
}

// "the deadline less its end, as a signed whole number, negative when late and 0 on the dot"; "An activity whose thread has no
// period gets −2147483648", so a number and no Option.
pub fn lateness(release: u32, period: u32, end: u32) -> i64
    ensures { result ≡ lateness release period end }
{
    if period == 0 {
        return -2147483648;
    }
    deadline(release, period) as i64 - end as i64
}

// When a predecessor that is done at a tick lets go: with its delay if it is a temporal one, at once if by data, and of no
// concern if it is none. The sum stops at the largest number.
pub fn let_go(temporal: bool, by_data: bool, done: u32, delay: u32) -> u32
    ensures { result ≡ cond temporal (min (done + delay) 4294967295) (cond by_data done 0) }
{
    if temporal {
        done.saturating_add(delay)
    } else if by_data {
        done
    } else {
        0
    }
}

// `next`, or `other` where that comes after tick t and before `next`.
pub fn sooner(next: u32, other: u32, t: u32) -> u32
    ensures { result ≡ cond (ltb t other && ltb other next) other next }
{
    if t < other && other < next {
        other
    } else {
        next
    }
}

// A word, and the tick before which it stays.
#[derive(Clone, Copy)]
pub struct Kept {
    pub word: u32,
    pub until: u32,
}

impl Kept {
    // Whether the kept word is still the word of tick t.
    pub fn lasts(self, t: u32) -> bool
        ensures { result ≡ ltb t self.until }
    {
        t < self.until
    }
}

// What is kept before any word is known: it lasts at no tick.
pub fn unknown() -> Kept
    ensures { result ≡ record { word = 0; until = 0 } }
{
    Kept { word: 0, until: 0 }
}
