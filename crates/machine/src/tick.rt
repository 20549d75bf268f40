// A tick of the machine on whole words, from tables by activity.
ghost use Rattle.std.specs.Prelude.{◌≡◌, cond, ◌+◌, ◌<◌, ℕ, Bool, eqb};
ghost use Rattle.schedule.specs.Bounded.{word_of};
ghost use Rattle.machine.specs.Masks.{covered, ended_from, ended_mask, ready_from, passing, taking, walked_from};
ghost use Rattle.machine.specs.Masks.{tick_word, Stepped};

use crate::State;
use crate::inputs::Tables;
use tables::ByActivity;
use ticks::passed;

// ---- what is ready

impl State {
    // Activity b owes nothing, and its end and delay have passed by tick t.
    #[tactic(auto, unfolding(crate::specs::Masks::ended_from))]
    fn ended_by(&self, delays: &ByActivity, t: u32, b: usize) -> bool
        requires { b < 32 }
        ensures { result ≡ ended_from self.now.owed self.now.ends delays.now t b }
    {
        self.owed[b] == 0 && passed(self.ends[b], delays[b], t)
    }
}

// Every bit of x is a bit of y.
#[tactic(auto, unfolding(crate::specs::Masks::covered))]
fn covered(x: u32, y: u32) -> bool
    ensures { result ≡ covered x y }
{
    x & !y == 0
}

impl Tables {
    // How many activities there are. That these are at most 32 the type knows and the compiler does not: told so, it leaves the tests
    // of a word's bits out of the loops over them.
    pub(crate) fn count(&self) -> usize
        ensures { result ≡ self.now.activities }
    {
        self.activities.min(32)
    }

    // The word of the activities that pass a test. The tables and the checks have such a function too: its closure needs a
    // `requires`, no public call has one, and a trait with a law in its place would take an impl for each test.
    fn word<F: Fn(usize) -> bool>(&self, test: F) -> u32
        requires { (a : ℕ) → a < self.now.activities → F.pre test a }
        ensures { (p : ℕ → Bool) → ((a : ℕ) (y : Bool) → a < self.now.activities → F.post test a y → y ≡ p a)
            → result ≡ word_of self.now.activities p }
    {
        let mut word: u32 = 0;
        for a in 0..self.count() {
            word = bits::mark(word, a as u32, test(a));
        }
        word
    }

    // The activities that owe nothing, and whose end and delay have passed by tick t.
    fn ended(&self, state: &State, delays: &ByActivity, t: u32) -> u32
        ensures { result ≡ ended_mask self.now.activities state.now.owed state.now.ends delays.now t }
    {
        self.word(|b| state.ended_by(delays, t, b))
    }

    // "ready": activity a owes something, its release ≤ t, and its predecessors are among those that have ended, the temporal
    // ones with their delay.
    fn ready_at(&self, owed: &ByActivity, past: u32, over: u32, t: u32, a: usize) -> bool
        requires { a < 32 }
        ensures { result ≡ ready_from self.now owed.now past over t a }
    {
        0 < owed[a]
            && self.releases[a] <= t
            && covered(self.temporal[a], past)
            && covered(self.by_data[a], over)
    }

    // The activities that are ready.
    fn ready(&self, owed: &ByActivity, past: u32, over: u32, t: u32) -> u32
        ensures { result ≡ word_of self.now.activities (ready_from self.now owed.now past over t) }
    {
        self.word(|a| self.ready_at(owed, past, over, t, a))
    }
}

// ---- what is taken

// How far the walk along the ranking has come: the ready that are still to come, what it has taken, and the cores left.
#[derive(Clone, Copy)]
struct Walk {
    rest: u32,
    word: u32,
    room: u32,
}

impl Walk {
    // Passes an activity that is ready, the one bit of `here`: takes it if its width still fits.
    #[tactic(auto, unfolding(crate::specs::Masks::passing))]
    fn pass(self, width: u32, here: u32) -> Walk
        ensures { result ≡ passing self width here }
    {
        let rest = self.rest & !here;
        if width <= self.room {
            return Walk {
                rest,
                word: self.word | here,
                room: self.room - width,
            };
        }
        Walk {
            rest,
            word: self.word,
            room: self.room,
        }
    }

    // Passes a place of the ranking, where a mask has the activity that stands there.
    fn take(self, widths: &ByActivity, mask: u32) -> Walk
        ensures { result ≡ taking self widths.now mask }
    {
        let here = self.rest & mask;
        if here == 0 {
            return self;
        }
        let a = bits::lowest(here);
        self.pass(widths[a as usize], here)
    }
}

impl Tables {
    // "walks the ready in rank order and takes each whose width still fits" (U7 of 02): the places of the ranking one after the
    // other, past one that does not fit too, until none of the ready is still to come.
    fn select(&self, ready: u32) -> u32
        ensures { result ≡ (walked_from ready self.now self.now.activities).word }
    {
        let mut walk = Walk {
            rest: ready,
            word: 0,
            room: self.cores,
        };
        for k in 0..self.count() {
            if walk.rest == 0 {
                break;
            }
            walk = walk.take(&self.widths, self.order[k]);
        }
        walk.word
    }

    // The word of tick t. A data predecessor's delay plays no part.
    #[tactic(auto, unfolding(crate::specs::Masks::tick_word, crate::specs::Masks::ready_mask))]
    pub(crate) fn tick(&self, state: &State, t: u32) -> u32
        ensures { result ≡ tick_word self.now state.now.owed state.now.ends t }
    {
        let none = [0u32; 32];
        let past = self.ended(state, &self.delays, t);
        let over = self.ended(state, &none, t);
        self.select(self.ready(&state.owed, past, over, t))
    }
}

// ---- after a tick

// "and one that now owes nothing ends at t + 1"
fn end_after(owes: u32, end: u32, t: u16) -> u32
    ensures { result ≡ cond (eqb owes 1) (t + 1) end }
{
    if owes == 1 { t as u32 + 1 } else { end }
}

impl State {
    // "Each owes one less, and one that now owes nothing ends at t + 1": the tables after a tick with this word. A walk over set
    // bits: no index is counted.
    pub(crate) fn step(&mut self, word: u32, t: u16)
        ensures { Stepped 32 word t self.old.owed self.old.ends self.new.owed self.new.ends }
    {
        let mut rest = word;
        while rest != 0 {
            let a = bits::lowest(rest);
            let at = a as usize;
            let owes = self.owed[at];
            self.owed[at] = owes.saturating_sub(1);
            self.ends[at] = end_after(owes, self.ends[at], t);
            rest = bits::without(rest, a);
        }
    }
}
