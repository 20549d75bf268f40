// Ticks in a row with one word. What is ready changes only where a release, an end, or an end and its delay pass, and where
// an activity ends; so a word is kept from one such tick to the next.
ghost use Rattle.std.specs.Prelude.{◌≡◌, ◌≤◌};
ghost use Rattle.machine.specs.Masks.{tick_word};
ghost use Rattle.machine.specs.Stretches.{Unchanged, Busy, Lasts};

use crate::State;
use crate::inputs::Tables;
use tables::ByActivity;
use ticks::{Kept, sooner};

impl State {
    // The tick before which all activities of a word still owe something, or `change` if that is sooner. A walk over set bits.
    fn next_end(&self, word: u32, t: u32, change: u32) -> u32
        ensures { (result ≤ change) × Busy word self.now.owed t result }
    {
        let mut next = change;
        let mut rest = word;
        while rest != 0 {
            let a = bits::lowest(rest);
            next = next.min(t.saturating_add(self.owed[a as usize]));
            rest = bits::without(rest, a);
        }
        next
    }
}

impl Tables {
    // The next tick after t at which a release, an end, or an end and its delay pass.
    fn next_change(&self, ends: &ByActivity, t: u16) -> u32
        ensures { Unchanged self.now.activities self.now ends.now t result }
    {
        let now = t as u32;
        let mut next = u32::MAX;
        for a in 0..self.count() {
            let end = ends[a];
            next = sooner(next, self.releases[a], now);
            next = sooner(next, end, now);
            next = sooner(next, end.saturating_add(self.delays[a]), now);
        }
        next
    }

    // The word of tick t: the one that is known, where it lasts, else a new one. The checks keep their windows so too; a function
    // for both crates would take the making of a word as a closure and so need a `requires`, which no public call has.
    pub(crate) fn at(&self, known: Kept, state: &State, t: u16) -> Kept
        requires { Lasts self.now state.now.owed state.now.ends known t }
        ensures { (result.word ≡ tick_word self.now state.now.owed state.now.ends t)
            × Lasts self.now state.now.owed state.now.ends result t }
    {
        let now = t as u32;
        if known.lasts(now) {
            return known;
        }
        let word = self.tick(state, now);
        let change = self.next_change(&state.ends, t);
        Kept {
            word,
            until: state.next_end(word, now, change),
        }
    }
}
