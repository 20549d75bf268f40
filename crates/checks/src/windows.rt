// Which activities have their window open at a tick: from one tick on, before another. The set changes at those ticks
// only, so it is kept from one change to the next.
ghost use Rattle.std.specs.Prelude.{◌≡◌, ◌&&◌, not, ℕ, ◌≤◌, ◌<◌, leb, ltb, get_or};
ghost use Rattle.schedule.specs.Bounded.{all, bit, ◌⇒◌};
ghost use Rattle.schedule.specs.Plan.{plan, active};
ghost use Rattle.schedule.specs.Model.{model};
ghost use Rattle.ticks.specs.Kept.{Quiet, Stands};
ghost use Rattle.checks.specs.Tables.{Tabulated};
ghost use Rattle.checks.specs.Rules.{none_outside};
ghost use Rattle.checks.specs.Windows.{open_of};

use crate::page::Tables;
use crate::word;
use tables::ByActivity;
use tables::columns::Column;
use ticks::{Kept, sooner};

// Whether a tick lies in a window.
fn holds(from: u32, end: u32, t: u32) -> bool
    ensures { result ≡ (leb from t && ltb t end) }
{
    from <= t && t < end
}

// The windows of the first n activities, by tables of the ticks from which and before which they are open. Two tables and no
// rows: the ends are a column of the plan as it was read (`tables::columns::table` is public), and serve other rules too.
#[derive(Clone, Copy)]
pub(crate) struct Windows<'a> {
    pub(crate) n: usize,
    pub(crate) froms: &'a ByActivity,
    pub(crate) ends: &'a ByActivity,
    ghost few: { n ≤ 32 },
}

impl<'a> Windows<'a> {
    // The word of the activities whose window is open at tick t.
    fn opened(&self, t: u32) -> u32
        ensures { result ≡ open_of self.now.n self.now.froms.now self.now.ends.now t }
    {
        word(self.n, |a| holds(self.froms[a], self.ends[a], t))
    }

    // The next tick after t at which a window opens or closes.
    fn next_change(&self, t: u32) -> u32
        ensures { Quiet self.now.n (λ a. get_or self.now.froms.now a 0) t result
            × Quiet self.now.n (λ a. get_or self.now.ends.now a 0) t result }
    {
        let mut next: u32 = u32::MAX;
        for a in 0..self.n {
            next = sooner(next, self.froms[a], t);
            next = sooner(next, self.ends[a], t);
        }
        next
    }

    // The word of the windows that are open at tick t: the one that is known, where it lasts, else a new one. The machine keeps its
    // words so too; a function for both crates would take the making of a word as a closure and so need a `requires`, which no
    // public call has.
    pub(crate) fn at(&self, known: Kept, t: u32) -> Kept
        requires { Stands (open_of self.now.n self.now.froms.now self.now.ends.now) known t }
        ensures { (result.word ≡ open_of self.now.n self.now.froms.now self.now.ends.now t)
            × Stands (open_of self.now.n self.now.froms.now self.now.ends.now) result t }
    {
        if known.lasts(t) {
            return known;
        }
        Kept {
            word: self.opened(t),
            until: self.next_change(t),
        }
    }

    // The activities that are active at a tick outside their window.
    fn outside(&self, r: &[u8], horizon: u16) -> u32
        ensures { (a : ℕ) → a < self.now.n → bit result a
            ≡ not (all horizon (λ t. active (plan r.now) t a
            ⇒ (leb (get_or self.now.froms.now a 0) t && ltb t (get_or self.now.ends.now a 0)))) }
    {
        let grid = records::plan::words(r);
        let mut strays: u32 = 0;
        let mut opened = ticks::unknown();
        for t in 0..horizon {
            opened = self.at(opened, t as u32);
            strays |= records::grid::word(grid, t as usize) & !opened.word;
        }
        strays
    }
}

// The activities that break "none outside".
pub(crate) fn strays(s: &[u8], r: &[u8], tables: &Tables) -> u32
    requires { Tabulated (model s.now) (plan r.now) tables.now }
    ensures { (a : ℕ) → a < (model s.now).activities
        → bit result a ≡ not (none_outside (model s.now) (plan r.now) a) }
{
    let sizes = records::model::counts(s);
    let starts = tables::columns::table(Column::PlanStart, s, r);
    let windows = Windows {
        n: sizes.activities as usize,
        froms: &starts,
        ends: &tables.ends,
    };
    windows.outside(r, sizes.horizon)
}
