// "A pass answers usage (all ones), c times H, makespan": usage "in core ticks" (U7 of 02).
ghost use Rattle.std.specs.Prelude.{◌≡◌};
ghost use Rattle.schedule.specs.Bounded.{total, greatest, least};
ghost use Rattle.schedule.specs.Model.{model};
ghost use Rattle.schedule.specs.Plan.{plan, word_in};
ghost use Rattle.schedule.specs.Answers.{figures};
ghost use Rattle.schedule.specs.Numbers.{figure_numbers};
ghost use Rattle.tables.specs.Releases.{releases_of};
ghost use Rattle.tables.specs.Loads.{load_from};

use crate::loads::Widths;
use crate::{each, loads};
use records::model::Activity;
use schedule::Figures;

// The core ticks, counted from the words of a grid. Most ticks have the word of the one before, whose load is kept.
fn usage(grid: &[u8], horizon: u16, widths: Widths) -> u32
    ensures { result ≡ total horizon (λ t. load_from widths (word_in grid.now t)) }
{
    let mut sum: u32 = 0;
    let mut last: u32 = 0;
    let mut load = loads::load(widths, last);
    for t in 0..horizon {
        let word = records::grid::word(grid, t as usize);
        if word != last {
            load = loads::load(widths, word);
            last = word;
        }
        sum += load;
    }
    sum
}

// The end of activity a.
fn end_of(r: &[u8], a: Activity) -> u32
    ensures { result ≡ (plan r.now).end a.0 }
{
    u32::from(records::plan::activity_row(r, a).end)
}

// The greatest end.
fn latest_end(r: &[u8], n: u8) -> u32
    ensures { result ≡ greatest n (plan r.now).end }
{
    each::greatest(n, |a| end_of(r, Activity(a)))
}

// The second record, whose rows of release and period are read: a choice, or a plan.
#[derive(Clone, Copy)]
pub enum Second {
    Choice,
    Plan,
}

// The release of thread j. Which record it is stays a value, since a public function takes it.
fn release_of(whose: Second, r: &[u8], j: u8) -> u32
    ensures { result ≡ releases_of whose r.now j }
{
    match whose {
        Second::Choice => u32::from(records::choice::timing_at(r, j).release),
        Second::Plan => u32::from(records::plan::timing_at(r, j).release),
    }
}

// The least release over n threads, those without activities too.
pub fn least_release(whose: Second, r: &[u8], n: u8) -> u32
    ensures { result ≡ least n (releases_of whose r.now) }
{
    if n == 0 {
        return 0;
    }
    let mut first = release_of(whose, r, 0);
    for j in 1..n {
        first = first.min(release_of(whose, r, j));
    }
    first
}

// The figures of a plan beside a model.
pub fn figures(s: &[u8], r: &[u8]) -> Figures
    ensures { figure_numbers result ≡ figures (model s.now) (plan r.now) }
{
    let sizes = records::model::counts(s);
    let cores = sizes.cores as u32;
    let horizon = sizes.horizon as u32;
    let capacity = cores * horizon;
    let latest = latest_end(r, sizes.activities);
    let first = least_release(Second::Plan, r, sizes.threads);
    Figures {
        usage: usage(records::plan::words(r), sizes.horizon, loads::widths_of(s)),
        capacity,
        makespan: latest.saturating_sub(first),
    }
}
