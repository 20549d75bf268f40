// What a run that succeeds answers, without a page: "the length, usage, c times H, and makespan".
ghost use Rattle.std.specs.Prelude.{◌≡◌, ◌*◌, ◌≤◌, length, get_or};
ghost use Rattle.schedule.specs.Bounded.{total, greatest};
ghost use Rattle.schedule.specs.Model.{model};
ghost use Rattle.schedule.specs.Choice.{choice};
ghost use Rattle.schedule.specs.Answers.{figures, machine_plan, written};
ghost use Rattle.schedule.specs.Numbers.{figure_numbers, written_numbers};
ghost use Rattle.report.specs.Tables.{Below, AllEnded};

use schedule::{Figures, Written};
use tables::ByActivity;
use tables::columns::Column;
use tables::figures::Second;

// "counted in core ticks" (U7 of 02): the sum of n durations, each times its width. That n is at most 32 keeps the sum within 32
// bits too.
fn core_ticks(n: usize, durations: &ByActivity, widths: &ByActivity) -> u32
    requires { (n ≤ 32) × Below 65536 n durations.now × Below 256 n widths.now }
    ensures { result
        ≡ total n (λ a. get_or durations.now a 0 * get_or widths.now a 0) }
{
    let mut all: u32 = 0;
    for a in 0..n {
        all += durations[a] * widths[a];
    }
    all
}

// The latest end. The function for the greatest that the tables have goes over a closure, and so is private to them.
fn latest(ends: &[u32]) -> u32
    ensures { result ≡ greatest (length ends.now) (λ a. get_or ends.now a 0) }
{
    let mut latest: u32 = 0;
    for end in ends {
        latest = latest.max(*end);
    }
    latest
}

// The figures of the machine's plan. Where nothing is owed every activity has been active for its duration, on as many cores
// as it is wide.
fn figures(s: &[u8], q: &[u8], ends: &ByActivity) -> Figures
    requires { AllEnded (model s.now) (choice q.now) ends.now }
    ensures { figure_numbers result
        ≡ figures (model s.now) (machine_plan (model s.now) (choice q.now)) }
{
    let sizes = records::model::counts(s);
    let n = sizes.activities as usize;
    let cores = sizes.cores as u32;
    let horizon = sizes.horizon as u32;
    let durations = tables::columns::table(Column::ChosenDuration, s, q);
    let widths = tables::columns::table(Column::Width, s, q);
    let first = tables::figures::least_release(Second::Choice, q, sizes.threads);
    let capacity = cores * horizon;
    Figures {
        usage: core_ticks(n, &durations, &widths),
        capacity,
        makespan: latest(&ends[..n]).saturating_sub(first),
    }
}

// What a run that succeeds answers: the length of the plan, and its figures.
#[tactic(auto, unfolding(records::specs::Rows::sizes_of, schedule::specs::Answers::length_needed))]
pub(crate) fn written(s: &[u8], q: &[u8], ends: &ByActivity) -> Written
    requires { AllEnded (model s.now) (choice q.now) ends.now }
    ensures { written_numbers result ≡ written (model s.now) (choice q.now) }
{
    let sizes = records::model::counts(s);
    Written {
        length: records::plan::length(sizes.threads, sizes.activities, sizes.horizon),
        figures: figures(s, q, ends),
    }
}
