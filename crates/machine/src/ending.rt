// After the last tick: what is still owed, and the deadlines.
ghost use Rattle.std.specs.Prelude.{◌≡◌, not, eqb, get_or};
ghost use Rattle.schedule.specs.Model.{model};
ghost use Rattle.schedule.specs.Choice.{choice};
ghost use Rattle.schedule.specs.Rule.{first_break};
ghost use Rattle.schedule.specs.Answers.{run_rules};
ghost use Rattle.schedule.specs.Numbers.{refusal_numbers, run_number};
ghost use Rattle.records.specs.Reads.{refusal_in};
ghost use Rattle.machine.specs.Ending.{First, Stopped, in_time_from};
ghost use Rattle.machine.specs.Masks.{Tabled};
ghost use Rattle.machine.specs.Played.{judged_numbers, judged_by};

use crate::inputs::Tables;
use crate::{Judged, State};
use schedule::{Place, Refusal, RunRefusal};
use tables::ByActivity;
use tables::columns::Column;
use ticks::on_time;

impl Tables {
    // "42 something owed after tick H − 1; A the lowest such activity": that activity.
    fn first_owing(&self, owed: &ByActivity) -> Option<usize>
        ensures { First self.now.activities (λ a. not (eqb (get_or owed.now a 0) 0)) result }
    {
        owed[..self.activities].iter().position(|owes| *owes != 0)
    }

    // "43 all ended, an end breaks rule 23; A the lowest": that activity.
    #[tactic(auto, unfolding(crate::specs::Ending::in_time_from))]
    fn first_late(&self, periods: &ByActivity, ends: &ByActivity) -> Option<usize>
        ensures { First self.now.activities
            (λ a. not (in_time_from self.now.releases periods.now ends.now a)) result }
    {
        for a in 0..self.activities {
            if !on_time(self.releases[a], periods[a], ends[a]) {
                return Some(a);
            }
        }
        None
    }
}

// "A refusal answers its number, A and B", B not named. The records have such a function for another case of the enum.
fn refusal(why: RunRefusal, a: u32) -> Refusal
    ensures { refusal_numbers result ≡ refusal_in (run_number why) a }
{
    Refusal::Run(why, Place { a, b: 0 })
}

// 42, then 43, of what the machine leaves.
pub(crate) fn judge(s: &[u8], q: &[u8], tables: &Tables, last: &State) -> Judged
    requires { Tabled (model s.now) (choice q.now).release tables.now
        × Stopped (model s.now) (choice q.now) last.now.owed last.now.ends }
    ensures { judged_numbers result
        ≡ judged_by (first_break (run_rules (model s.now) (choice q.now))) }
{
    if let Some(owing) = tables.first_owing(&last.owed) {
        return Judged::Refused(refusal(RunRefusal::Owed, owing as u32));
    }
    let periods = tables::columns::table(Column::ChosenPeriod, s, q);
    if let Some(late) = tables.first_late(&periods, &last.ends) {
        return Judged::Refused(refusal(RunRefusal::Late, late as u32));
    }
    Judged::Succeeds
}
