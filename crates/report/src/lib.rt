// "Lateness in a table": for each activity of a run the deadline less its end.
#![tactic(auto)]

ghost use Rattle.std.specs.Prelude.{◌≡◌, ◌≤◌, length};
ghost use Rattle.schedule.specs.Model.{model, Formed};
ghost use Rattle.schedule.specs.Choice.{choice};
ghost use Rattle.schedule.specs.Report.{rows_needed, report_answer, report_rows};
ghost use Rattle.schedule.specs.Numbers.{run_numbers};
ghost use Rattle.machine.specs.Played.{Ended};
ghost use Rattle.report.specs.Reports.{past_input, past_rows, Reports};

use machine::{Judged, Played};
use schedule::{Place, Refusal, RunRefusal, RunVerdict};

mod figures;
mod rows;

// "a list under 32 rows"
const ROWS: usize = 32;

// The run's answer, from how the machine ended. The form rules have passed, so the machine was played, and what is not refused
// is a success.
fn verdict(s: &[u8], q: &[u8], played: &Played) -> RunVerdict
    requires { Ended (model s.now) (choice q.now) played.now.judged played.now.ends }
    ensures { run_numbers result ≡ past_rows (model s.now) (choice q.now) }
{
    if let Judged::Refused(x) = played.judged {
        return Err(x);
    }
    Ok(figures::written(s, q, &played.ends))
}

// The answer, and the rows filled "for success and for 43; for every other answer no row is written". The list is lent for
// writing, so no one struct that is copied holds it beside the model and the choice.
fn conclude(s: &[u8], q: &[u8], played: &Played, list: &mut [i32]) -> RunVerdict
    requires { Ended (model s.now) (choice q.now) played.now.judged played.now.ends × (rows_needed ≤ length list.old) }
    ensures { Reports (past_rows (model s.now) (choice q.now)) (model s.now)
        (choice q.now) list.old list.new result }
{
    let answer = verdict(s, q, played);
    if numbers::fills(answer) {
        rows::write(s, q, &played.ends, list);
    }
    answer
}

// The report past its input: "50, after the input, for a list under 32 rows; 41 does not arise here", then the machine, which
// needs no page. That the model is formed stands in this one contract of the crate; a type for the checks and the run too would have
// to be public.
fn attempt(s: &[u8], q: &[u8], list: &mut [i32]) -> RunVerdict
    requires { Formed (model s.now) }
    ensures { Reports (past_input (model s.now) (choice q.now) (length list.old))
        (model s.now) (choice q.now) list.old list.new result }
{
    if list.len() < ROWS {
        let place = Place { a: 0, b: 0 };
        return Err(Refusal::Run(RunRefusal::Rows, place));
    }
    let mut no_page = [0u8; 0];
    let played = machine::play(s, q, &mut no_page);
    conclude(s, q, &played, list)
}

// The report on a model's and a choice's bytes, with a row for each activity written into the lent list.
pub fn lateness(model: &[u8], choice: &[u8], list: &mut [i32]) -> RunVerdict
    ensures { (run_numbers result ≡ report_answer model.now choice.now (length list.old))
        × (list.new ≡ report_rows model.now choice.now list.old) }
{
    records::choice::read_both(model, choice)?;
    attempt(model, choice, list)
}
