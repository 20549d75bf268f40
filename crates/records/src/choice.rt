// The choice record: "n, m (1 byte each); n rows of release, period (2 each); m durations (2 each)".
ghost use Rattle.std.specs.Prelude.{◌≡◌};
ghost use Rattle.schedule.specs.Rule.{break, first_break};
ghost use Rattle.schedule.specs.Model.{model};
ghost use Rattle.schedule.specs.Choice.{choice, choice_form, choice_length, duration_at, duration_rule};
ghost use Rattle.schedule.specs.Answers.{run_checks};
ghost use Rattle.records.specs.Rows.{timing};
ghost use Rattle.records.specs.Reads.{row_answer, row_read_numbers, pass_numbers};

use crate::model::{Activity, Thread};
use crate::plan::Timing;
use crate::rows::Row;
use crate::{form, model, rows, timings};
use schedule::{FormRefusal, Refusal};

// Where the thread rows begin, behind the counts.
const ROWS: u8 = 7;

// The row of an activity's thread in a choice, of any bytes.
pub fn thread_row(q: &[u8], j: Thread) -> Timing
    ensures { result ≡ timing ((choice q.now).release j.0) ((choice q.now).period j.0) }
{
    timings::row(q, ROWS, j.number())
}

// Thread row j of a choice, of any bytes, for a walk over all: release and period, and no priority.
// It takes a number, and `thread_row` a Thread: only an activity's row hands one out.
pub fn timing_at(q: &[u8], j: u8) -> Timing
    ensures { result ≡ timing ((choice q.now).release j) ((choice q.now).period j) }
{
    timings::row(q, ROWS, j)
}

// Where activity a's duration stands, behind the rows of that many threads.
fn duration_at(threads: u8, a: u8) -> usize
    ensures { result ≡ duration_at threads a }
{
    timings::row_at(ROWS, threads) + 2 * (a as usize)
}

// Activity a's duration, of any bytes.
pub fn duration(q: &[u8], a: Activity) -> u16
    ensures { result ≡ (choice q.now).duration a.0 }
{
    fields::be16(q, duration_at(fields::byte(q, 5), a.0))
}

// ---- rules 8 to 13

// "Length 7 + 4n + 2m": where one more duration would stand.
fn formula(q: &[u8]) -> u32
    ensures { result ≡ choice_length (choice q.now).threads (choice q.now).activities }
{
    duration_at(fields::byte(q, 5), fields::byte(q, 6)) as u32
}

// Activity a's duration, or its refusal by rule 13: "duration outside its range".
fn read_duration(s: &[u8], q: &[u8], a: Activity) -> Result<Row, Refusal>
    ensures { row_read_numbers result
        ≡ row_answer (duration_rule (model s.now) (choice q.now)) a.0
        (Row.Duration ((choice q.now).duration a.0)) }
{
    let chosen = duration(q, a);
    let range = model::activity_row(s, a);
    let holds = form::within(range.least_duration, range.most_duration, chosen);
    rows::answer(
        holds,
        Row::Duration(chosen),
        FormRefusal::DurationChoice,
        a.0 as u32,
    )
}

// Rule 13 over all activities of the model.
fn over_durations(s: &[u8], q: &[u8]) -> Result<(), Refusal>
    ensures { pass_numbers result ≡ break (duration_rule (model s.now) (choice q.now)) }
{
    let sizes = model::counts(s);
    rows::over(
        sizes.activities as u16,
        |a| read_duration(s, q, Activity(a as u8)),
    )
}

// Rules 8 to 13, "in list order", beside the bytes of any model.
pub fn read(s: &[u8], q: &[u8]) -> Result<(), Refusal>
    ensures { pass_numbers result ≡ first_break (choice_form (model s.now) q.now) }
{
    form::second_head(q, ROWS, form::counts_hold(s, q), formula(q))?;
    timings::over_timings(s, q, ROWS)?;
    over_durations(s, q)
}

// The input of a run: "The model is tried first, in list order", then the choice beside it.
pub fn read_both(s: &[u8], q: &[u8]) -> Result<(), Refusal>
    ensures { pass_numbers result ≡ first_break (run_checks s.now q.now) }
{
    model::read(s)?;
    read(s, q)
}
