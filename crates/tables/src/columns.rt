// Columns of the records by activity.
ghost use Rattle.std.specs.Prelude.{◌≡◌, ◌≤◌, min};
ghost use Rattle.schedule.specs.Model.{model};
ghost use Rattle.tables.specs.Columns.{among_activities, entry_of, column_of};
ghost use Rattle.schedule.specs.Bounded.{bit};

use crate::{ByActivity, each};
use records::model::{Activity, owner};

// What a column holds: of the model, or of the second record, whose bytes are read as the choice's or the plan's that the name
// says.
#[derive(Clone, Copy)]
pub enum Column {
    // the model's
    Delay,
    Temporal,
    ByData,
    Width,
    Priority,
    // a choice's, the first two by the activity's thread
    ChosenRelease,
    ChosenPeriod,
    ChosenDuration,
    // a plan's
    PlanStart,
    PlanEnd,
}

// How many activities have a place in a table, and a bit in a word.
#[derive(Clone, Copy)]
pub(crate) struct Places {
    pub(crate) n: u8,
    ghost few: { n ≤ 32 },
}

// All activities of a model that meets its form rules have a place.
pub(crate) fn rows(s: &[u8]) -> Places
    ensures { result.n ≡ min (model s.now).activities 32 }
{
    Places {
        n: records::model::counts(s).activities.min(32),
    }
}

// The bits of a mask that are activities of the model.
fn among(s: &[u8], mask: u32) -> u32
    ensures { result ≡ among_activities (model s.now) (bit mask) }
{
    mask & bits::below(records::model::counts(s).activities as u32)
}

// A column's entry for activity a: "priority is looked up by an activity's thread", and so are release and period. Which column
// it is stays a value, since a public function takes it.
fn entry(which: Column, s: &[u8], second: &[u8], a: Activity) -> u32
    ensures { result ≡ entry_of which s.now second.now a.0 }
{
    match which {
        Column::Delay => u32::from(records::model::activity_row(s, a).delay),
        Column::Temporal => among(s, records::model::activity_row(s, a).temporal_mask),
        Column::ByData => among(s, records::model::activity_row(s, a).data_mask),
        Column::Width => u32::from(records::model::width(s, a)),
        Column::Priority => u32::from(records::model::thread_row(s, owner(s, a)).priority),
        Column::ChosenRelease => u32::from(
            records::choice::thread_row(second, owner(s, a)).release,
        ),
        Column::ChosenPeriod => u32::from(records::choice::thread_row(second, owner(s, a)).period),
        Column::ChosenDuration => u32::from(records::choice::duration(second, a)),
        Column::PlanStart => u32::from(records::plan::activity_row(second, a).start),
        Column::PlanEnd => u32::from(records::plan::activity_row(second, a).end),
    }
}

// A column: an entry for each activity of the model, 0 from there on.
pub fn table(which: Column, s: &[u8], second: &[u8]) -> ByActivity
    ensures { result ≡ column_of which s.now second.now }
{
    each::table(rows(s).n, |a| entry(which, s, second, Activity(a)))
}
