// A row of one of the three records, what reading it answers, and a rule tried at every row.
ghost use Rattle.std.specs.Prelude.{◌≡◌, ◌<◌, ℕ};
ghost use Rattle.schedule.specs.Bounded.{first};
ghost use Rattle.schedule.specs.Answers.{Answer};
ghost use Rattle.schedule.specs.Numbers.{form_number};
ghost use Rattle.records.specs.Reads.{refusal_of, answer_at, row_read_numbers, pass_numbers};

use crate::form;
use crate::model::{ActivityRow, ThreadRow};
use crate::plan::Timing;
use schedule::{FormRefusal, Refusal};

// A row of one of the three records.
#[derive(Clone, Copy)]
pub enum Row {
    // of a model
    Thread(ThreadRow),
    Activity(ActivityRow),
    Loop(u8),
    Width(u8),
    // of a choice or a plan
    Timing(Timing),
    Duration(u16),
    Word(u32),
}

// Row a where the rule's test passes, else the rule's refusal there.
pub(crate) fn answer(holds: bool, row: Row, why: FormRefusal, a: u32) -> Result<Row, Refusal>
    ensures { row_read_numbers result ≡ answer_at holds row (form_number why) a }
{
    if holds {
        Ok(row)
    } else {
        Err(form::refusal(why, a))
    }
}

// A rule tried at every row, "lowest A first": the first refusal that reading a row answers.
// A row's number has 16 bits, since the ticks of a plan are rows too.
pub(crate) fn over<F: Fn(u16) -> Result<Row, Refusal>>(rows: u16, read: F) -> Result<(), Refusal>
    requires { (a : ℕ) → a < rows → F.pre read a }
    ensures { (f : ℕ → Answer Row) → ((a : ℕ) (y : _) → a < rows → F.post read a y → row_read_numbers y ≡ f a)
        → pass_numbers result ≡ first rows (λ a. refusal_of (f a)) }
{
    for a in 0..rows {
        // "Each reader's row answer is taken apart by let .. else, and the refusal is returned."
        let row = read(a);
        let Ok(_) = row else {
            return row.map(|_| ());
        };
    }
    Ok(())
}
