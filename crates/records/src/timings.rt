// "n rows of release, period (2 each)", which a choice and a plan have behind their counts, and rule 12 over them.
ghost use Rattle.std.specs.Prelude.{◌≡◌};
ghost use Rattle.schedule.specs.Rule.{break};
ghost use Rattle.schedule.specs.Fields.{pair_row};
ghost use Rattle.schedule.specs.Model.{model};
ghost use Rattle.records.specs.Rows.{timing_at, timing_rule};
ghost use Rattle.records.specs.Reads.{row_answer, row_read_numbers, pass_numbers};

use crate::plan::Timing;
use crate::rows::Row;
use crate::{model, rows};
use schedule::{FormRefusal, Refusal};

// Where row j stands in rows that begin at a position.
pub(crate) fn row_at(first: u8, j: u8) -> usize
    ensures { result ≡ pair_row first j }
{
    (first as usize) + 4 * (j as usize)
}

// Row j of the rows that begin at a position, of any bytes.
pub(crate) fn row(r: &[u8], first: u8, j: u8) -> Timing
    ensures { result ≡ timing_at r.now first j }
{
    let at = row_at(first, j);
    Timing {
        release: fields::be16(r, at),
        period: fields::be16(r, at + 2),
    }
}

// Thread j's row, or its refusal by rule 12.
fn read_timing(s: &[u8], r: &[u8], first: u8, j: u8) -> Result<Row, Refusal>
    ensures { row_read_numbers result
        ≡ row_answer (timing_rule (model s.now) r.now first) j
        (Row.Timing (timing_at r.now first j)) }
{
    let timing = row(r, first, j);
    let holds = model::in_range(s, j, timing);
    rows::answer(
        holds,
        Row::Timing(timing),
        FormRefusal::ThreadChoice,
        j as u32,
    )
}

// Rule 12 over all threads of the model.
pub(crate) fn over_timings(s: &[u8], r: &[u8], first: u8) -> Result<(), Refusal>
    ensures { pass_numbers result ≡ break (timing_rule (model s.now) r.now first) }
{
    let sizes = model::counts(s);
    rows::over(sizes.threads as u16, |j| read_timing(s, r, first, j as u8))
}
