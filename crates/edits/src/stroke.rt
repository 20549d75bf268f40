// An edit that is not refused, made in the plan where it lies: one word and one row are written.
ghost use Rattle.std.specs.Prelude.{◌≡◌, cond, ◌+◌, ◌<◌, eqb};
ghost use Rattle.schedule.specs.Bounded.{bit};
ghost use Rattle.schedule.specs.Plan.{plan, active, plan_bytes, word_in};
ghost use Rattle.edit_rules.specs.Edits.{word_with, first_marked, past_marked, edited_plan};

use edit_rules::Edit;
use records::model::Activity;
use records::plan::Span;

// A word with the edit's bit as the edit wants it.
fn word_with(e: Edit, word: u32) -> u32
    ensures { result ≡ word_with e word }
{
    if e.on {
        bits::with(word, e.activity)
    } else {
        bits::without(word, e.activity)
    }
}

// The row so far, with one tick more that is marked or not. An end of 0 says that none was: the row itself is both 0 then, so an
// Option would be taken apart into the same.
fn seen(row: Span, t: u16, marked: bool) -> Span
    requires { t < 65535 }
    ensures { (result.start ≡ cond marked (cond (eqb row.end 0) t row.start) row.start)
        × (result.end ≡ cond marked (t + 1) row.end) }
{
    if marked {
        let start = if row.end == 0 { t } else { row.start };
        return Span { start, end: t + 1 };
    }
    row
}

// "start is its first marked tick and its end its last plus 1, or both 0 when none is marked": of the first h words of a grid.
fn row_in(grid: &[u8], h: u16, a: u32) -> Span
    ensures { (result.start ≡ first_marked h (λ t. bit (word_in grid.now t) a))
        × (result.end ≡ past_marked h (λ t. bit (word_in grid.now t) a)) }
{
    let mut row = Span { start: 0, end: 0 };
    for t in 0..h {
        let word = records::grid::word(grid, t as usize);
        row = seen(row, t, bits::has(word, a));
    }
    row
}

// The first marked tick of an activity and its last plus 1, or both 0, by a plan's own words.
fn row_of(r: &[u8], a: u32) -> Span
    ensures { (result.start ≡ first_marked (plan r.now).horizon (λ t. active (plan r.now) t a))
        × (result.end ≡ past_marked (plan r.now).horizon (λ t. active (plan r.now) t a)) }
{
    let sizes = records::plan::counts(r);
    row_in(records::plan::words(r), sizes.horizon, a)
}

// The edit: the tick's word with that bit, then the activity's row, counted from the words as they are now.
pub(crate) fn make(r: &mut [u8], e: Edit)
    requires { (r.old ≡ plan_bytes (plan r.old)) × (e.activity < (plan r.old).activities)
        × (e.tick < (plan r.old).horizon) }
    ensures { r.new ≡ plan_bytes (edited_plan (plan r.old) e) }
{
    let sizes = records::plan::counts(r);
    let t = e.tick as u16;
    let word = records::plan::word(r, t);
    records::plan::put_word(r, sizes.threads, sizes.activities, t, word_with(e, word));
    let row = row_of(r, e.activity);
    let a = Activity(e.activity as u8);
    records::plan::put_activity_row(r, sizes.threads, a, row);
}
