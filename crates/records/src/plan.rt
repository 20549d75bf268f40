// The plan record: "n, m (1 each), H (2); n rows of release, period (2 each); m rows of start, end (2 each); H words of 4
// bytes".
ghost use Rattle.std.specs.Prelude.{◌≡◌, ◌&&◌, ◌+◌, ◌≤◌, ◌<◌, length};
ghost use Rattle.schedule.specs.Fields.{bytes, pair};
ghost use Rattle.schedule.specs.Lent.{LiesAt};
ghost use Rattle.schedule.specs.Rule.{break, first_break};
ghost use Rattle.schedule.specs.Model.{model};
ghost use Rattle.schedule.specs.Plan.{plan, plan_form, plan_thread_row, plan_activity_row, grid_at, plan_grid, plan_grid_at};
ghost use Rattle.schedule.specs.Plan.{plan_length, tick_at, word_in, word_rule};
ghost use Rattle.fields.specs.Put.{put};
ghost use Rattle.records.specs.Rows.{plan_sizes_of, timing, span_of, counts_hold, horizon_holds, none_from};
ghost use Rattle.records.specs.Writes.{head_bytes};
ghost use Rattle.records.specs.Reads.{answer_at, row_read_numbers, pass_numbers};

use crate::model::{Activity, Thread};
use crate::rows::Row;
use crate::{form, grid, model, rows, timings};
use schedule::{FormRefusal, Refusal};

// The counts at the head of a plan.
// `length`, `grid_at` and the writers take these as numbers, as the definitions do: they are called before there is a plan.
#[derive(Clone, Copy)]
pub struct PlanSizes {
    pub threads: u8,
    pub activities: u8,
    pub horizon: u16,
}

// A thread's row.
#[derive(Clone, Copy)]
pub struct Timing {
    pub release: u16,
    pub period: u16,
}

// An activity's row.
#[derive(Clone, Copy)]
pub struct Span {
    pub start: u16,
    pub end: u16,
}

// ---- where the parts stand

// The thread rows, behind the counts.
const ROWS: u8 = 9;

// Activity row a, behind the rows of that many threads.
fn activity_at(threads: u8, a: u8) -> usize
    ensures { result ≡ plan_activity_row threads a }
{
    timings::row_at(ROWS, threads) + 4 * (a as usize)
}

// The grid, behind the rows.
pub fn grid_at(threads: u8, activities: u8) -> usize
    ensures { result ≡ grid_at threads activities }
{
    activity_at(threads, activities)
}

// "Length 9 + 4n + 4m + 4H"
pub fn length(threads: u8, activities: u8, horizon: u16) -> u32
    ensures { result ≡ plan_length threads activities horizon }
{
    (grid_at(threads, activities) + grid::tick_at(horizon as usize)) as u32
}

// ---- reading

// The counts, of any bytes.
pub fn counts(r: &[u8]) -> PlanSizes
    ensures { result ≡ plan_sizes_of (plan r.now) }
{
    PlanSizes {
        threads: fields::byte(r, 5),
        activities: fields::byte(r, 6),
        horizon: fields::be16(r, 7),
    }
}

// The row of an activity's thread in a plan, of any bytes.
pub fn thread_row(r: &[u8], j: Thread) -> Timing
    ensures { result ≡ timing ((plan r.now).release j.0) ((plan r.now).period j.0) }
{
    timings::row(r, ROWS, j.number())
}

// Thread row j of a plan, of any bytes, for a walk over all: release and period, and no priority.
// It takes a number, and `thread_row` a Thread: only an activity's row hands one out.
pub fn timing_at(r: &[u8], j: u8) -> Timing
    ensures { result ≡ timing ((plan r.now).release j) ((plan r.now).period j) }
{
    timings::row(r, ROWS, j)
}

// Activity row a of a plan, of any bytes.
pub fn activity_row(r: &[u8], a: Activity) -> Span
    ensures { result ≡ span_of (plan r.now) a.0 }
{
    let at = activity_at(fields::byte(r, 5), a.0);
    Span {
        start: fields::be16(r, at),
        end: fields::be16(r, at + 2),
    }
}

// The word of tick t, of any bytes.
pub fn word(r: &[u8], t: u16) -> u32
    ensures { result ≡ (plan r.now).word t }
{
    let sizes = counts(r);
    let at = grid_at(sizes.threads, sizes.activities);
    fields::be32(r, at + grid::tick_at(t as usize))
}

// The words of all ticks, of any bytes: the part behind the rows, to the end; empty where a plan does not reach so far.
pub fn words(r: &[u8]) -> &[u8]
    ensures { (result.now ≡ plan_grid r.now) × LiesAt r.entry (plan_grid_at r.now) result }
{
    let sizes = counts(r);
    let at = grid_at(sizes.threads, sizes.activities);
    let end = r.len();
    if at <= end { &r[at..] } else { &r[end..] }
}

// ---- writing, each part whole or not at all

// A row of two fields of 2 bytes, for which there is room.
fn fill_pair(out: &mut [u8], at: usize, first: u16, second: u16)
    requires { at + 4 ≤ length out.old }
    ensures { out.new ≡ put at (pair first second) out.old }
{
    fields::put16(out, at, first);
    fields::put16(out, at + 2, second);
}

// A row of two fields of 2 bytes, or nothing where there is no room for it.
fn put_pair(out: &mut [u8], at: usize, first: u16, second: u16)
    requires { at < 65536 }
    ensures { out.new ≡ put at (pair first second) out.old }
{
    if at + 4 <= out.len() {
        fill_pair(out, at, first, second);
    }
}

// "n, m (1 each), H (2)", behind the length and the version, where there is room for them.
fn fill_head(out: &mut [u8], threads: u8, activities: u8, horizon: u16)
    requires { 9 ≤ length out.old }
    ensures { out.new ≡ put 0 (head_bytes threads activities horizon) out.old }
{
    fields::put32(out, 0, length(threads, activities, horizon));
    fields::put8(out, 4, 1);
    fields::put8(out, 5, threads);
    fields::put8(out, 6, activities);
    fields::put16(out, 7, horizon);
}

// The length, the version and "n, m (1 each), H (2)", or nothing where there is no room for them.
pub fn put_head(out: &mut [u8], threads: u8, activities: u8, horizon: u16)
    ensures { out.new ≡ put 0 (head_bytes threads activities horizon) out.old }
{
    if 9 <= out.len() {
        fill_head(out, threads, activities, horizon);
    }
}

// Thread row j: "release, period (2 each)".
pub fn put_thread_row(out: &mut [u8], j: u8, row: Timing)
    ensures { out.new ≡ put (plan_thread_row j) (pair row.release row.period) out.old }
{
    put_pair(out, timings::row_at(ROWS, j), row.release, row.period);
}

// Activity row a, behind the rows of that many threads: "start, end (2 each)".
pub fn put_activity_row(out: &mut [u8], threads: u8, a: Activity, row: Span)
    ensures { out.new
        ≡ put (plan_activity_row threads a.0) (pair row.start row.end) out.old }
{
    put_pair(out, activity_at(threads, a.0), row.start, row.end);
}

// The word of tick t, behind the rows of that many threads and activities.
pub fn put_word(out: &mut [u8], threads: u8, activities: u8, t: u16, word: u32)
    ensures { out.new
        ≡ put (grid_at threads activities + tick_at t) (bytes 4 word) out.old }
{
    fields::put32(
        out,
        grid_at(threads, activities) + grid::tick_at(t as usize),
        word,
    );
}

// ---- rules 8 to 12 and 14

// 10 "its n or m, or a plan's H, differs from the model's"
fn counts_hold(s: &[u8], r: &[u8]) -> bool
    ensures { result ≡ (horizon_holds s.now r.now && counts_hold s.now r.now) }
{
    fields::be16(r, 7) == model::counts(s).horizon && form::counts_hold(s, r)
}

// The word of tick t in a grid, or its refusal by rule 14, where there are so many activities: "a bit at or above m".
fn read_word(grid: &[u8], t: u16, activities: u8) -> Result<Row, Refusal>
    ensures { row_read_numbers result
        ≡ answer_at (none_from (word_in grid.now t) activities) (Row.Word (word_in grid.now t)) 14 t }
{
    let active = grid::word(grid, t as usize);
    let holds = form::none_from(active, activities);
    rows::answer(holds, Row::Word(active), FormRefusal::WordBits, t as u32)
}

// Rule 14 over all ticks of the model.
fn over_words(s: &[u8], r: &[u8]) -> Result<(), Refusal>
    ensures { pass_numbers result ≡ break (word_rule (model s.now) (plan r.now)) }
{
    let sizes = model::counts(s);
    let grid = words(r);
    rows::over(sizes.horizon, |t| read_word(grid, t, sizes.activities))
}

// Rules 8 to 12 and 14, "in list order", beside the bytes of any model.
pub fn read(s: &[u8], r: &[u8]) -> Result<(), Refusal>
    ensures { pass_numbers result ≡ first_break (plan_form (model s.now) r.now) }
{
    let sizes = counts(r);
    let wanted = length(sizes.threads, sizes.activities, sizes.horizon);
    form::second_head(r, ROWS, counts_hold(s, r), wanted)?;
    timings::over_timings(s, r, ROWS)?;
    over_words(s, r)
}
