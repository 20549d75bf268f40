// The plan's bytes: the grid in the later part of the lent buffer, the header and the rows in front of it.
ghost use Rattle.std.specs.Prelude.{◌≡◌, ◌++◌, ℕ, ◌≤◌, ◌<◌, length, get_or, drop, replicate};
ghost use Rattle.schedule.specs.Bounded.{table};
ghost use Rattle.schedule.specs.Model.{model, Formed};
ghost use Rattle.schedule.specs.Choice.{choice};
ghost use Rattle.schedule.specs.Plan.{plan_thread_row, plan_activity_row, pair_rows};
ghost use Rattle.schedule.specs.Answers.{length_needed};
ghost use Rattle.fields.specs.Put.{put};
ghost use Rattle.run.specs.Front.{grid_of, start_in, front_in, Entered};
ghost use Rattle.run.specs.Outcome.{Placed, FrontFits};

use machine::Played;
use records::model::Activity;
use records::plan::Span;
use tables::ByActivity;

// ---- the grid

// The length of the plan that a model asks for.
#[tactic(auto, unfolding(records::specs::Rows::sizes_of, schedule::specs::Answers::length_needed))]
pub(crate) fn needed(s: &[u8]) -> u32
    ensures { result ≡ length_needed (model s.now) }
{
    let sizes = records::model::counts(s);
    records::plan::length(sizes.threads, sizes.activities, sizes.horizon)
}

// Where the grid begins: behind the rows.
#[tactic(auto, unfolding(records::specs::Rows::sizes_of))]
pub(crate) fn grid_at(s: &[u8]) -> usize
    ensures { result ≡ grid_of (model s.now) }
{
    let sizes = records::model::counts(s);
    records::plan::grid_at(sizes.threads, sizes.activities)
}

// "the grid written into the later part of the lent buffer": the part behind the rows is lent on.
pub(crate) fn write_grid(s: &[u8], q: &[u8], out: &mut [u8]) -> Played
    requires { Formed (model s.now) × (length_needed (model s.now) ≤ length out.old) }
    ensures { Placed (model s.now) (choice q.now) out.old out.new
        result.judged result.ends }
{
    let at = grid_at(s);
    machine::play(s, q, &mut out[at..])
}

// "42 and 43 set the plan's length of bytes to 0"
pub(crate) fn clear(out: &mut [u8], k: usize)
    requires { k ≤ length out.old }
    ensures { out.new ≡ replicate k 0 ++ drop k out.old }
{
    out[..k].fill(0);
}

// ---- the rows

// "n rows of release, period (2 each)": the chosen ones.
fn write_threads(q: &[u8], n: u8, out: &mut [u8])
    requires { plan_thread_row n ≤ length out.old }
    ensures { out.new
        ≡ put (plan_thread_row 0) (pair_rows n (choice q.now).release (choice q.now).period)
        out.old }
{
    for j in 0..n {
        records::plan::put_thread_row(out, j, records::choice::timing_at(q, j));
    }
}

// An activity's row, from tables of starts and of ends. Two tables and no rows: the machine hands the ends out as one table.
fn activity_row(a: usize, starts: &ByActivity, ends: &ByActivity) -> Span
    requires { (a < 32) × (get_or starts.now a 0 < 65536) × (get_or ends.now a 0 < 65536) }
    ensures { (result.start ≡ get_or starts.now a 0) × (result.end ≡ get_or ends.now a 0) }
{
    Span {
        start: starts[a] as u16,
        end: ends[a] as u16,
    }
}

// "m rows of start, end (2 each)": the machine's, behind the rows of n threads. The starts are counted here and the ends are the
// machine's, so they are two tables; m bounds both.
fn write_activities(n: u8, m: u8, starts: &ByActivity, ends: &ByActivity, out: &mut [u8])
    requires { (m ≤ 32) × (plan_activity_row n m ≤ length out.old)
        × ((a : ℕ) → a < m → (get_or starts.now a 0 < 65536) × (get_or ends.now a 0 < 65536)) }
    ensures { out.new
        ≡ put (plan_thread_row n) (pair_rows m (λ a. get_or starts.now a 0) (λ a. get_or ends.now a 0))
        out.old }
{
    for a in 0..m {
        let row = activity_row(a as usize, starts, ends);
        records::plan::put_activity_row(out, n, Activity(a), row);
    }
}

// The activities of a word start at tick t. A walk over set bits: no index is counted.
fn enter(word: u32, t: u32, starts: &mut ByActivity)
    ensures { Entered word t starts.old starts.new }
{
    let mut rest = word;
    while rest != 0 {
        let a = bits::lowest(rest);
        starts[a as usize] = t;
        rest = bits::without(rest, a);
    }
}

// "Start is the first active tick": where each activity's bit is first set in the words of the grid, h where nowhere: so the
// definition has it of an activity that never starts (`Machine#machine_start`).
fn starts(grid: &[u8], h: u16) -> ByActivity
    ensures { result ≡ table 32 (start_in grid.now h) }
{
    let mut firsts = [h as u32; 32];
    let mut seen: u32 = 0;
    for t in 0..h {
        let word = records::grid::word(grid, t as usize);
        enter(word & !seen, t as u32, &mut firsts);
        seen |= word;
    }
    firsts
}

// Where each activity's bit is first set in the grid that stands in a buffer, from a position on.
fn starts_from(out: &[u8], at: usize, h: u16) -> ByActivity
    requires { at ≤ length out.now }
    ensures { result ≡ table 32 (start_in (drop at out.now) h) }
{
    starts(&out[at..], h)
}

// The header and the rows, in front of a grid that is written.
pub(crate) fn write_front(s: &[u8], q: &[u8], ends: &ByActivity, out: &mut [u8])
    requires { FrontFits (model s.now) out.old ends.now }
    ensures { out.new
        ≡ put 0 (front_in (model s.now) (choice q.now) out.old ends.now)
        out.old }
{
    let sizes = records::model::counts(s);
    let firsts = starts_from(out, grid_at(s), sizes.horizon);
    records::plan::put_head(out, sizes.threads, sizes.activities, sizes.horizon);
    write_threads(q, sizes.threads, out);
    write_activities(sizes.threads, sizes.activities, &firsts, ends, out);
}
