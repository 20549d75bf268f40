// The model record. Its bytes say a page of several rounds (page), with its form rules (rules); what it means is the plain
// model unrolled, and that is what the calls here hand out, of any bytes.
ghost use Rattle.std.specs.Prelude.{◌≡◌};
ghost use Rattle.schedule.specs.Rule.{first_break};
ghost use Rattle.schedule.specs.Answers.{answer};
ghost use Rattle.schedule.specs.Model.{page, model, model_form};
ghost use Rattle.records.specs.Rows.{sizes_of, thread_row_of, activity_row_of, timing_holds};
ghost use Rattle.records.specs.Unrolled.{unrolled_sizes, moved_thread, moved_activity};
ghost use Rattle.records.specs.Reads.{model_read_numbers};

use crate::form;
use crate::plan::Timing;
use schedule::Refusal;

mod page;
mod rules;

// "A thread number and an activity number are separate countings: priority is looked up by an activity's thread." Only this
// file and page make a Thread, so that elsewhere one comes out of an activity's row and from nowhere else.
#[derive(Clone, Copy)]
pub struct Thread(u8);

#[derive(Clone, Copy)]
pub struct Activity(pub u8);

impl Thread {
    // A thread's number, for the rows of release and period.
    pub(crate) fn number(self) -> u8
        ensures { result ≡ self.0 }
    {
        self.0
    }
}

// The counts of a model.
#[derive(Clone, Copy)]
pub struct Sizes {
    pub cores: u8,
    pub threads: u8,
    pub activities: u8,
    pub horizon: u16,
}

// "least and most period, least and most release, priority, 2 bytes each"
#[derive(Clone, Copy)]
pub struct ThreadRow {
    pub least_period: u16,
    pub most_period: u16,
    pub least_release: u16,
    pub most_release: u16,
    pub priority: u16,
}

// "thread (1), least and most duration (2 each), delay (2), temporal mask (4), data mask (4)".
#[derive(Clone, Copy)]
pub struct ActivityRow {
    pub thread: Thread,
    pub least_duration: u16,
    pub most_duration: u16,
    pub delay: u16,
    pub temporal_mask: u32,
    pub data_mask: u32,
}

// ---- the unrolled model

// The counts of all rounds together, from those of one.
fn in_all(one: Sizes, rounds: u8) -> Sizes
    ensures { result ≡ unrolled_sizes one rounds }
{
    Sizes {
        cores: one.cores,
        threads: unroll::in_all(rounds, one.threads),
        activities: unroll::in_all(rounds, one.activities),
        horizon: one.horizon,
    }
}

// The counts, of any bytes.
pub fn counts(s: &[u8]) -> Sizes
    ensures { result ≡ sizes_of (model s.now) }
{
    in_all(page::counts(s), page::rounds(s))
}

// A thread's row in round k: "its release range moved on by k times the period".
fn moved_thread(row: ThreadRow, k: u8) -> ThreadRow
    ensures { result ≡ moved_thread k row }
{
    ThreadRow {
        least_period: row.least_period,
        most_period: row.most_period,
        least_release: unroll::release(k, row.least_period, row.least_release),
        most_release: unroll::release(k, row.least_period, row.most_release),
        priority: row.priority,
    }
}

// Thread row j by its round, where each has n threads; zeros where there is none.
fn thread_by_round(s: &[u8], j: u8, n: u8) -> ThreadRow
    requires { n ≡ (page s.now).plain.threads }
    ensures { result ≡ thread_row_of (model s.now) j }
{
    if unroll::in_all(page::rounds(s), n) <= j {
        return ThreadRow {
            least_period: 0,
            most_period: 0,
            least_release: 0,
            most_release: 0,
            priority: 0,
        };
    }
    let row = page::thread_row(s, unroll::place(j, n));
    moved_thread(row, unroll::round(j, n))
}

// Thread row j, of any bytes; zeros where there is none. A row of round 0 that is all there is read at once: with every thread
// and activity row by its round, and read field by field, a call took up to 9 % more instructions on a page of 4096 ticks, and
// up to 31 % more on one of 8.
pub fn thread_row(s: &[u8], j: Thread) -> ThreadRow
    ensures { result ≡ thread_row_of (model s.now) j.0 }
{
    let n = page::threads(s);
    if j.0 < n && j.0 < unroll::in_all(page::rounds(s), n) {
        let at = page::thread_place(s, j.0);
        if at + 10 <= s.len() {
            return page::thread_whole(s, at);
        }
    }
    thread_by_round(s, j.0, n)
}

// An activity's row in round k of n threads and m activities each, with its loop byte q: its thread is that of the round, and
// "Masks move likewise".
fn moved_activity(row: ActivityRow, n: u8, m: u8, k: u8, q: u8) -> ActivityRow
    ensures { result ≡ moved_activity n m k q row }
{
    let temporal = unroll::mask(k, m, row.temporal_mask);
    ActivityRow {
        thread: Thread(unroll::number(k, n, row.thread.0)),
        least_duration: row.least_duration,
        most_duration: row.most_duration,
        delay: row.delay,
        temporal_mask: unroll::with_loop(k, m, q, temporal),
        data_mask: unroll::mask(k, m, row.data_mask),
    }
}

// Activity row a by its round, where each has m activities; zeros where there is none.
fn activity_by_round(s: &[u8], a: u8, m: u8) -> ActivityRow
    requires { m ≡ (page s.now).plain.activities }
    ensures { result ≡ activity_row_of (model s.now) a }
{
    if unroll::in_all(page::rounds(s), m) <= a {
        return ActivityRow {
            thread: Thread(0),
            least_duration: 0,
            most_duration: 0,
            delay: 0,
            temporal_mask: 0,
            data_mask: 0,
        };
    }
    let place = unroll::place(a, m);
    let k = unroll::round(a, m);
    let q = page::loop_byte(s, place);
    moved_activity(page::activity_row(s, place), page::threads(s), m, k, q)
}

// Activity row a, of any bytes; zeros where there is none. A row of round 0 that is all there is read at once, for the speed
// that `thread_row` tells of.
pub fn activity_row(s: &[u8], a: Activity) -> ActivityRow
    ensures { result ≡ activity_row_of (model s.now) a.0 }
{
    let m = page::activities(s);
    if a.0 < m && a.0 < unroll::in_all(page::rounds(s), m) {
        let at = page::activity_place(s, a.0);
        if at + 15 <= s.len() {
            return page::activity_whole(s, at);
        }
    }
    activity_by_round(s, a.0, m)
}

// The thread that owns activity a, of any bytes; thread 0 where there is none.
pub fn owner(s: &[u8], a: Activity) -> Thread
    ensures { result.0 ≡ (model s.now).thread a.0 }
{
    let m = page::activities(s);
    if unroll::in_all(page::rounds(s), m) <= a.0 {
        return Thread(0);
    }
    let one = page::owner(s, unroll::place(a.0, m));
    Thread(unroll::number(unroll::round(a.0, m), page::threads(s), one))
}

// The width of activity a, the same in every round, of any bytes; 0 where there is none.
pub fn width(s: &[u8], a: Activity) -> u8
    ensures { result ≡ (model s.now).width a.0 }
{
    let m = page::activities(s);
    if unroll::in_all(page::rounds(s), m) <= a.0 {
        return 0;
    }
    page::width(s, unroll::place(a.0, m))
}

// ---- rule 12, of a choice or a plan

// Rule 12 of thread j, by its number among all: "release or period outside the model's range".
pub(crate) fn in_range(s: &[u8], j: u8, x: Timing) -> bool
    ensures { result ≡ timing_holds (thread_row_of (model s.now) j) x }
{
    let range = thread_row(s, Thread(j));
    form::within(range.least_release, range.most_release, x.release)
        && form::within(range.least_period, range.most_period, x.period)
}

// ---- the form rules

// "The model is tried first, in list order": rules 1 to 4 and 51, then those of the rows. Answers the counts.
pub fn read(s: &[u8]) -> Result<Sizes, Refusal>
    ensures { model_read_numbers result ≡ answer (first_break (model_form s.now)) (sizes_of (model s.now)) }
{
    rules::head(s)?;
    rules::row_rules(s)?;
    Ok(counts(s))
}
