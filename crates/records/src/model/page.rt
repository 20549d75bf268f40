// A page as the model record's bytes say it: "cores c (1 byte, 1..8), threads n (1 byte, 1..8), activities m (1 byte, 1..32),
// horizon H (2 bytes, 1..4096)", from version 2 on the rounds i (1 byte); "Then n thread rows of 10 bytes .. Then m activity
// rows of 15 bytes", from version 2 on with a loop byte behind each, and from version 3 on with a width behind that. Of any
// bytes.
ghost use Rattle.std.specs.Prelude.{◌≡◌, not, ◌+◌, ◌≤◌, length};
ghost use Rattle.schedule.specs.Fields.{field};
ghost use Rattle.schedule.specs.Model.{page, model_length, thread_row, activity_row};
ghost use Rattle.records.specs.Rows.{oldest, older, sizes_of, thread_row_of, thread_fields, activity_row_of, activity_fields};

use crate::model::{ActivityRow, Sizes, Thread, ThreadRow};

// The version byte: it stays a number, as the format and the definitions compare it.
fn version(s: &[u8]) -> u8
    ensures { result ≡ field s.now 4 1 }
{
    fields::byte(s, 4)
}

// The counts of one round.
pub(crate) fn counts(s: &[u8]) -> Sizes
    ensures { result ≡ sizes_of (page s.now).plain }
{
    Sizes {
        cores: fields::byte(s, 5),
        threads: fields::byte(s, 6),
        activities: fields::byte(s, 7),
        horizon: fields::be16(s, 8),
    }
}

// How many threads one round has.
pub(crate) fn threads(s: &[u8]) -> u8
    ensures { result ≡ (page s.now).plain.threads }
{
    fields::byte(s, 6)
}

// How many activities one round has.
pub(crate) fn activities(s: &[u8]) -> u8
    ensures { result ≡ (page s.now).plain.activities }
{
    fields::byte(s, 7)
}

// Whether activity rows have a loop byte: "Version 1 is one round without loops".
pub(crate) fn has_loops(s: &[u8]) -> bool
    ensures { result ≡ not (oldest s.now) }
{
    version(s) != 1
}

// Whether activity rows have a width: "older models have width 1".
pub(crate) fn has_widths(s: &[u8]) -> bool
    ensures { result ≡ not (older s.now) }
{
    let version = version(s);
    version != 1 && version != 2
}

// How many rounds there are: "Version 1 is one round".
pub(crate) fn rounds(s: &[u8]) -> u8
    ensures { result ≡ (page s.now).rounds }
{
    if version(s) == 1 {
        1
    } else {
        fields::byte(s, 10)
    }
}

// ---- where the rows stand

// Where thread row j stands in a record of that version.
fn thread_at(version: u8, j: u8) -> usize
    ensures value { result ≡ thread_row version j }
    ensures most { result ≤ 2561 }
{
    if version == 1 {
        10 + 10 * (j as usize)
    } else {
        11 + 10 * (j as usize)
    }
}

// Where activity row a stands in a record of that version, behind the rows of that many threads.
fn activity_at(version: u8, threads: u8, a: u8) -> usize
    ensures value { result ≡ activity_row version threads a }
    ensures most { result ≤ 6896 }
{
    let first = thread_at(version, threads);
    if version == 1 {
        first + 15 * (a as usize)
    } else if version == 2 {
        first + 16 * (a as usize)
    } else {
        first + 17 * (a as usize)
    }
}

// "Length 10 + 10n + 15m", 11 + 10n + 16m, and 11 + 10n + 17m: where one more activity row would begin.
pub(crate) fn formula(s: &[u8], one: Sizes) -> u32
    ensures { result ≡ model_length (field s.now 4 1) one.threads one.activities }
{
    activity_at(version(s), one.threads, one.activities) as u32
}

// ---- the rows

// Where thread row j stands.
pub(crate) fn thread_place(s: &[u8], j: u8) -> usize
    ensures value { result ≡ thread_row (field s.now 4 1) j }
    ensures most { result ≤ 2561 }
{
    thread_at(version(s), j)
}

// A thread row that is all there, read at once. Tried with `thread_row` and `activity_row` alone: up to 6 % more instructions
// of a call on a page of 4096 ticks, and up to 23 % more on one of 8.
pub(crate) fn thread_whole(s: &[u8], at: usize) -> ThreadRow
    requires { at + 10 ≤ length s.now }
    ensures { result ≡ thread_fields s.now at }
{
    ThreadRow {
        least_period: fields::paired(s[at], s[at + 1]),
        most_period: fields::paired(s[at + 2], s[at + 3]),
        least_release: fields::paired(s[at + 4], s[at + 5]),
        most_release: fields::paired(s[at + 6], s[at + 7]),
        priority: fields::paired(s[at + 8], s[at + 9]),
    }
}

// Thread row j.
pub(crate) fn thread_row(s: &[u8], j: u8) -> ThreadRow
    ensures { result ≡ thread_row_of (page s.now).plain j }
{
    let at = thread_place(s, j);
    ThreadRow {
        least_period: fields::be16(s, at),
        most_period: fields::be16(s, at + 2),
        least_release: fields::be16(s, at + 4),
        most_release: fields::be16(s, at + 6),
        priority: fields::be16(s, at + 8),
    }
}

// Where activity row a stands.
pub(crate) fn activity_place(s: &[u8], a: u8) -> usize
    ensures value { result ≡ activity_row (field s.now 4 1) (page s.now).plain.threads a }
    ensures most { result ≤ 6896 }
{
    activity_at(version(s), threads(s), a)
}

// An activity row whose first 15 bytes are all there, read at once, without its loop byte and its width: for the speed that
// `thread_whole` tells of.
pub(crate) fn activity_whole(s: &[u8], at: usize) -> ActivityRow
    requires { at + 15 ≤ length s.now }
    ensures { result ≡ activity_fields s.now at }
{
    ActivityRow {
        thread: Thread(s[at]),
        least_duration: fields::paired(s[at + 1], s[at + 2]),
        most_duration: fields::paired(s[at + 3], s[at + 4]),
        delay: fields::paired(s[at + 5], s[at + 6]),
        temporal_mask: fields::joined(s[at + 7], s[at + 8], s[at + 9], s[at + 10]),
        data_mask: fields::joined(s[at + 11], s[at + 12], s[at + 13], s[at + 14]),
    }
}

// Activity row a, without its loop byte and its width.
pub(crate) fn activity_row(s: &[u8], a: u8) -> ActivityRow
    ensures { result ≡ activity_row_of (page s.now).plain a }
{
    let at = activity_place(s, a);
    if at + 15 <= s.len() {
        return activity_whole(s, at);
    }
    ActivityRow {
        thread: Thread(fields::byte(s, at)),
        least_duration: fields::be16(s, at + 1),
        most_duration: fields::be16(s, at + 3),
        delay: fields::be16(s, at + 5),
        temporal_mask: fields::be32(s, at + 7),
        data_mask: fields::be32(s, at + 11),
    }
}

// The thread number of activity row a.
pub(crate) fn owner(s: &[u8], a: u8) -> u8
    ensures { result ≡ (page s.now).plain.thread a }
{
    fields::byte(s, activity_place(s, a))
}

// The loop byte of activity row a: version 1 has none.
pub(crate) fn loop_byte(s: &[u8], a: u8) -> u8
    ensures { result ≡ (page s.now).loop a }
{
    if has_loops(s) {
        fields::byte(s, activity_place(s, a) + 15)
    } else {
        unroll::NO_LOOP
    }
}

// The width of activity row a, 1 where rows have none.
pub(crate) fn width(s: &[u8], a: u8) -> u8
    ensures { result ≡ (page s.now).plain.width a }
{
    if has_widths(s) {
        fields::byte(s, activity_place(s, a) + 16)
    } else {
        1
    }
}
