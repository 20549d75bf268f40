// The rows of the report.
ghost use Rattle.std.specs.Prelude.{◌≡◌, ◌++◌, ◌≤◌, ◌<◌, length, drop};
ghost use Rattle.schedule.specs.Bounded.{table};
ghost use Rattle.schedule.specs.Model.{model};
ghost use Rattle.schedule.specs.Choice.{choice};
ghost use Rattle.schedule.specs.Report.{lateness, report_row, rows_needed};
ghost use Rattle.report.specs.Tables.{row_from, Small, HasEnds};

use tables::ByActivity;
use tables::columns::Column;

// The figure of an activity, which 32 bits hold.
fn figure(release: u32, period: u32, end: u32) -> i32
    requires { (release < 65536) × (period < 65536) × (end < 65536) }
    ensures { result ≡ lateness release period end }
{
    ticks::lateness(release, period, end) as i32
}

// A row for each of n activities, from tables of what their threads chose and of their ends. Three tables and no rows: two are
// filled from columns of the records (`tables::columns::table` is public), and the machine hands the third out; n bounds all three.
fn fill(n: usize, releases: &ByActivity, periods: &ByActivity, ends: &ByActivity, list: &mut [i32])
    requires { (n ≤ 32) × (n ≤ length list.old) × Small n releases.now periods.now ends.now }
    ensures { list.new
        ≡ table n (row_from releases.now periods.now ends.now) ++ drop n list.old }
{
    for a in 0..n {
        list[a] = figure(releases[a], periods[a], ends[a]);
    }
}

// "for each activity the deadline less its end"; "rows past the last activity stay untouched".
pub(crate) fn write(s: &[u8], q: &[u8], ends: &ByActivity, list: &mut [i32])
    requires { HasEnds (model s.now) (choice q.now) ends.now × (rows_needed ≤ length list.old) }
    ensures { list.new
        ≡ table (model s.now).activities (report_row (model s.now) (choice q.now))
        ++ drop (model s.now).activities list.old }
{
    let sizes = records::model::counts(s);
    let releases = tables::columns::table(Column::ChosenRelease, s, q);
    let periods = tables::columns::table(Column::ChosenPeriod, s, q);
    fill(sizes.activities as usize, &releases, &periods, ends, list);
}
