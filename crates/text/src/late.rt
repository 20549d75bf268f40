// The lines of the report of lateness: "activity and figure by line", with a minus sign or "printed as a dash".
ghost use Rattle.std.specs.Prelude.{◌≡◌, ◌+◌, ◌*◌, ◌≤◌, pos, length, get_or};
ghost use Rattle.schedule.specs.Bounded.{chain};
ghost use Rattle.schedule.specs.Numbers.{run_numbers};
ghost use Rattle.text.specs.Wrote.{HasRoom, Wrote};
ghost use Rattle.text.specs.Rows.{lines_of, row_of, minus, row_end, row_line, late_text};

use crate::{Writer, decimal_length};
use schedule::RunVerdict;

// "for 43 too": how many lines there are before the last one.
pub(crate) fn line_count(answer: RunVerdict, activities: u8) -> u32
    ensures { (result ≡ lines_of (run_numbers answer) activities) × (result ≤ 255) }
{
    let filled = numbers::fills(answer);
    if filled { activities as u32 } else { 0 }
}

// ---- a row

// What is printed of a figure: "a dash", or the sign and the size.
#[derive(Clone, Copy)]
enum Row {
    Dash,
    Figure { negative: bool, size: u32 },
}

// "An activity whose thread has no period gets −2147483648, printed as a dash".
fn row_of(figure: i32) -> Row
    ensures { result ≡ row_of figure }
{
    if numbers::is_dash(figure) {
        Row::Dash
    } else {
        Row::Figure {
            negative: figure < 0,
            size: figure.unsigned_abs(),
        }
    }
}

// The figure of an activity. One that is not there counts as 0.
fn figure_at(rows: &[i32], a: u32) -> i32
    ensures { result ≡ get_or rows.now a (pos 0) }
{
    rows.get(a as usize).copied().unwrap_or(0)
}

// The row of an activity.
fn row_at(rows: &[i32], a: u32) -> Row
    ensures { result ≡ row_of (get_or rows.now a (pos 0)) }
{
    row_of(figure_at(rows, a))
}

// A minus sign, or none.
fn minus(negative: bool) -> &'static [u8]
    ensures sign { result.now ≡ minus negative }
    ensures within { length result.now ≤ 1 }
{
    if negative { b"-" } else { b"" }
}

// ---- lengths
//
// The rows are written whole or not at all, so their length is measured before a byte is written.

// The length of a row with the end of its line.
fn row_length(row: Row) -> usize
    ensures { (result ≡ length (row_end row)) × (result ≤ 12) }
{
    match row {
        Row::Dash => 2,
        Row::Figure { negative, size } => minus(negative).len() + decimal_length(size) + 1,
    }
}

// The length of the lines of so many activities.
pub(crate) fn lines_length(rows: &[i32], count: u32) -> usize
    requires { count ≤ 255 }
    ensures { (result ≡ length (chain count (late_text rows.now))) × (result ≤ 23 * count) }
{
    let mut n: usize = 0;
    for a in 0..count {
        n += decimal_length(a) + 1 + row_length(row_at(rows, a));
    }
    n
}

// ---- writing

impl Writer<'_> {
    // A row with the end of its line.
    fn put_row(&mut self, row: Row)
        requires { HasRoom self.old (row_end row) }
        ensures { Wrote self.old (row_end row) self.new }
    {
        match row {
            Row::Dash => self.put(b"-\n"),
            Row::Figure { negative, size } => {
                self.put(minus(negative));
                self.put_number(size, b'\n');
            }
        }
    }

    // "activity and figure"
    fn put_row_line(&mut self, a: u32, row: Row)
        requires { HasRoom self.old (row_line a row) }
        ensures { Wrote self.old (row_line a row) self.new }
    {
        self.put_number(a, b' ');
        self.put_row(row);
    }

    // The lines of so many activities.
    pub(crate) fn put_rows(&mut self, rows: &[i32], count: u32)
        requires { HasRoom self.old (chain count (late_text rows.now)) }
        ensures { Wrote self.old (chain count (late_text rows.now)) self.new }
    {
        for a in 0..count {
            self.put_row_line(a, row_at(rows, a));
        }
    }
}
