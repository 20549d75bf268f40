// Both checks, the run, the held view, the splitter, the report, the choice of wrapped records and the edits on the stored cases.
// CASES.md says what each case shows.
//
// data/cases holds how many cases of the checks there are, then for each its model and its plan; then how many cases of
// the run, and for each its model, its choice and the buffer that is lent; then how many cases of the view, and for each
// its model, its plan and the tick; then how many cases of a view that is held, and for each its model, its plan and three
// ticks; then how many cases of the splitter, and for each its input; then how many cases of the report, and for each its
// model, its choice and how many rows are lent; then how many pairs of wrapped records, and for each the two; then how many
// files of them, and for each the file; then how many cases of edits, and for each its model, its plan and how many calls, and
// for each of these which call it is (0 a clear, 1 a mark), the activity and the tick; then how many cases of edits through a
// state, and for each the same, with 2 for an ask for a clear, 3 for an ask for a mark and 4 for a keep, of which the activity
// and the tick are 0. Each record, input and file stands behind its length. These numbers take 4 bytes each, a tick of a view 8,
// big-endian.
//
// For each case a line with its number, then the lines that gridcheck, gridrun or gridlate prints of it; of a run also the
// buffer afterwards, byte by byte in decimal; of a view what its making answers, and at each tick its word, in decimal, or past;
// of the splitter the bytes of the two records; of a report also the list afterwards; of a pair which one stands and of a file
// which record is chosen, from which byte on and how many, or the refusal, and the bytes that are handed back; of edits
// what each call answers and the plan afterwards; of edits through a state, which begins with nothing asked, the same, and of an
// unrefused ask its verdict.
#![tactic(auto)]

ghost use Rattle.std.specs.Prelude.{◌≡◌, ◌≤◌, length};
ghost use Rattle.schedule.specs.Numbers.{word_numbers};
ghost use Rattle.schedule.specs.Streams.{view_word};

use edit_rules::Edited;
use keeps::Call;
use numbers::{refusal_numbers, wrap_number};
use schedule::{Chosen, Numbered, Part, Refusal, Side, Standing, WrapRefused};
use std::fmt::Display;
use std::io::{BufWriter, Read, Write};
use std::{fs, io};

mod keeps;

// Reads into the buffer and answers how many bytes came, which are fewer than it holds where the file ends.
fn read_full<R: Read>(cases: &mut R, buf: &mut [u8]) -> usize
    ensures { result ≤ length buf.new }
{
    match input::fill(cases, buf) {
        Ok(n) => n,
        Err(e) => e.read,
    }
}

// The next number of the file, 0 past its end.
fn next_number<R: Read>(cases: &mut R) -> u32 {
    let mut four = [0u8; 4];
    read_full(cases, &mut four);
    fields::be32(&four, 0)
}

// Reads the next record into the start of the buffer and answers that part; an empty one where the buffer is too short.
fn next_record<'a, R: Read>(cases: &mut R, buf: &'a mut [u8]) -> &'a mut [u8]
    ensures within { length result.now ≤ length buf.old }
    ensures front { result.ref_ptr ≡ buf.entry.ref_ptr }
{
    let n = next_number(cases) as usize;
    if buf.len() < n {
        return &mut buf[..0];
    }
    let came = read_full(cases, &mut buf[..n]);
    &mut buf[..came]
}

// Prints the two lines of a model and a plan. They take at most 97 bytes.
fn print_lines<W: Write>(out: &mut W, model: &[u8], plan: &[u8]) -> io::Result<()> {
    let mut lines = [0u8; 128];
    let n = text::check_lines(
        &mut lines,
        checks::check_plain(model, plan),
        checks::check_strict(model, plan),
    );
    out.write_all(&lines[..n])
}

// Reads the next case of the checks and prints its lines.
fn next_check<R: Read, W: Write>(cases: &mut R, out: &mut W) -> io::Result<()> {
    let mut model = [0u8; 1024];
    let mut plan = [0u8; 17189];
    let model = next_record(cases, &mut model);
    let plan = next_record(cases, &mut plan);
    print_lines(out, model, plan)
}

// What is printed is of other crates, whose types can have no Display here: so there is a function for each.

// Prints the items of a list behind its name.
fn print_list<W: Write, T: Display>(out: &mut W, name: &str, items: &[T]) -> io::Result<()> {
    write!(out, "{name}")?;
    for item in items {
        write!(out, " {item}")?;
    }
    writeln!(out)
}

// Prints the lines of a model and a choice, and the buffer that the run leaves. The lines take at most 56,264 bytes.
fn print_run<W: Write>(
    out: &mut W,
    model: &[u8],
    choice: &[u8],
    plan: &mut [u8],
) -> io::Result<()> {
    let answer = run::run(model, choice, plan);
    let mut lines = [0u8; 60000];
    let n = text::run_lines(&mut lines, answer, plan);
    out.write_all(&lines[..n])?;
    print_list(out, "buffer", plan)
}

// Reads the next case of the run and prints its lines and its buffer.
fn next_run<R: Read, W: Write>(cases: &mut R, out: &mut W) -> io::Result<()> {
    let mut model = [0u8; 1024];
    let mut choice = [0u8; 256];
    let mut plan = [0u8; 17189];
    let model = next_record(cases, &mut model);
    let choice = next_record(cases, &mut choice);
    let plan = next_record(cases, &mut plan);
    print_run(out, model, choice, plan)
}

// The next tick of the file.
fn next_tick<R: Read>(cases: &mut R) -> usize {
    let high = next_number(cases) as usize;
    let low = next_number(cases) as usize;
    high * 4294967296 + low
}

// Prints a refusal by its numbers.
fn print_refused<W: Write>(out: &mut W, x: Refusal) -> io::Result<()> {
    print_numbers(out, refusal_numbers(x))
}

// Prints a refusal's number, A and B.
fn print_numbers<W: Write>(out: &mut W, said: Numbered) -> io::Result<()> {
    writeln!(out, "refused {} {} {}", said.number, said.a, said.b)
}

// Prints what the making of a view answers.
fn print_making<W: Write>(out: &mut W, made: Result<(), Refusal>) -> io::Result<()> {
    match made {
        Ok(()) => writeln!(out, "made"),
        Err(why) => print_refused(out, why),
    }
}

// Prints what a view gives.
fn print_word<W: Write>(out: &mut W, found: Option<u32>) -> io::Result<()> {
    match found {
        Some(word) => writeln!(out, "word {word}"),
        None => writeln!(out, "past"),
    }
}

// Reads the next case of the view and prints what its making answers and what it gives.
fn next_view<R: Read, W: Write>(cases: &mut R, out: &mut W) -> io::Result<()> {
    let mut model = [0u8; 1024];
    let mut plan = [0u8; 17189];
    let model = next_record(cases, &mut model);
    let plan = next_record(cases, &mut plan);
    let t = next_tick(cases);
    print_making(out, view::refusal(model, plan))?;
    print_word(out, view::word_at(model, plan, t))
}

// What a view gives at three ticks.
#[derive(Clone, Copy)]
struct Asked {
    first: Option<u32>,
    second: Option<u32>,
    third: Option<u32>,
}

// Holds one view over a model and a plan, and asks it three times.
fn ask(model: &[u8], plan: &[u8], first: usize, second: usize, third: usize) -> Asked
    ensures { (word_numbers result.first ≡ view_word model.now plan.now first)
        × (word_numbers result.second ≡ view_word model.now plan.now second)
        × (word_numbers result.third ≡ view_word model.now plan.now third) }
{
    let held = view::over(model, plan);
    Asked {
        first: view::word(held, first),
        second: view::word(held, second),
        third: view::word(held, third),
    }
}

// Prints what a view gives at three ticks.
fn print_words<W: Write>(out: &mut W, asked: Asked) -> io::Result<()> {
    print_word(out, asked.first)?;
    print_word(out, asked.second)?;
    print_word(out, asked.third)
}

// Reads the next case of a view that is held, and prints the refusal of its making, as the call for it tells, and what the view
// gives at three ticks.
fn next_held<R: Read, W: Write>(cases: &mut R, out: &mut W) -> io::Result<()> {
    let mut model = [0u8; 1024];
    let mut plan = [0u8; 17189];
    let model = next_record(cases, &mut model);
    let plan = next_record(cases, &mut plan);
    let first = next_tick(cases);
    let second = next_tick(cases);
    let third = next_tick(cases);
    print_making(out, view::refusal(model, plan))?;
    print_words(out, ask(model, plan, first, second, third))
}

// Prints the two records of an input.
fn print_split<W: Write>(out: &mut W, input: &[u8]) -> io::Result<()> {
    print_list(out, "first", streams::first_record(input))?;
    print_list(out, "second", streams::second_record(input))
}

// Reads the next case of the splitter and prints its two records.
fn next_split<R: Read, W: Write>(cases: &mut R, out: &mut W) -> io::Result<()> {
    let mut input = [0u8; 256];
    let input = next_record(cases, &mut input);
    print_split(out, input)
}

// The rows that are lent, all different: 100, 101, 102, ..
fn rows_before() -> [i32; 128] {
    let mut rows = [0i32; 128];
    for (a, row) in rows.iter_mut().enumerate() {
        *row = 100 + a as i32;
    }
    rows
}

// Prints the lines of a model and a choice, and the list that the report leaves. The lines take at most 366 bytes.
fn print_report<W: Write>(
    out: &mut W,
    model: &[u8],
    choice: &[u8],
    rows: &mut [i32],
) -> io::Result<()> {
    let answer = report::lateness(model, choice, rows);
    let sizes = records::model::counts(model);
    let mut lines = [0u8; 512];
    let n = text::late_lines(&mut lines, answer, sizes.activities, rows);
    out.write_all(&lines[..n])?;
    print_list(out, "rows", rows)
}

// Reads the next case of the report and prints its lines and its list; at most 128 rows are lent.
fn next_report<R: Read, W: Write>(cases: &mut R, out: &mut W) -> io::Result<()> {
    let mut model = [0u8; 1024];
    let mut choice = [0u8; 256];
    let model = next_record(cases, &mut model);
    let choice = next_record(cases, &mut choice);
    let lent = next_number(cases).min(128) as usize;
    let mut rows = rows_before();
    print_report(out, model, choice, &mut rows[..lent])
}

// Prints a refusal of wrapped records at a record.
fn print_wrap_refused<W: Write>(out: &mut W, x: WrapRefused) -> io::Result<()> {
    writeln!(out, "refused {} {} 0", wrap_number(x.why), x.index)
}

// Prints which of two wrapped records stands.
fn print_standing<W: Write>(out: &mut W, found: Standing) -> io::Result<()> {
    match found {
        Ok(Side::First) => writeln!(out, "stands first"),
        Ok(Side::Second) => writeln!(out, "stands second"),
        Err(x) => print_wrap_refused(out, x),
    }
}

// Prints the number of a record, its first byte and how many it has.
fn print_part<W: Write>(out: &mut W, x: Part) -> io::Result<()> {
    writeln!(out, "chosen {} {} {}", x.index, x.offset, x.length)
}

// Prints which record of a file is chosen.
fn print_chosen<W: Write>(out: &mut W, found: Chosen) -> io::Result<()> {
    match found {
        Ok(x) => print_part(out, x),
        Err(x) => print_wrap_refused(out, x),
    }
}

// Reads the next pair of wrapped records and prints which one stands and what is handed back.
fn next_pair<R: Read, W: Write>(cases: &mut R, out: &mut W) -> io::Result<()> {
    let mut first = [0u8; 1024];
    let mut second = [0u8; 1024];
    let first = next_record(cases, &mut first);
    let second = next_record(cases, &mut second);
    print_standing(out, exchange::which_stands(first, second))?;
    print_list(out, "part", exchange::stands(first, second))
}

// Reads the next file of wrapped records and prints which one is chosen and what is handed back.
fn next_file<R: Read, W: Write>(cases: &mut R, out: &mut W) -> io::Result<()> {
    let mut file = [0u8; 1024];
    let file = next_record(cases, &mut file);
    print_chosen(out, exchange::choose(file))?;
    print_list(out, "part", exchange::chosen(file))
}

// Prints what a mark, a clear or a keep answers: done, or the numbers of its refusal.
fn print_done<W: Write>(out: &mut W, answer: Result<(), Numbered>) -> io::Result<()> {
    match answer {
        Ok(()) => writeln!(out, "done"),
        Err(said) => print_numbers(out, said),
    }
}

// Reads the next call, a mark or a clear, and makes it.
fn next_call<R: Read>(cases: &mut R, model: &[u8], plan: &mut [u8]) -> Edited {
    let call = Call::from(next_number(cases));
    let activity = next_number(cases);
    let tick = next_number(cases);
    if matches!(call, Call::Mark) {
        edits::mark(model, plan, activity, tick)
    } else {
        edits::clear(model, plan, activity, tick)
    }
}

// Reads the next calls on a plan, as many as the file says, and prints what each answers, and the plan afterwards.
fn next_calls<R: Read, W: Write>(
    cases: &mut R,
    out: &mut W,
    model: &[u8],
    plan: &mut [u8],
) -> io::Result<()> {
    let count = next_number(cases);
    for _ in 0..count {
        let answer = next_call(cases, model, plan);
        print_done(out, answer.map_err(edits::reason_numbers))?;
    }
    print_list(out, "plan", plan)
}

// Reads the next case of edits and prints it.
fn next_edits<R: Read, W: Write>(cases: &mut R, out: &mut W) -> io::Result<()> {
    let mut model = [0u8; 1024];
    let mut plan = [0u8; 17189];
    let model = next_record(cases, &mut model);
    let plan = next_record(cases, &mut plan);
    next_calls(cases, out, model, plan)
}

// Reads how many cases of a kind there are, then each by what reads and prints the next one, and prints it behind its number.
fn all<R: Read, W: Write, F>(cases: &mut R, out: &mut W, next: F) -> io::Result<()>
where
    F: Fn(&mut R, &mut W) -> io::Result<()>,
    requires { F.IsAlwaysCallable next }
{
    let count = next_number(cases);
    for number in 0..count {
        writeln!(out, "{number}")?;
        next(cases, out)?;
    }
    Ok(())
}

fn main(rt: HostRuntime) -> io::Result<()> {
    let file = fs::read(&rt, "cases")?;
    let mut cases = file.as_slice();
    let mut out = BufWriter::new(rt.alloc(), rt.stdout())?;
    all(&mut cases, &mut out, next_check)?;
    all(&mut cases, &mut out, next_run)?;
    all(&mut cases, &mut out, next_view)?;
    all(&mut cases, &mut out, next_held)?;
    all(&mut cases, &mut out, next_split)?;
    all(&mut cases, &mut out, next_report)?;
    all(&mut cases, &mut out, next_pair)?;
    all(&mut cases, &mut out, next_file)?;
    all(&mut cases, &mut out, next_edits)?;
    all(&mut cases, &mut out, keeps::next_case)?;
    out.flush()
}
