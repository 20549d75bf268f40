// The lines that gridcheck, gridrun and gridlate print, made as bytes in a lent buffer: whole where they fit, else nothing.
// Their length is found first; then every part is written behind the one before it.
#![tactic(auto)]

ghost use Rattle.std.specs.Prelude.{◌≡◌, ◌+◌, ◌*◌, ◌/◌, ◌%◌, ◌^◌, ◌≤◌, ◌<◌, length};
ghost use Rattle.schedule.specs.Bounded.{chain, total};
ghost use Rattle.schedule.specs.Plan;
ghost use Rattle.schedule.specs.Numbers.{refusal_numbers, verdict_numbers, run_numbers};
ghost use Rattle.schedule.specs.Lines.{decimal, hex, hex_digit, three, check_lines, tick_line, run_lines, late_lines};
ghost use Rattle.text.specs.Printed.{leaves, printed};
ghost use Rattle.text.specs.Said.{refusal_said, verdict_said, run_said, verdict_word, line};
ghost use Rattle.text.specs.Wrote.{HasRoom, Wrote};
ghost use Rattle.text.specs.Appended.{Appended, number, ticks_of, word_of, tick_text, tick_length};

use numbers::{hex_digit, refusal_numbers};
use schedule::{Refusal, RunVerdict, Verdict};

mod late;

// The word of a tick.
fn word_at(plan: &[u8], t: u32) -> u32
    requires { t < 65536 }
    ensures { result ≡ word_of plan.now t }
{
    records::plan::word(plan, t as u16)
}

// ---- what is said of an answer

// "`accepted` and the three figures, or `refused` and number, A, B": which of them, and the three numbers.
// A line is the same three numbers either way, so two variants would be no plainer.
#[derive(Clone, Copy)]
struct Said {
    passed: bool,
    a: u32,
    b: u32,
    c: u32,
}

// A refusal's number and its place. Each of the three conversions to Said has a name that tells of which answer it is made, so
// `Said::from` three times would be no plainer.
fn refusal_said(x: Refusal) -> Said
    ensures { result ≡ refusal_said (refusal_numbers x) }
{
    let said = refusal_numbers(x);
    Said {
        passed: false,
        a: said.number,
        b: said.a,
        c: said.b,
    }
}

// The figures of an accepted check, or its refusal.
fn verdict_said(v: Verdict) -> Said
    ensures { result ≡ verdict_said (verdict_numbers v) }
{
    match v {
        Ok(f) => Said {
            passed: true,
            a: f.usage,
            b: f.capacity,
            c: f.makespan,
        },
        Err(x) => refusal_said(x),
    }
}

// The figures of an accepted run, or its refusal.
fn run_said(v: RunVerdict) -> Said
    ensures { result ≡ run_said (run_numbers v) }
{
    verdict_said(v.map(|w| w.figures))
}

// ` accepted ` or ` refused `.
fn verdict_word(passed: bool) -> &'static [u8]
    ensures word { result.now ≡ verdict_word passed }
    ensures within { length result.now ≤ 10 }
{
    if passed { b" accepted " } else { b" refused " }
}

// "on success a line for each tick": how many such lines there are.
fn ticks(answer: RunVerdict, plan: &[u8]) -> u32
    ensures { (result ≡ ticks_of (run_numbers answer) plan.now) × (result < 65536) }
{
    match answer {
        Ok(_) => {
            let sizes = records::plan::counts(plan);
            sizes.horizon as u32
        }
        Err(_) => 0,
    }
}

// ---- lengths
//
// A text is written whole or not at all, so its length is measured before a byte is written: each text has a length here and a
// writing below.

// How many decimal digits a number has. The loop goes on while digits are left, so it is no range; the library's logarithm has
// none of 0, and would be no plainer.
fn decimal_length(n: u32) -> usize
    ensures { (result ≡ length (decimal n)) × (result ≤ 10) }
{
    let mut k: usize = 1;
    let mut rest = n;
    while 10 <= rest {
        rest = rest / 10;
        k += 1;
    }
    k
}

// The length of three numbers, each with the byte that ends it.
fn three_length(a: u32, b: u32, c: u32) -> usize
    ensures { (result ≡ length (three a b c)) × (result ≤ 33) }
{
    decimal_length(a) + decimal_length(b) + decimal_length(c) + 3
}

// The length of a line that begins with a name.
fn line_length(name: &[u8], said: Said) -> usize
    ensures { (result ≡ length (line name.now said)) × (result ≤ length name.now + 43) }
{
    name.len() + verdict_word(said.passed).len() + three_length(said.a, said.b, said.c)
}

// The length of the lines of h ticks: a tick's number, a space, 8 digits and the end of the line.
fn ticks_length(h: u32) -> usize
    requires { h < 65536 }
    ensures { (result ≡ total h tick_length) × (result ≤ 20 * h) }
{
    let mut n: usize = 0;
    for t in 0..h {
        n += decimal_length(t) + 10;
    }
    n
}

// ---- storing at a position; the answer is the position behind what was stored
//
// One function makes every printed digit, as the proofreaders ask (`numbers::hex_digit`), so no `write!` makes them.

// A number in decimal, from the last digit back to the first. So it is no method of the writer, which writes front to back.
fn store_decimal(out: &mut [u8], at: usize, n: u32) -> usize
    requires { at + length (decimal n) ≤ length out.old }
    ensures { Appended at (decimal n) out.old result out.new }
{
    let k = decimal_length(n);
    let mut rest = n;
    for i in (0..k).rev() {
        out[at + i] = hex_digit((rest % 10) as u8);
        rest /= 10;
    }
    at + k
}

// The hexadecimal digit of 4 bits of a word, from a bit on.
fn digit_from(word: u32, bit: u32) -> u8
    requires { bit < 32 }
    ensures { result ≡ hex_digit (word / 2 ^ bit % 16) }
{
    hex_digit(((word >> bit) & 15) as u8)
}

// "the word as 8 lowercase hexadecimal digits", from that of its highest 4 bits on. As a method of the writer it would be no
// plainer: a slice of one byte would be copied for each digit.
fn store_hex(out: &mut [u8], at: usize, word: u32) -> usize
    requires { at + 8 ≤ length out.old }
    ensures { Appended at (hex 8 word) out.old result out.new }
{
    for i in 0..8u32 {
        out[at + i as usize] = digit_from(word, 28 - 4 * i);
    }
    at + 8
}

// ---- writing

// A lent buffer, and how many of its bytes are written. What is written next stands behind them.
#[derive(Drop)]
struct Writer<'a> {
    out: &'a mut [u8],
    at: usize,
}

impl Writer<'_> {
    // The bytes of s.
    fn put(&mut self, s: &[u8])
        requires { HasRoom self.old s.now }
        ensures { Wrote self.old s.now self.new }
    {
        let next = self.at + s.len();
        self.out[self.at..next].copy_from_slice(s);
        self.at = next;
    }

    // A number in decimal, and the byte that ends it.
    fn put_number(&mut self, n: u32, end: u8)
        requires { HasRoom self.old (number n end) }
        ensures { Wrote self.old (number n end) self.new }
    {
        self.at = store_decimal(self.out, self.at, n);
        self.put(&[end]);
    }

    // "the three figures", or "number, A, B".
    fn put_three(&mut self, a: u32, b: u32, c: u32)
        requires { HasRoom self.old (three a b c) }
        ensures { Wrote self.old (three a b c) self.new }
    {
        self.put_number(a, b' ');
        self.put_number(b, b' ');
        self.put_number(c, b'\n');
    }

    // A line: the name that begins it, the verdict and its three numbers.
    fn put_line(&mut self, name: &[u8], said: Said)
        requires { HasRoom self.old (line name.now said) }
        ensures { Wrote self.old (line name.now said) self.new }
    {
        self.put(name);
        self.put(verdict_word(said.passed));
        self.put_three(said.a, said.b, said.c);
    }

    // "the tick then the word"
    fn put_tick(&mut self, t: u32, word: u32)
        requires { HasRoom self.old (tick_line t word) }
        ensures { Wrote self.old (tick_line t word) self.new }
    {
        self.put_number(t, b' ');
        self.at = store_hex(self.out, self.at, word);
        self.put(b"\n");
    }

    // "a line for each tick", from 0 to h - 1.
    fn put_ticks(&mut self, plan: &[u8], h: u32)
        requires { (h < 65536) × HasRoom self.old (chain h (tick_text plan.now)) }
        ensures { Wrote self.old (chain h (tick_text plan.now)) self.new }
    {
        for t in 0..h {
            self.put_tick(t, word_at(plan, t));
        }
    }
}

// ---- the programs' output
//
// A call answers how many bytes it wrote, and no text is empty, so 0 says that the text does not fit: README's contracts give the
// number (`leaves`, `printed`).

// "prints two lines, the first beginning `plain`, the second `strict`; then `accepted` and the three figures, or
// `refused` and number, A, B". Answers their length; where they do not fit, nothing is written and the answer is 0.
pub fn check_lines(out: &mut [u8], plain: Verdict, strict: Verdict) -> usize
    ensures { leaves result out.new
        ≡ printed (check_lines (verdict_numbers plain) (verdict_numbers strict)) out.old }
{
    let first = verdict_said(plain);
    let second = verdict_said(strict);
    let n = line_length(b"plain", first) + line_length(b"strict", second);
    if out.len() < n {
        return 0;
    }
    let mut writer = Writer { out, at: 0 };
    writer.put_line(b"plain", first);
    writer.put_line(b"strict", second);
    writer.at
}

// "prints on success a line for each tick, the tick then the word as 8 lowercase hexadecimal digits, then `run accepted`
// with the three figures; else only `run refused` with number, A, B". Answers their length; where they do not fit, nothing is
// written and the answer is 0.
pub fn run_lines(out: &mut [u8], answer: RunVerdict, plan: &[u8]) -> usize
    ensures { leaves result out.new
        ≡ printed (run_lines (run_numbers answer) (Plan.plan plan.now)) out.old }
{
    let h = ticks(answer, plan);
    let said = run_said(answer);
    let n = ticks_length(h) + line_length(b"run", said);
    if out.len() < n {
        return 0;
    }
    let mut writer = Writer { out, at: 0 };
    writer.put_ticks(plan, h);
    writer.put_line(b"run", said);
    writer.at
}

// "A program like `gridrun` prints activity and figure by line, for 43 too, then the last line". As many rows as there are
// activities; a row that is not there counts as 0. Answers the length of the lines; where they do not fit, nothing is written and
// the answer is 0.
pub fn late_lines(out: &mut [u8], answer: RunVerdict, activities: u8, rows: &[i32]) -> usize
    ensures { leaves result out.new
        ≡ printed (late_lines (run_numbers answer) activities rows.now) out.old }
{
    let count = late::line_count(answer, activities);
    let said = run_said(answer);
    let n = late::lines_length(rows, count) + line_length(b"run", said);
    if out.len() < n {
        return 0;
    }
    let mut writer = Writer { out, at: 0 };
    writer.put_rows(rows, count);
    writer.put_line(b"run", said);
    writer.at
}
