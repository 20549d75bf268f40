// "Withdrawn pages" (02): models wrapped for exchange. Which of two wrapped records stands, and which record of a file; the one
// that stands is handed back as the caller's own bytes. Nothing is copied, and each model is read once.
#![tactic(auto)]

ghost use Rattle.std.specs.Prelude.{◌≡◌, cond, ◌+◌, ◌≤◌, length, take, drop};
ghost use Rattle.schedule.specs.Rule.{first_break};
ghost use Rattle.schedule.specs.Answers.{answer};
ghost use Rattle.schedule.specs.Exchange.{series, issue, withdrawn, wrapped, unbroken, wrapper_rule, series_rule, copy_rule};
ghost use Rattle.schedule.specs.Exchange.{record_rules, outranks, pair_answer, pair_bytes, HandsBack, record_end};
ghost use Rattle.schedule.specs.Exchange.{file_answer, file_bytes, handed_from};
ghost use Rattle.schedule.specs.Lent.{LiesAt};
ghost use Rattle.schedule.specs.Model.{model_form};
ghost use Rattle.schedule.specs.Numbers.{standing_numbers, chosen_numbers};
ghost use Rattle.exchange.specs.Compares.{compared_numbers};

use records::model;
use schedule::{Chosen, Part, Side, Standing, WrapRefusal, WrapRefused};

// ---- one record: "4-byte length, version byte 1, series (4 bytes), issue (2), withdrawn (0 or 1), then the model record"

// How many bytes stand before the model.
const WRAPPER: usize = 12;

// The series, four bytes behind the length and the version.
fn series(w: &[u8]) -> u32
    ensures { result ≡ series w.now }
{
    fields::be32(w, 5)
}

// The issue, two bytes behind the series.
fn issue(w: &[u8]) -> u16
    ensures { result ≡ issue w.now }
{
    fields::be16(w, 9)
}

// The flag behind the issue: 1 of a withdrawn record, 0 of a live one.
fn withdrawn(w: &[u8]) -> u8
    ensures { result ≡ withdrawn w.now }
{
    fields::byte(w, 11)
}

// The model in a wrapped record is not refused.
fn model_holds(w: &[u8]) -> bool
    requires { 12 ≤ length w.now }
    ensures { result ≡ unbroken (first_break (model_form (wrapped w.now))) }
{
    model::read(&w[WRAPPER..]).is_ok()
}

// 54 "a wrapper whose length .., version or flag is wrong or whose model is refused"; its length is the bytes given. Test by test,
// since the model may be read only where there are 12 bytes.
fn wrapper_holds(w: &[u8]) -> bool
    ensures { result ≡ (wrapper_rule w.now).test 0 0 }
{
    if w.len() < WRAPPER {
        return false;
    }
    if fields::be32(w, 0) as usize != w.len() {
        return false;
    }
    if fields::byte(w, 4) != 1 {
        return false;
    }
    if 1 < withdrawn(w) {
        return false;
    }
    model_holds(w)
}

// ---- one record beside the one standing so far

// 55 "two series"
fn series_holds(x: &[u8], w: &[u8]) -> bool
    ensures { result ≡ (series_rule x.now w.now).test 0 0 }
{
    series(w) == series(x)
}

// 56 "equal series, issue and flag with other bytes"; behind 55 the series is equal already.
fn copy_holds(x: &[u8], w: &[u8]) -> bool
    ensures { result ≡ (copy_rule x.now w.now).test 0 0 }
{
    (series(w), issue(w), withdrawn(w)) != (series(x), issue(x), withdrawn(x)) || w == x
}

// "the higher issue stands; at equal issue the withdrawn one stands over the live one"
fn outranks(x: &[u8], y: &[u8]) -> bool
    ensures { result ≡ outranks x.now y.now }
{
    (issue(y), withdrawn(y)) < (issue(x), withdrawn(x))
}

// Record w beside x, the one standing so far: 54, "then 55 .. then 56", then whether it outranks that one.
fn compare(x: &[u8], w: &[u8]) -> Result<bool, WrapRefusal>
    ensures { compared_numbers result
        ≡ answer (first_break (record_rules x.now w.now)) (outranks w.now x.now) }
{
    if !wrapper_holds(w) {
        return Err(WrapRefusal::Wrapper);
    }
    if !series_holds(x, w) {
        return Err(WrapRefusal::Series);
    }
    if !copy_holds(x, w) {
        return Err(WrapRefusal::Copy);
    }
    Ok(outranks(w, x))
}

// ---- a pair

// Which of two wrapped records stands, "the first where both are equal".
pub fn which_stands(first: &[u8], second: &[u8]) -> Standing
    ensures { standing_numbers result ≡ pair_answer first.now second.now }
{
    if !wrapper_holds(first) {
        return Err(WrapRefused {
            why: WrapRefusal::Wrapper,
            index: 0,
        });
    }
    match compare(first, second) {
        Ok(true) => Ok(Side::Second),
        Ok(false) => Ok(Side::First),
        Err(why) => Err(WrapRefused { why, index: 1 }),
    }
}

// The slice that an answer about a pair names, or an empty part.
fn named<'a>(found: Standing, first: &'a [u8], second: &'a [u8]) -> &'a [u8]
    ensures { HandsBack (standing_numbers found) first.entry second.entry result }
{
    match found {
        Ok(Side::First) => first,
        Ok(Side::Second) => second,
        Err(_) => &first[0..0],
    }
}

// "Hand back the one that stands as the caller's own bytes, the first where both are equal; a refusal hands back an empty part".
pub fn stands<'a>(first: &'a [u8], second: &'a [u8]) -> &'a [u8]
    ensures { (result.now ≡ pair_bytes first.now second.now)
        × HandsBack (pair_answer first.now second.now) first.entry second.entry result }
{
    named(which_stands(first, second), first, second)
}

// ---- a file

// Where the first record of what is left ends: behind as many bytes as its length says, or at the end where that is under 12
// or past it. A byte past the end counts as 0, so fewer than 4 bytes are never a length of 12 or more that lies within them.
fn record_end(rest: &[u8]) -> usize
    ensures { result ≡ record_end rest.now }
{
    let n = rest.len();
    let said = fields::be32(rest, 0) as usize;
    if said < WRAPPER {
        return n;
    }
    if n < said {
        return n;
    }
    said
}

// The record that begins at a place of a file.
fn record_at(file: &[u8], index: usize, offset: usize) -> Part
    requires { offset ≤ length file.now }
    ensures { result ≡ record { index = index; offset = offset; length = record_end (drop offset file.now) } }
{
    Part {
        index,
        offset,
        length: record_end(&file[offset..]),
    }
}

// The bytes of a part of a file.
fn bytes_of(file: &[u8], x: Part) -> &[u8]
    requires { x.offset + x.length ≤ length file.now }
    ensures { (result.now ≡ take x.length (drop x.offset file.now)) × LiesAt file.entry x.offset result }
{
    &file[x.offset..x.offset + x.length]
}

// The new record where it is above the old one, else the old one.
fn upper(above: bool, old: Part, new: Part) -> Part
    ensures { result ≡ cond above new old }
{
    if above { new } else { old }
}

// "choose along it, each against the one standing so far, and stop at the first refusal". A file without bytes is refused as a
// record without bytes is.
pub fn choose(file: &[u8]) -> Chosen
    ensures { chosen_numbers result ≡ file_answer file.now }
{
    let mut standing = record_at(file, 0, 0);
    if !wrapper_holds(bytes_of(file, standing)) {
        return Err(WrapRefused {
            why: WrapRefusal::Wrapper,
            index: 0,
        });
    }
    // The place moves on by a record's length, so it is no range.
    let mut at = standing.length;
    let mut index = 1;
    while at < file.len() {
        let next = record_at(file, index, at);
        match compare(bytes_of(file, standing), bytes_of(file, next)) {
            Ok(above) => standing = upper(above, standing, next),
            Err(why) => return Err(WrapRefused { why, index }),
        }
        at += next.length;
        index += 1;
    }
    Ok(standing)
}

// The chosen record as a part of the file, or an empty part.
pub fn chosen(file: &[u8]) -> &[u8]
    ensures { (result.now ≡ file_bytes file.now)
        × LiesAt file.entry (handed_from (file_answer file.now)) result }
{
    match choose(file) {
        Ok(x) => bytes_of(file, x),
        Err(_) => &file[0..0],
    }
}
