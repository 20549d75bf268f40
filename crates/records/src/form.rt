// What the rules of the three records share: a refusal's place, the four rules that come first, and the tests of length,
// version, range and high bits.
ghost use Rattle.std.specs.Prelude.{◌≡◌, eqb};
ghost use Rattle.std.proofs.Math.Option.{some};
ghost use Rattle.schedule.specs.Fields.{field};
ghost use Rattle.schedule.specs.Records.{within};
ghost use Rattle.schedule.specs.Numbers.{form_number, refusal_numbers};
ghost use Rattle.records.specs.Reads.{refusal_in, pass_numbers, sized, head_break, second_names};
ghost use Rattle.records.specs.Rows.{counts_hold, none_from};

use crate::model;
use schedule::{FormRefusal, Place, Refusal};

// "A refusal answers its number, A and B", B not named. The machine has such a function for another case of the enum, whose own
// crate has no calls.
pub(crate) fn refusal(why: FormRefusal, a: u32) -> Refusal
    ensures { refusal_numbers result ≡ refusal_in (form_number why) a }
{
    Refusal::Form(why, Place { a, b: 0 })
}

// At least k bytes, and the length field says how many.
fn length_holds(s: &[u8], k: usize) -> bool
    ensures { result ≡ sized k s.now }
{
    k <= s.len() && (fields::be32(s, 0) as usize) == s.len()
}

// "then a version byte, 1", and of a model up to the newest version.
fn version_holds(s: &[u8], newest: u8) -> bool
    ensures { result ≡ within 1 newest (field s.now 4 1) }
{
    within(1, newest as u16, fields::byte(s, 4) as u16)
}

// The length field is what the formula gives.
fn formula_holds(s: &[u8], wanted: u32) -> bool
    ensures { result ≡ eqb (field s.now 0 4) wanted }
{
    fields::be32(s, 0) == wanted
}

// 10 "its n or m .. differs from the model's"
pub(crate) fn counts_hold(s: &[u8], r: &[u8]) -> bool
    ensures { result ≡ counts_hold s.now r.now }
{
    let sizes = model::counts(s);
    fields::byte(r, 5) == sizes.threads && fields::byte(r, 6) == sizes.activities
}

// Whether low ≤ x ≤ high.
pub(crate) fn within(low: u16, high: u16, x: u16) -> bool
    ensures { result ≡ within low high x }
{
    low <= x && x <= high
}

// No bit at n or above: "b must be below the row's own number".
pub(crate) fn none_from(word: u32, n: u8) -> bool
    ensures { result ≡ none_from word n }
{
    word & !bits::below(n as u32) == 0
}

// ---- the rules that name no row

// A rule that names no row is broken: "A and B are 0 where not named".
pub(crate) fn refused(why: FormRefusal) -> Result<(), Refusal>
    ensures { pass_numbers result ≡ some (refusal_in (form_number why) 0) }
{
    Err(refusal(why, 0))
}

// What the four rules that come first are called in a record.
#[derive(Clone, Copy)]
pub(crate) struct Names {
    pub(crate) size: FormRefusal,
    pub(crate) version: FormRefusal,
    pub(crate) counts: FormRefusal,
    pub(crate) formula: FormRefusal,
}

// Rules 1 to 4 of a model and 8 to 11 of a choice or a plan, "in list order": at least that many bytes, a version up to the
// newest, the counts as they were found to be, and the length that the formula gives.
pub(crate) fn head(
    s: &[u8],
    names: Names,
    least: u8,
    newest: u8,
    counts: bool,
    wanted: u32,
) -> Result<(), Refusal>
    ensures { pass_numbers result ≡ head_break s.now names least newest counts wanted }
{
    if !length_holds(s, least as usize) {
        return refused(names.size);
    }
    if !version_holds(s, newest) {
        return refused(names.version);
    }
    if !counts {
        return refused(names.counts);
    }
    if !formula_holds(s, wanted) {
        return refused(names.formula);
    }
    Ok(())
}

// Rules 8 to 11 of a choice or a plan, of which it is known whether its counts are the model's. Its thread rows begin at a
// position, behind the bytes that it has at least.
pub(crate) fn second_head(r: &[u8], first: u8, counts: bool, wanted: u32) -> Result<(), Refusal>
    ensures { pass_numbers result ≡ head_break r.now second_names first 1 counts wanted }
{
    let names = Names {
        size: FormRefusal::SecondSize,
        version: FormRefusal::SecondVersion,
        counts: FormRefusal::SecondCounts,
        formula: FormRefusal::SecondFormula,
    };
    head(r, names, first, 1, counts, wanted)
}
