// The form rules of the model record, "in list order": 1 to 4 and 51, which name no row, then 5, 52, 6, 53, 57 and 7 over the
// rows of the page.
ghost use Rattle.std.specs.Prelude.{◌≡◌, true};
ghost use Rattle.std.proofs.Math.Option.{none};
ghost use Rattle.schedule.specs.Rule.{break, first_break};
ghost use Rattle.schedule.specs.Records.{within};
ghost use Rattle.schedule.specs.Model.{page, head_rules, row_rule, row_rules};
ghost use Rattle.records.specs.Rows.{limits_hold, rounds_hold, thread_holds, period_holds, activity_holds, loop_holds, masks_hold};
ghost use Rattle.records.specs.Reads.{row_answer, row_read_numbers, pass_numbers};
ghost use Rattle.records.specs.RowRules.{row_at};

use crate::form::Names;
use crate::model::{ActivityRow, Sizes, ThreadRow, page};
use crate::rows::Row;
use crate::{form, rows};
use schedule::{FormRefusal, Refusal, RowRule};

// ---- rules 1 to 4 and 51

// The newest version of a model.
const NEWEST: u8 = 3;

// "3 c, n, m or H outside its limits"
fn limits_hold(x: Sizes) -> bool
    ensures { result ≡ limits_hold x }
{
    form::within(1, 8, x.cores as u16)
        && form::within(1, 8, x.threads as u16)
        && form::within(1, 32, x.activities as u16)
        && form::within(1, 4096, x.horizon)
}

// "51 for i outside 1..4, i times n above 8 or i times m above 32"
fn rounds_hold(one: Sizes, rounds: u8) -> bool
    ensures { result ≡ rounds_hold one rounds }
{
    form::within(1, 4, rounds as u16)
        && unroll::times(rounds, one.threads) <= 8
        && unroll::times(rounds, one.activities) <= 32
}

// The rules that name no row.
pub(crate) fn head(s: &[u8]) -> Result<(), Refusal>
    ensures { pass_numbers result ≡ first_break (head_rules s.now) }
{
    let one = page::counts(s);
    let names = Names {
        size: FormRefusal::ModelSize,
        version: FormRefusal::ModelVersion,
        counts: FormRefusal::ModelLimits,
        formula: FormRefusal::ModelFormula,
    };
    form::head(
        s,
        names,
        10,
        NEWEST,
        limits_hold(one),
        page::formula(s, one),
    )?;
    if rounds_hold(one, page::rounds(s)) {
        Ok(())
    } else {
        form::refused(FormRefusal::Rounds)
    }
}

// ---- rules 5, 52, 6, 53, 57 and 7, over the rows

// "a least above its most, or least period 0 with most above 0"
fn thread_holds(row: ThreadRow) -> bool
    ensures { result ≡ thread_holds row }
{
    row.least_period <= row.most_period
        && row.least_release <= row.most_release
        && (row.least_period != 0 || row.most_period == 0)
}

// "i above 1 and unequal period ends, or a moved release above 65535"
fn period_holds(row: ThreadRow, rounds: u8) -> bool
    ensures { result ≡ period_holds rounds row }
{
    rounds <= 1
        || row.least_period == row.most_period
            && unroll::moved(rounds - 1, row.least_period, row.most_release) <= 65535
}

// "thread ≥ n, least duration 0, or least above most"
fn activity_holds(row: ActivityRow, threads: u8) -> bool
    ensures { result ≡ activity_holds threads row }
{
    row.thread.0 < threads && 1 <= row.least_duration && row.least_duration <= row.most_duration
}

// "whose q is m or more but not 255"
fn loop_holds(q: u8, activities: u8) -> bool
    ensures { result ≡ loop_holds activities q }
{
    q == unroll::NO_LOOP || q < activities
}

// "for a width of 0 or above c"
fn width_holds(width: u8, cores: u8) -> bool
    ensures { result ≡ within 1 cores width }
{
    form::within(1, cores as u16, width as u16)
}

// "a bit at or above its own number in either mask"
fn masks_hold(row: ActivityRow, number: u8) -> bool
    ensures { result ≡ masks_hold number row }
{
    form::none_from(row.temporal_mask, number) && form::none_from(row.data_mask, number)
}

// How many rows a rule is tried at.
// A match, since the definitions name the rules, and each goes over threads or over activities.
fn rows_of(rule: RowRule, s: &[u8]) -> u8
    ensures { result ≡ (row_rule rule (page s.now)).rows }
{
    let one = page::counts(s);
    match rule {
        RowRule::Thread => one.threads,
        RowRule::Period => one.threads,
        RowRule::Activity => one.activities,
        RowRule::Loop => one.activities,
        RowRule::Width => one.activities,
        RowRule::Masks => one.activities,
    }
}

// Row number A of those that a rule is tried at, or its refusal.
// A match, since the definitions name the rules, and each reads another part of the row.
fn read_row(rule: RowRule, s: &[u8], number: u8) -> Result<Row, Refusal>
    ensures { row_read_numbers result
        ≡ row_answer (row_rule rule (page s.now)) number (row_at rule (page s.now) number) }
{
    let why = FormRefusal::ModelRow(rule);
    let a = number as u32;
    match rule {
        RowRule::Thread => {
            let row = page::thread_row(s, number);
            rows::answer(thread_holds(row), Row::Thread(row), why, a)
        }
        RowRule::Period => {
            let row = page::thread_row(s, number);
            rows::answer(period_holds(row, page::rounds(s)), Row::Thread(row), why, a)
        }
        RowRule::Activity => {
            let row = page::activity_row(s, number);
            let one = page::counts(s);
            rows::answer(activity_holds(row, one.threads), Row::Activity(row), why, a)
        }
        RowRule::Loop => {
            let q = page::loop_byte(s, number);
            let one = page::counts(s);
            rows::answer(loop_holds(q, one.activities), Row::Loop(q), why, a)
        }
        RowRule::Width => {
            let width = page::width(s, number);
            let one = page::counts(s);
            rows::answer(width_holds(width, one.cores), Row::Width(width), why, a)
        }
        RowRule::Masks => {
            let row = page::activity_row(s, number);
            rows::answer(masks_hold(row, number), Row::Activity(row), why, a)
        }
    }
}

// Whether it is known that no row can break a rule: 52 in one round, 53 "without loops", and 57 where rows have no width and
// there is a core. A no promises nothing, and the rows are tried.
// A match, since the definitions name the rules, and each asks something else of the page.
fn settled(rule: RowRule, s: &[u8]) -> bool
    ensures { result ≡ true → break (row_rule rule (page s.now)) ≡ none }
{
    match rule {
        RowRule::Thread => false,
        RowRule::Period => page::rounds(s) <= 1,
        RowRule::Activity => false,
        RowRule::Loop => !page::has_loops(s),
        RowRule::Width => {
            let one = page::counts(s);
            !page::has_widths(s) && 1 <= one.cores
        }
        RowRule::Masks => false,
    }
}

// A rule tried at every row, "lowest A first", unless none can break it.
fn over_rows(rule: RowRule, s: &[u8]) -> Result<(), Refusal>
    ensures { pass_numbers result ≡ break (row_rule rule (page s.now)) }
{
    if settled(rule, s) {
        return Ok(());
    }
    rows::over(
        rows_of(rule, s) as u16,
        |number| read_row(rule, s, number as u8),
    )
}

// The rules of rows in their order: "Each number is tried over all its rows before the next".
pub(crate) fn row_rules(s: &[u8]) -> Result<(), Refusal>
    ensures { pass_numbers result ≡ first_break (row_rules (page s.now)) }
{
    let order = [
        RowRule::Thread,
        RowRule::Period,
        RowRule::Activity,
        RowRule::Loop,
        RowRule::Width,
        RowRule::Masks,
    ];
    for rule in order {
        over_rows(rule, s)?;
    }
    Ok(())
}
