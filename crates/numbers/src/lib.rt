// The paper's numbers of the refusals, which answers fill the rows of the report, a little arithmetic of figures and ticks, and
// what is printed of a figure and a digit.
#![tactic(auto)]

ghost use Rattle.std.specs.Prelude.{◌≡◌, ◌+◌, ◌-◌, ◌%◌, max, min, nat_abs};
ghost use Rattle.schedule.specs.Report.{fills, is_dash};
ghost use Rattle.schedule.specs.Lines.{hex_digit};
ghost use Rattle.schedule.specs.declared.FormRefusal.{FormRefusal};
ghost use Rattle.schedule.specs.declared.RuleRefusal.{RuleRefusal};
ghost use Rattle.schedule.specs.Numbers.{form_number, rule_number, run_number, refusal_numbers, numbers_of, run_numbers, wrap_number};

use schedule::{
    ActivityRule, FormRefusal, Numbered, Refusal, RowRule, RuleRefusal, RunRefusal, RunVerdict,
    TickRule, WrapRefusal,
};

// 5 to 7, 52, 53 and 57. Here and below a match on a rule gives its number, which is data.
fn row_number(rule: RowRule) -> u32
    ensures { result ≡ form_number (FormRefusal.ModelRow rule) }
{
    match rule {
        RowRule::Thread => 5,
        RowRule::Period => 52,
        RowRule::Activity => 6,
        RowRule::Loop => 53,
        RowRule::Width => 57,
        RowRule::Masks => 7,
    }
}

// 1 to 14, 51 to 53, and 57.
fn form_number(why: FormRefusal) -> u32
    ensures { result ≡ form_number why }
{
    match why {
        FormRefusal::ModelSize => 1,
        FormRefusal::ModelVersion => 2,
        FormRefusal::ModelLimits => 3,
        FormRefusal::ModelFormula => 4,
        FormRefusal::Rounds => 51,
        FormRefusal::ModelRow(rule) => row_number(rule),
        FormRefusal::SecondSize => 8,
        FormRefusal::SecondVersion => 9,
        FormRefusal::SecondCounts => 10,
        FormRefusal::SecondFormula => 11,
        FormRefusal::ThreadChoice => 12,
        FormRefusal::DurationChoice => 13,
        FormRefusal::WordBits => 14,
    }
}

// 21 to 27, without 24.
fn activity_number(rule: ActivityRule) -> u32
    ensures { result ≡ rule_number (RuleRefusal.Activity rule) }
{
    match rule {
        ActivityRule::Window => 21,
        ActivityRule::Count => 22,
        ActivityRule::Deadline => 23,
        ActivityRule::Temporal => 25,
        ActivityRule::Data => 26,
        ActivityRule::Eligible => 27,
    }
}

// 28 to 31.
fn tick_number(rule: TickRule) -> u32
    ensures { result ≡ rule_number (RuleRefusal.Tick rule) }
{
    match rule {
        TickRule::Cores => 28,
        TickRule::Preemption => 29,
        TickRule::Idle => 30,
        TickRule::Tie => 31,
    }
}

// The numbers of the rules, 21 to 31 without 24.
fn rule_number(why: RuleRefusal) -> u32
    ensures { result ≡ rule_number why }
{
    match why {
        RuleRefusal::Activity(rule) => activity_number(rule),
        RuleRefusal::Tick(rule) => tick_number(rule),
    }
}

// 41 to 43, and 50.
fn run_number(why: RunRefusal) -> u32
    ensures { result ≡ run_number why }
{
    match why {
        RunRefusal::Room => 41,
        RunRefusal::Owed => 42,
        RunRefusal::Late => 43,
        RunRefusal::Rows => 50,
    }
}

// "A refusal answers its number, A and B". A function and no From: both types are another crate's.
pub fn refusal_numbers(x: Refusal) -> Numbered
    ensures { numbers_of result ≡ refusal_numbers x }
{
    match x {
        Refusal::Form(why, at) => Numbered {
            number: form_number(why),
            a: at.a,
            b: at.b,
        },
        Refusal::Rule(why, at) => Numbered {
            number: rule_number(why),
            a: at.a,
            b: at.b,
        },
        Refusal::Run(why, at) => Numbered {
            number: run_number(why),
            a: at.a,
            b: at.b,
        },
    }
}

// 54 to 56. A function and no From: both types are other crates'.
pub fn wrap_number(why: WrapRefusal) -> u32
    ensures { result ≡ wrap_number why }
{
    match why {
        WrapRefusal::Wrapper => 54,
        WrapRefusal::Series => 55,
        WrapRefusal::Copy => 56,
    }
}

// The report of lateness fills its rows "for success and for 43".
pub fn fills(answer: RunVerdict) -> bool
    ensures { result ≡ fills (run_numbers answer) }
{
    matches!(answer, Ok(_) | Err(Refusal::Run(RunRefusal::Late, _)))
}

// The larger of two numbers. This and the four below are for callers of this crate: the code of this repository calls the
// library's methods themselves.
pub fn larger(x: u32, y: u32) -> u32
    ensures { result ≡ max x y }
{
    x.max(y)
}

// The smaller of two numbers.
pub fn smaller(x: u32, y: u32) -> u32
    ensures { result ≡ min x y }
{
    x.min(y)
}

// A difference that stops at 0.
pub fn less(x: u32, y: u32) -> u32
    ensures { result ≡ x - y }
{
    x.saturating_sub(y)
}

// A sum that stops at the largest number.
pub fn sum(x: u32, y: u32) -> u32
    ensures { result ≡ min (x + y) 4294967295 }
{
    x.saturating_add(y)
}

// A signed number without its sign.
pub fn size(x: i32) -> u32
    ensures { result ≡ nat_abs x }
{
    x.unsigned_abs()
}

// "An activity whose thread has no period gets −2147483648, printed as a dash".
pub fn is_dash(figure: i32) -> bool
    ensures { result ≡ is_dash figure }
{
    figure == -2147483648
}

// A hexadecimal digit, in the order and with the numbers of the ASCII chart (U5 of 02). A number above 15 gets the digit of its
// remainder by 16, which is at most 15: the last line goes on to 255 because a match on a byte has to take every byte.
pub fn hex_digit(d: u8) -> u8
    ensures { result ≡ hex_digit (d % 16) }
{
    match d % 16 {
        0 => 48, // 0
        1 => 49, // 1
        2 => 50, // 2
        3 => 51, // 3
        4 => 52, // 4
        5 => 53, // 5
        6 => 54, // 6
        7 => 55, // 7
        8 => 56, // 8
        9 => 57, // 9
        10 => 97, // a
        11 => 98, // b
        12 => 99, // c
        13 => 100, // d
        14 => 101, // e
        15..=255 => 102, // f
    }
}
