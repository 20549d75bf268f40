// The plain and the strict check.
#![tactic(auto)]

mod activity;
mod efe;
mod page;
mod tick;
mod windows;

ghost use Rattle.std.specs.Prelude.{◌≡◌, ◌≤◌, ◌<◌, ℕ, Bool, cond};
ghost use Rattle.std.proofs.Math.Option.{some};
ghost use Rattle.schedule.specs.Bounded.{word_of};
ghost use Rattle.schedule.specs.Rule.{break, first_break};
ghost use Rattle.schedule.specs.Model.{model, Formed};
ghost use Rattle.schedule.specs.Plan.{plan};
ghost use Rattle.schedule.specs.Checks.{rule_of};
ghost use Rattle.schedule.specs.Answers.{answer, figures, plain_verdict, strict_verdict};
ghost use Rattle.schedule.specs.Numbers.{rule_number, verdict_numbers};
ghost use Rattle.checks.specs.Rules.{order_of, grid_rules, checks_of};
ghost use Rattle.checks.specs.Tables.{FirstPlace};
ghost use Rattle.records.specs.Reads.{pass_numbers};

use page::Page;
use schedule::{ActivityRule, Place, Refusal, RuleRefusal, TickRule, Verdict};
use tables::loads::widths_of;

// A rule broken at a place.
fn refused(why: RuleRefusal, a: u32, b: u32) -> Result<(), Refusal>
    ensures { pass_numbers result ≡ some (record { number = rule_number why; A = a; B = b }) }
{
    Err(Refusal::Rule(why, Place { a, b }))
}

// Bit 0 where a rule is broken that names no B.
fn flag(holds: bool) -> u32
    ensures { result ≡ cond holds 0 1 }
{
    u32::from(!holds)
}

// The lowest of the places at which a rule is broken, from a mask of them.
fn first_place(mask: u32) -> Option<u32>
    ensures { FirstPlace mask result }
{
    if mask == 0 {
        None
    } else {
        Some(bits::lowest(mask))
    }
}

// The word of the first n numbers that pass a test. The crate of the tables has such a function too: its closure needs a
// `requires`, no public call has one, and a trait with a law in its place would take an impl for each test. That n is at most 32
// is asked here and nowhere else in this crate.
fn word<F: Fn(usize) -> bool>(n: usize, test: F) -> u32
    requires few { n ≤ 32 }
    requires callable { (a : ℕ) → a < n → F.pre test a }
    ensures { (p : ℕ → Bool) → ((a : ℕ) (y : Bool) → a < n → F.post test a y → y ≡ p a) → result ≡ word_of n p }
{
    let mut word: u32 = 0;
    for a in 0..n {
        word = bits::mark(word, a as u32, test(a));
    }
    word
}

impl<'a> Page<'a> {
    // A rule tried at each of its places. The rule stays a value: its refusal carries it (`RuleRefusal`).
    fn over(&self, rule: RuleRefusal) -> Result<(), Refusal>
        ensures { pass_numbers result ≡ break (rule_of rule (model self.now.s.now) (plan self.now.r.now)) }
    {
        match rule {
            RuleRefusal::Activity(rule) => self.over_activities(rule),
            RuleRefusal::Tick(rule) => self.over_ticks(rule),
        }
    }
}

// The rules in the order in which a check tries them. A table of rules and of no closures: a refusal carries its rule.
static ORDER: [RuleRefusal; 10] = [
    RuleRefusal::Activity(ActivityRule::Window),
    RuleRefusal::Activity(ActivityRule::Count),
    RuleRefusal::Activity(ActivityRule::Deadline),
    RuleRefusal::Activity(ActivityRule::Temporal),
    RuleRefusal::Activity(ActivityRule::Data),
    RuleRefusal::Activity(ActivityRule::Eligible),
    RuleRefusal::Tick(TickRule::Cores),
    RuleRefusal::Tick(TickRule::Preemption),
    RuleRefusal::Tick(TickRule::Idle),
    RuleRefusal::Tick(TickRule::Tie),
];

// The rules that the plain or the strict check tries, by the flag that the definitions take: "The plain check ends here; the strict
// check goes on with 30 and 31."
fn order(strict: bool) -> &'static [RuleRefusal]
    ensures { result.now ≡ order_of strict }
{
    if strict { &ORDER } else { &ORDER[..8] }
}

// The rules of a check on well-formed records in their order, "each tried over everything before the next". That the model is
// formed stands in two contracts of the crate; a type for the run and the report too would have to be public.
fn grid_rules(s: &[u8], r: &[u8], strict: bool) -> Result<(), Refusal>
    requires { Formed (model s.now) }
    ensures { pass_numbers result ≡ first_break (grid_rules strict (model s.now) (plan r.now)) }
{
    let tables = page::tabulate(s, r);
    let page = Page {
        s,
        r,
        tables: &tables,
        outside: windows::strays(s, r, &tables),
        widths: widths_of(s),
    };
    for rule in order(strict) {
        page.over(*rule)?;
    }
    Ok(())
}

// A check of a model's and a plan's bytes: "The model is tried first, in list order".
fn check(s: &[u8], r: &[u8], strict: bool) -> Verdict
    ensures { verdict_numbers result
        ≡ answer (first_break (checks_of strict s.now r.now))
        (figures (model s.now) (plan r.now)) }
{
    records::model::read(s)?;
    records::plan::read(s, r)?;
    grid_rules(s, r, strict)?;
    Ok(tables::figures::figures(s, r))
}

// "The plain check": the form rules of the two records, then 21 to 29.
pub fn check_plain(model: &[u8], plan: &[u8]) -> Verdict
    ensures { verdict_numbers result ≡ plain_verdict model.now plan.now }
{
    check(model, plan, false)
}

// "the strict check goes on with 30 and 31".
pub fn check_strict(model: &[u8], plan: &[u8]) -> Verdict
    ensures { verdict_numbers result ≡ strict_verdict model.now plan.now }
{
    check(model, plan, true)
}
