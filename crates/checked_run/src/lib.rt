// A run that has been checked. What the run answered, and what the two checks say of the plan that it wrote, promised by
// demand 3: "the run succeeds exactly when some well-formed plan with those choices passes the strict check; the plan it
// wrote is then the only one, and passes both checks; when it refuses, none passes".
#![tactic(auto)]

ghost use Rattle.std.specs.Prelude.{◌≡◌, take};
ghost use Rattle.schedule.specs.Answers.{plain_verdict, strict_verdict, run_buffer};
ghost use Rattle.schedule.specs.Numbers.{written_numbers};
ghost use Rattle.checked_run.specs.Checked.{ran, ran_numbers, checked_numbers, checked_run, KeepsDemand3};

use schedule::{Refusal, Verdict, Written};

// What a run that succeeded answered, and the plain and the strict verdict on the plan that it wrote.
#[derive(Clone, Copy)]
pub struct Ran {
    pub written: Written,
    pub plain: Verdict,
    pub strict: Verdict,
}

// What a checked run answers: the run with both verdicts, or why the run refuses.
pub type Checked = Result<Ran, Refusal>;

// "The plan that a successful run wrote is the lent buffer's first bytes, as many as the length it answers": both verdicts
// on it.
fn check_written(model: &[u8], out: &[u8], written: Written) -> Ran
    ensures { ran_numbers result
        ≡ ran (written_numbers written)
        (plain_verdict model.now (take written.length out.now))
        (strict_verdict model.now (take written.length out.now)) }
{
    let plan = streams::front(out, written.length as usize);
    Ran {
        written,
        plain: checks::check_plain(model, plan),
        strict: checks::check_strict(model, plan),
    }
}

// The priority run, and both checks of the plan that it wrote into the lent buffer.
pub fn run_checked(model: &[u8], choice: &[u8], out: &mut [u8]) -> Checked
    ensures answered { (checked_numbers result ≡ checked_run model.now choice.now out.old)
        × (out.new ≡ run_buffer model.now choice.now out.old) }
    ensures keeps_demand3 { KeepsDemand3 model.now choice.now out.old out.new
        (checked_numbers result) }
{
    let written = run::run(model, choice, out)?;
    Ok(check_written(model, out, written))
}
