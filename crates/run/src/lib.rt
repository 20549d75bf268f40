// The priority run.
#![tactic(auto)]

ghost use Rattle.std.specs.Prelude.{◌≡◌, length};
ghost use Rattle.schedule.specs.Model.{model, Formed};
ghost use Rattle.schedule.specs.Choice.{choice};
ghost use Rattle.schedule.specs.Answers.{concluded, outcome, run_answer, run_buffer};
ghost use Rattle.schedule.specs.Numbers.{run_numbers};
ghost use Rattle.run.specs.Outcome.{Standing, Answers};

use machine::{Judged, Played};
use schedule::{Place, Refusal, RunRefusal, RunVerdict, Written};

mod plan;

// The answer once the grid stands in the buffer: "42 and 43 set the plan's length of bytes to 0", a success writes the rest
// of the plan. The form rules have passed, so the machine was played, and what is not refused is a success. The buffer is lent
// for writing, so no one struct that is copied holds it beside the model and the choice.
fn conclude(s: &[u8], q: &[u8], played: &Played, out: &mut [u8]) -> RunVerdict
    requires { Standing (model s.now) (choice q.now) out.old played.now.judged played.now.ends }
    ensures { Answers (concluded (model s.now) (choice q.now)) (model s.now)
        (choice q.now) out.old out.new result }
{
    let length = plan::needed(s);
    if let Judged::Refused(x) = played.judged {
        plan::clear(out, length as usize);
        return Err(x);
    }
    plan::write_front(s, q, &played.ends, out);
    Ok(Written {
        length,
        figures: tables::figures::figures(s, out),
    })
}

// The run past its input: "41 buffer shorter than the plan; A is the length needed", then the machine. That the model is formed
// stands in two contracts of the crate; a type for the checks and the report too would have to be public.
fn attempt(s: &[u8], q: &[u8], out: &mut [u8]) -> RunVerdict
    requires { Formed (model s.now) }
    ensures { Answers (outcome (model s.now) (choice q.now) (length out.old))
        (model s.now) (choice q.now) out.old out.new result }
{
    let length = plan::needed(s);
    if out.len() < length as usize {
        let place = Place { a: length, b: 0 };
        return Err(Refusal::Run(RunRefusal::Room, place));
    }
    let played = plan::write_grid(s, q, out);
    conclude(s, q, &played, out)
}

// The priority run on a model's and a choice's bytes, with the plan written into the lent buffer.
pub fn run(model: &[u8], choice: &[u8], out: &mut [u8]) -> RunVerdict
    ensures { (run_numbers result ≡ run_answer model.now choice.now (length out.old))
        × (out.new ≡ run_buffer model.now choice.now out.old) }
{
    records::choice::read_both(model, choice)?;
    attempt(model, choice, out)
}
