// "Our page editors want to mark and clear single ticks in a lent plan" (U8 of 02), and "An editor wants to see the verdict before
// the pencil mark counts" (U9 of 02): the calls that an editing state goes through.
#![tactic(auto)]

ghost use Rattle.std.specs.Prelude.{not, cond, ◌≡◌, length, None};
ghost use Rattle.schedule.specs.Rule.{first_break};
ghost use Rattle.schedule.specs.Model.{model};
ghost use Rattle.schedule.specs.Plan.{plan};
ghost use Rattle.schedule.specs.Answers.{accepted, answer, plain_verdict};
ghost use Rattle.schedule.specs.Numbers.{numbers_of, verdict_numbers};
ghost use Rattle.edit_rules.specs.Edits.{marking, clearing, edit_rules, edit_answer, edit_bytes};
ghost use Rattle.edit_rules.specs.EditNumbers.{edit_number, reason_numbers, edited_numbers, unkept_numbers, kept_numbers, told_numbers};
ghost use Rattle.edit_rules.specs.Keeping.{nothing_asked, ask_answer, ask_state, edit_state, keep_answer, keep_bytes, keep_state};

use edit_rules::{Editing, Kept, Step, Told, Unkept};
pub use edit_rules::{Edit, EditRefusal, Edited, Reason};
use schedule::{Numbered, Verdict};

mod stroke;

// ---- numbers

fn edit_number(why: EditRefusal) -> u32
    ensures { result ≡ edit_number why }
{
    match why {
        EditRefusal::Activity => 58,
        EditRefusal::Tick => 59,
        EditRefusal::Bit => 60,
    }
}

// A refusal's number, A and B. Functions and no From: the types are other crates'.
pub fn reason_numbers(why: Reason) -> Numbered
    ensures { numbers_of result ≡ reason_numbers why }
{
    match why {
        Reason::Record(x) => numbers::refusal_numbers(x),
        Reason::Edit(x) => Numbered {
            number: edit_number(x),
            a: 0,
            b: 0,
        },
    }
}

// The numbers of a keep's refusal: 61, or those of its edit.
pub fn unkept_numbers(why: Unkept) -> Numbered
    ensures { numbers_of result ≡ unkept_numbers why }
{
    match why {
        Unkept::NothingAsked => Numbered {
            number: 61,
            a: 0,
            b: 0,
        },
        Unkept::Edit(x) => reason_numbers(x),
    }
}

// ---- an edit

// The model s, the plan r and the edit e go side by side: some calls lend the plan for writing, so no one struct holds the three.

// "a bit already so": as the edit wants it.
fn already(e: Edit, marked: bool) -> bool
    ensures { result ≡ cond e.on marked (not marked) }
{
    if e.on { marked } else { !marked }
}

// 58, 59 and 60 of an edit, where the records have passed.
fn rules(s: &[u8], r: &[u8], e: Edit) -> Edited
    ensures { edited_numbers result
        ≡ answer (first_break (edit_rules (model s.now) (plan r.now) e)) tt }
{
    let sizes = records::model::counts(s);
    if sizes.activities as u32 <= e.activity {
        return Err(Reason::Edit(EditRefusal::Activity));
    }
    if sizes.horizon as u32 <= e.tick {
        return Err(Reason::Edit(EditRefusal::Tick));
    }
    let word = records::plan::word(r, e.tick as u16);
    if already(e, bits::has(word, e.activity)) {
        return Err(Reason::Edit(EditRefusal::Bit));
    }
    Ok(())
}

// What a mark or a clear answers: the form of the two records, and "after 1 to 14" 58 to 60.
fn tried(s: &[u8], r: &[u8], e: Edit) -> Edited
    ensures { edited_numbers result ≡ edit_answer s.now r.now e }
{
    view::refusal(s, r)?;
    rules(s, r, e)
}

// A mark or a clear: the answer, and the edit made where it is not refused.
fn apply(s: &[u8], r: &mut [u8], e: Edit) -> Edited
    ensures { (edited_numbers result ≡ edit_answer s.now r.old e)
        × (r.new ≡ edit_bytes s.now r.old e) }
{
    tried(s, r, e)?;
    stroke::make(r, e);
    Ok(())
}

// ---- the calls without a state: two public names, as for C, and each is one call of one function

// Marks an activity at a tick.
pub fn mark(model: &[u8], plan: &mut [u8], activity: u32, tick: u32) -> Edited
    ensures { (edited_numbers result ≡ edit_answer model.now plan.old (marking activity tick))
        × (plan.new ≡ edit_bytes model.now plan.old (marking activity tick)) }
{
    apply(
        model,
        plan,
        Edit {
            on: true,
            activity,
            tick,
        },
    )
}

// Clears an activity at a tick.
pub fn clear(model: &[u8], plan: &mut [u8], activity: u32, tick: u32) -> Edited
    ensures { (edited_numbers result ≡ edit_answer model.now plan.old (clearing activity tick))
        × (plan.new ≡ edit_bytes model.now plan.old (clearing activity tick)) }
{
    apply(
        model,
        plan,
        Edit {
            on: false,
            activity,
            tick,
        },
    )
}

// ---- the plan as it would be

// The bytes of the longest plan: 8 threads, 32 activities, 4096 ticks.
const LONGEST: usize = 16553;

// The plain verdict on a plan with an edit made, where a scratch of the plan's length is lent: the plan itself stays as it is.
fn verdict_in(s: &[u8], r: &[u8], e: Edit, scratch: &mut [u8]) -> Verdict
    requires { (length scratch.old ≡ length r.now) × (edit_answer s.now r.now e ≡ accepted tt) }
    ensures { verdict_numbers result ≡ plain_verdict s.now (edit_bytes s.now r.now e) }
{
    scratch.copy_from_slice(r);
    stroke::make(scratch, e);
    checks::check_plain(s, scratch)
}

// The plain verdict on a plan with an edit made, with a scratch on the stack: the plan itself stays as it is.
fn verdict_after(s: &[u8], r: &[u8], e: Edit) -> Verdict
    requires { edit_answer s.now r.now e ≡ accepted tt }
    ensures { verdict_numbers result ≡ plain_verdict s.now (edit_bytes s.now r.now e) }
{
    let mut scratch = [0u8; LONGEST];
    let n = r.len();
    verdict_in(s, r, e, &mut scratch[..n])
}

// ---- the state

// The state with which an editor begins, and that a kept edit and a refused ask leave: nothing is asked.
pub fn begin() -> Editing
    ensures { result ≡ nothing_asked }
{
    Editing { asked: None }
}

// A direct edit with the state: an unrefused one leaves nothing asked.
fn apply_with(state: Editing, s: &[u8], r: &mut [u8], e: Edit) -> Step<Edited>
    ensures { (edited_numbers result.answer ≡ edit_answer s.now r.old e)
        × (result.state ≡ edit_state s.now r.old state e)
        × (r.new ≡ edit_bytes s.now r.old e) }
{
    match apply(s, r, e) {
        Ok(()) => Step {
            answer: Ok(()),
            state: begin(),
        },
        Err(why) => Step {
            answer: Err(why),
            state,
        },
    }
}

// A keep with nothing asked is refused: by the form of a record, and behind it by 61.
fn unkept(s: &[u8], r: &[u8]) -> Kept
    ensures { kept_numbers result ≡ keep_answer s.now r.now None }
{
    match view::refusal(s, r) {
        Ok(()) => Err(Unkept::NothingAsked),
        Err(why) => Err(Unkept::Edit(Reason::Record(why))),
    }
}

// What a direct edit answered, as a keep answers it.
fn kept(said: Edited) -> Kept
    ensures { kept_numbers result ≡ edited_numbers said }
{
    said.map_err(Unkept::from)
}

// ---- the calls with a state, of which the direct edits are two public names for one function

// Asks for a mark or a clear: the plain verdict that the plan would have. Whatever was asked before is asked no more.
pub fn ask(state: Editing, model: &[u8], plan: &[u8], e: Edit) -> Step<Told>
    ensures { (told_numbers result.answer ≡ ask_answer model.now plan.now e)
        × (result.state ≡ ask_state model.now plan.now state e) }
{
    match tried(model, plan, e) {
        Ok(()) => Step {
            answer: Ok(verdict_after(model, plan, e)),
            state: Editing { asked: Some(e) },
        },
        Err(why) => Step {
            answer: Err(why),
            state: begin(),
        },
    }
}

// Keeps the edit that is asked.
pub fn keep(state: Editing, model: &[u8], plan: &mut [u8]) -> Step<Kept>
    ensures { (kept_numbers result.answer ≡ keep_answer model.now plan.old state.asked)
        × (result.state ≡ keep_state model.now plan.old state)
        × (plan.new ≡ keep_bytes model.now plan.old state.asked) }
{
    let Some(e) = state.asked else {
        return Step {
            answer: unkept(model, plan),
            state,
        };
    };
    let step = apply_with(state, model, plan, e);
    Step {
        answer: kept(step.answer),
        state: step.state,
    }
}

// Marks an activity at a tick, a kept edit where it is not refused.
pub fn mark_with(
    state: Editing,
    model: &[u8],
    plan: &mut [u8],
    activity: u32,
    tick: u32,
) -> Step<Edited>
    ensures { (edited_numbers result.answer ≡ edit_answer model.now plan.old (marking activity tick))
        × (result.state ≡ edit_state model.now plan.old state (marking activity tick))
        × (plan.new ≡ edit_bytes model.now plan.old (marking activity tick)) }
{
    apply_with(
        state,
        model,
        plan,
        Edit {
            on: true,
            activity,
            tick,
        },
    )
}

// Clears an activity at a tick, a kept edit where it is not refused.
pub fn clear_with(
    state: Editing,
    model: &[u8],
    plan: &mut [u8],
    activity: u32,
    tick: u32,
) -> Step<Edited>
    ensures { (edited_numbers result.answer ≡ edit_answer model.now plan.old (clearing activity tick))
        × (result.state ≡ edit_state model.now plan.old state (clearing activity tick))
        × (plan.new ≡ edit_bytes model.now plan.old (clearing activity tick)) }
{
    apply_with(
        state,
        model,
        plan,
        Edit {
            on: false,
            activity,
            tick,
        },
    )
}
