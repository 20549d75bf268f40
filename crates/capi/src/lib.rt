// The exports for C and Rust: include/grid.h declares them.
#![tactic(auto)]

ghost use Rattle.std.specs.Prelude.{◌≡◌, cond, length, None};
ghost use Rattle.schedule.specs.Answers.{accepted, refused, plain_verdict, strict_verdict, run_answer, run_buffer};
ghost use Rattle.schedule.specs.Report.{report_answer, report_rows};
ghost use Rattle.schedule.specs.Exchange.{pair_part, file_answer};
ghost use Rattle.schedule.specs.Numbers.{refusal_numbers, numbers_of, figure_numbers, verdict_numbers, run_numbers, wrap_refusal, part_numbers};
ghost use Rattle.edit_rules.specs.Edits.{marking, clearing, edit_answer, edit_bytes};
ghost use Rattle.edit_rules.specs.EditNumbers.{told_numbers};
ghost use Rattle.edit_rules.specs.Keeping.{asking, ask_answer, ask_state, keep_answer, keep_bytes};
ghost use Rattle.capi.specs.Exported.{refusal_exported, accepted_exported, verdict_exported, run_exported, part_exported, done_numbers, edit_exported, ask_exported};
ghost use Rattle.capi.specs.States.{edit_of, editing_of, with_asked, edited_state};

use edit_rules::{Edit, Editing, Told};
use numbers::{refusal_numbers, wrap_number};
use schedule::{Figures, Numbered, Part, Refusal, RunVerdict, Side, Verdict, WrapRefused};

// Number 0 for accepted, then usage, c times H, makespan, and the length of the run's plan (0 for a check and an ask), or zeros for
// a mark, a clear or a keep; otherwise the refusal's number, A, B, 0, 0.
#[repr(C)]
#[derive(Clone, Copy)]
pub struct GridAnswer {
    pub number: u32,
    pub first: u32,
    pub second: u32,
    pub third: u32,
    pub length: u32,
}

// Of wrapped records: number 0, then the record's number, from 0, its first byte in its argument (0 in a pair) and its length;
// otherwise the refusal's number, A in the place of the record, and 0, 0. `zero` is always 0.
#[repr(C)]
#[derive(Clone, Copy)]
pub struct GridPart {
    pub number: u32,
    pub zero: u32,
    pub record: u64,
    pub offset: u64,
    pub length: u64,
}

// An editing state. What is asked, for C by a number: 1 for a mark and 2 for a clear of `activity` at `tick`; with any other number
// nothing is asked.
// No call looks at `total` and `counts`, and each hands them back as they were given.
#[repr(C)]
#[derive(Clone, Copy)]
pub struct GridEditing {
    pub asked: u32,
    pub activity: u32,
    pub tick: u32,
    pub total: u32,
    pub counts: [u32; 32],
}

// What a call of an editing state answers, and the state afterwards.
#[repr(C)]
#[derive(Clone, Copy)]
pub struct GridStep {
    pub answer: GridAnswer,
    pub state: GridEditing,
}

// A refusal's number and place.
impl From<Numbered> for GridAnswer {
    ghost from_gives = { λ said answer. answer ≡ refusal_exported (numbers_of said) };

    fn from(said: Numbered) -> GridAnswer {
        GridAnswer {
            number: said.number,
            first: said.a,
            second: said.b,
            third: 0,
            length: 0,
        }
    }
}

// A refusal by its case, through its number and place.
impl From<Refusal> for GridAnswer {
    ghost from_gives = { λ x answer. answer ≡ refusal_exported (refusal_numbers x) };

    fn from(x: Refusal) -> GridAnswer {
        GridAnswer::from(refusal_numbers(x))
    }
}

// The three figures, with the length of a run's plan.
fn accepted(f: Figures, length: u32) -> GridAnswer
    ensures { result ≡ accepted_exported (figure_numbers f) length }
{
    GridAnswer {
        number: 0,
        first: f.usage,
        second: f.capacity,
        third: f.makespan,
        length,
    }
}

// What a check answers.
impl From<Verdict> for GridAnswer {
    ghost from_gives = { λ v answer. answer ≡ verdict_exported (verdict_numbers v) };

    fn from(v: Verdict) -> GridAnswer {
        match v {
            Ok(f) => accepted(f, 0),
            Err(x) => GridAnswer::from(x),
        }
    }
}

// What a run or a report answers.
impl From<RunVerdict> for GridAnswer {
    ghost from_gives = { λ v answer. answer ≡ run_exported (run_numbers v) };

    fn from(v: RunVerdict) -> GridAnswer {
        match v {
            Ok(w) => accepted(w.figures, w.length),
            Err(x) => GridAnswer::from(x),
        }
    }
}

// What a mark, a clear or a keep answers.
impl From<Result<(), Numbered>> for GridAnswer {
    ghost from_gives = { λ answer exported. exported ≡ edit_exported (done_numbers answer) };

    fn from(answer: Result<(), Numbered>) -> GridAnswer {
        match answer {
            Ok(()) => GridAnswer {
                number: 0,
                first: 0,
                second: 0,
                third: 0,
                length: 0,
            },
            Err(said) => GridAnswer::from(said),
        }
    }
}

// What an ask answers: as a check, or with the refusal of the edit.
impl From<Told> for GridAnswer {
    ghost from_gives = { λ v answer. answer ≡ ask_exported (told_numbers v) };

    fn from(v: Told) -> GridAnswer {
        match v {
            Ok(verdict) => GridAnswer::from(verdict),
            Err(why) => GridAnswer::from(edits::reason_numbers(why)),
        }
    }
}

// A refusal of wrapped records, with the record's number in A.
impl From<WrapRefused> for GridPart {
    ghost from_gives = { λ x part. part ≡ part_exported (refused (wrap_refusal x)) };

    fn from(x: WrapRefused) -> GridPart {
        GridPart {
            number: wrap_number(x.why),
            zero: 0,
            record: x.index as u64,
            offset: 0,
            length: 0,
        }
    }
}

// The record that stands or is chosen.
impl From<Part> for GridPart {
    ghost from_gives = { λ x part. part ≡ part_exported (accepted (part_numbers x)) };

    fn from(x: Part) -> GridPart {
        GridPart {
            number: 0,
            zero: 0,
            record: x.index as u64,
            offset: x.offset as u64,
            length: x.length as u64,
        }
    }
}

// The plain check of a model's and a plan's bytes.
#[unsafe(no_mangle)]
pub extern "C" fn grid_check_plain(model: &[u8], plan: &[u8]) -> GridAnswer
    ensures { result ≡ verdict_exported (plain_verdict model.now plan.now) }
{
    GridAnswer::from(checks::check_plain(model, plan))
}

// The strict check.
#[unsafe(no_mangle)]
pub extern "C" fn grid_check_strict(model: &[u8], plan: &[u8]) -> GridAnswer
    ensures { result ≡ verdict_exported (strict_verdict model.now plan.now) }
{
    GridAnswer::from(checks::check_strict(model, plan))
}

// The run, with the plan written into the lent buffer.
#[unsafe(no_mangle)]
pub extern "C" fn grid_run(model: &[u8], choice: &[u8], out: &mut [u8]) -> GridAnswer
    ensures { (result ≡ run_exported (run_answer model.now choice.now (length out.old)))
        × (out.new ≡ run_buffer model.now choice.now out.old) }
{
    GridAnswer::from(run::run(model, choice, out))
}

// The report of lateness, with a row for each activity written into the lent list.
#[unsafe(no_mangle)]
pub extern "C" fn grid_lateness(model: &[u8], choice: &[u8], rows: &mut [i32]) -> GridAnswer
    ensures { (result ≡ run_exported (report_answer model.now choice.now (length rows.old)))
        × (rows.new ≡ report_rows model.now choice.now rows.old) }
{
    GridAnswer::from(report::lateness(model, choice, rows))
}

// Which of two wrapped records stands.
#[unsafe(no_mangle)]
pub extern "C" fn grid_stands(first: &[u8], second: &[u8]) -> GridPart
    ensures { result ≡ part_exported (pair_part first.now second.now) }
{
    match exchange::which_stands(first, second) {
        Ok(Side::First) => GridPart::from(Part {
            index: 0,
            offset: 0,
            length: first.len(),
        }),
        Ok(Side::Second) => GridPart::from(Part {
            index: 1,
            offset: 0,
            length: second.len(),
        }),
        Err(x) => GridPart::from(x),
    }
}

// Which record of a file is chosen.
#[unsafe(no_mangle)]
pub extern "C" fn grid_choose(file: &[u8]) -> GridPart
    ensures { result ≡ part_exported (file_answer file.now) }
{
    match exchange::choose(file) {
        Ok(x) => GridPart::from(x),
        Err(x) => GridPart::from(x),
    }
}

// An activity marked at a tick of the lent plan.
#[unsafe(no_mangle)]
pub extern "C" fn grid_mark(model: &[u8], plan: &mut [u8], activity: u32, tick: u32) -> GridAnswer
    ensures { (result ≡ edit_exported (edit_answer model.now plan.old (marking activity tick)))
        × (plan.new ≡ edit_bytes model.now plan.old (marking activity tick)) }
{
    let said = edits::mark(model, plan, activity, tick);
    GridAnswer::from(said.map_err(edits::reason_numbers))
}

// An activity cleared at a tick of the lent plan.
#[unsafe(no_mangle)]
pub extern "C" fn grid_clear(model: &[u8], plan: &mut [u8], activity: u32, tick: u32) -> GridAnswer
    ensures { (result ≡ edit_exported (edit_answer model.now plan.old (clearing activity tick)))
        × (plan.new ≡ edit_bytes model.now plan.old (clearing activity tick)) }
{
    let said = edits::clear(model, plan, activity, tick);
    GridAnswer::from(said.map_err(edits::reason_numbers))
}

// ---- the editing state

// A state in which a mark or a clear is asked.
fn asking(mark: bool, given: GridEditing) -> Editing
    ensures { result ≡ asking (edit_of mark given.activity given.tick) }
{
    Editing {
        asked: Some(Edit {
            on: mark,
            activity: given.activity,
            tick: given.tick,
        }),
    }
}

// The state as the edits know it.
impl From<GridEditing> for Editing {
    ghost from_gives = { λ given state. state ≡ editing_of given };

    fn from(given: GridEditing) -> Editing {
        match given.asked {
            1 => asking(true, given),
            2 => asking(false, given),
            _ => Editing { asked: None },
        }
    }
}

// The given state with something else asked.
fn with_asked(given: GridEditing, asked: Option<Edit>) -> GridEditing
    ensures { result ≡ with_asked given asked }
{
    match asked {
        None => GridEditing {
            asked: 0,
            activity: 0,
            tick: 0,
            ..given
        },
        Some(e) => GridEditing {
            asked: if e.on { 1 } else { 2 },
            activity: e.activity,
            tick: e.tick,
            ..given
        },
    }
}

// The state after an edit: where it is refused, the one that was given, and otherwise that one with nothing asked.
fn state_after(given: GridEditing, done: bool) -> GridEditing
    ensures { result ≡ cond done (with_asked given None) given }
{
    if done { with_asked(given, None) } else { given }
}

// What a mark, a clear or a keep answered, with the state afterwards.
fn step(given: GridEditing, said: Result<(), Numbered>) -> GridStep
    ensures { (result.answer ≡ edit_exported (done_numbers said))
        × (result.state ≡ edited_state (done_numbers said) given) }
{
    GridStep {
        answer: GridAnswer::from(said),
        state: state_after(given, said.is_ok()),
    }
}

// The verdict that the plan would have after a mark or a clear.
#[unsafe(no_mangle)]
pub extern "C" fn grid_edit_ask(
    state: GridEditing,
    model: &[u8],
    plan: &[u8],
    mark: bool,
    activity: u32,
    tick: u32,
) -> GridStep
    ensures { (result.answer ≡ ask_exported (ask_answer model.now plan.now (edit_of mark activity tick)))
        × (result.state ≡ with_asked state
        (ask_state model.now plan.now (editing_of state) (edit_of mark activity tick)).asked) }
{
    let e = Edit {
        on: mark,
        activity,
        tick,
    };
    let told = edits::ask(Editing::from(state), model, plan, e);
    GridStep {
        answer: GridAnswer::from(told.answer),
        state: with_asked(state, told.state.asked),
    }
}

// The edit that is asked, made in the lent plan.
#[unsafe(no_mangle)]
pub extern "C" fn grid_edit_keep(state: GridEditing, model: &[u8], plan: &mut [u8]) -> GridStep
    ensures { (result.answer ≡ edit_exported (keep_answer model.now plan.old (editing_of state).asked))
        × (result.state ≡ edited_state (keep_answer model.now plan.old (editing_of state).asked) state)
        × (plan.new ≡ keep_bytes model.now plan.old (editing_of state).asked) }
{
    let kept = edits::keep(Editing::from(state), model, plan);
    step(state, kept.answer.map_err(edits::unkept_numbers))
}

// An activity marked at a tick of the lent plan, with the state.
#[unsafe(no_mangle)]
pub extern "C" fn grid_edit_mark(
    state: GridEditing,
    model: &[u8],
    plan: &mut [u8],
    activity: u32,
    tick: u32,
) -> GridStep
    ensures { (result.answer ≡ edit_exported (edit_answer model.now plan.old (marking activity tick)))
        × (result.state ≡ edited_state (edit_answer model.now plan.old (marking activity tick)) state)
        × (plan.new ≡ edit_bytes model.now plan.old (marking activity tick)) }
{
    let made = edits::mark_with(Editing::from(state), model, plan, activity, tick);
    step(state, made.answer.map_err(edits::reason_numbers))
}

// An activity cleared at a tick of the lent plan, with the state.
#[unsafe(no_mangle)]
pub extern "C" fn grid_edit_clear(
    state: GridEditing,
    model: &[u8],
    plan: &mut [u8],
    activity: u32,
    tick: u32,
) -> GridStep
    ensures { (result.answer ≡ edit_exported (edit_answer model.now plan.old (clearing activity tick)))
        × (result.state ≡ edited_state (edit_answer model.now plan.old (clearing activity tick)) state)
        × (plan.new ≡ edit_bytes model.now plan.old (clearing activity tick)) }
{
    let made = edits::clear_with(Editing::from(state), model, plan, activity, tick);
    step(state, made.answer.map_err(edits::reason_numbers))
}
