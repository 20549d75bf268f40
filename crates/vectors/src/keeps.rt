// The stored cases of edits through a state: marks, clears, asks and keeps.
use crate::{next_number, next_record, print_done, print_list, print_numbers, print_refused};
use edit_rules::{Edit, Edited, Editing, Step, Told};
use schedule::{Figures, Verdict};
use std::io;
use std::io::{Read, Write};

// Prints the three figures.
fn print_figures<W: Write>(out: &mut W, f: Figures) -> io::Result<()> {
    writeln!(out, "accepted {} {} {}", f.usage, f.capacity, f.makespan)
}

// Prints the verdict that an ask tells.
fn print_verdict<W: Write>(out: &mut W, verdict: Verdict) -> io::Result<()> {
    write!(out, "verdict ")?;
    match verdict {
        Ok(f) => print_figures(out, f),
        Err(x) => print_refused(out, x),
    }
}

// Prints what an ask answers.
fn print_told<W: Write>(out: &mut W, answer: Told) -> io::Result<()> {
    match answer {
        Ok(verdict) => print_verdict(out, verdict),
        Err(why) => print_numbers(out, edits::reason_numbers(why)),
    }
}

// Asks for an edit, prints what is told, and hands on the state.
fn ask_for<W: Write>(
    out: &mut W,
    state: Editing,
    model: &[u8],
    plan: &[u8],
    e: Edit,
) -> io::Result<Editing> {
    let step = edits::ask(state, model, plan, e);
    print_told(out, step.answer)?;
    Ok(step.state)
}

// Keeps what was asked for, prints what that answers, and hands on the state.
fn keep<W: Write>(
    out: &mut W,
    state: Editing,
    model: &[u8],
    plan: &mut [u8],
) -> io::Result<Editing> {
    let step = edits::keep(state, model, plan);
    print_done(out, step.answer.map_err(edits::unkept_numbers))?;
    Ok(step.state)
}

// A call of an editor.
#[derive(Clone, Copy)]
pub enum Call {
    Clear,
    Mark,
    AskClear,
    AskMark,
    Keep,
}

// The file's numbers of the calls. Any other number is a clear.
impl From<u32> for Call {
    fn from(number: u32) -> Call {
        match number {
            1 => Call::Mark,
            2 => Call::AskClear,
            3 => Call::AskMark,
            4 => Call::Keep,
            _ => Call::Clear,
        }
    }
}

// A mark or a clear.
fn edited(state: Editing, model: &[u8], plan: &mut [u8], e: Edit) -> Step<Edited> {
    if e.on {
        return edits::mark_with(state, model, plan, e.activity, e.tick);
    }
    edits::clear_with(state, model, plan, e.activity, e.tick)
}

// Makes a mark or a clear, prints what it answers, and hands on the state.
fn edit<W: Write>(
    out: &mut W,
    state: Editing,
    model: &[u8],
    plan: &mut [u8],
    e: Edit,
) -> io::Result<Editing> {
    let step = edited(state, model, plan, e);
    print_done(out, step.answer.map_err(edits::reason_numbers))?;
    Ok(step.state)
}

// Reads the next call of an editor, makes it, and hands on the state.
fn next_step<R: Read, W: Write>(
    cases: &mut R,
    out: &mut W,
    state: Editing,
    model: &[u8],
    plan: &mut [u8],
) -> io::Result<Editing> {
    let call = Call::from(next_number(cases));
    let e = Edit {
        on: matches!(call, Call::Mark | Call::AskMark),
        activity: next_number(cases),
        tick: next_number(cases),
    };
    match call {
        Call::Mark | Call::Clear => edit(out, state, model, plan, e),
        Call::AskMark | Call::AskClear => ask_for(out, state, model, plan, e),
        Call::Keep => keep(out, state, model, plan),
    }
}

// Reads the next calls of an editor on a plan, as many as the file says, and prints what each answers, and the plan afterwards.
fn next_steps<R: Read, W: Write>(
    cases: &mut R,
    out: &mut W,
    model: &[u8],
    plan: &mut [u8],
) -> io::Result<()> {
    let count = next_number(cases);
    let mut state = edits::begin();
    for _ in 0..count {
        state = next_step(cases, out, state, model, plan)?;
    }
    print_list(out, "plan", plan)
}

// Reads the next case of edits through a state and prints it.
pub fn next_case<R: Read, W: Write>(cases: &mut R, out: &mut W) -> io::Result<()> {
    let mut model = [0u8; 1024];
    let mut plan = [0u8; 17189];
    let model = next_record(cases, &mut model);
    let plan = next_record(cases, &mut plan);
    next_steps(cases, out, model, plan)
}
