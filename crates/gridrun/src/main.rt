// `gridrun` (model, choice): reads both from standard input and "prints on success a line for each tick, the tick then the
// word as 8 lowercase hexadecimal digits, then `run accepted` with the three figures; else only `run refused` with number,
// A, B".
#![tactic(auto)]

ghost use Rattle.std.specs.Prelude.{◌≡◌};
ghost use Rattle.std.proofs.Common.{rules};
ghost use Rattle.schedule.specs.Streams.{input_limit};
ghost use Rattle.schedule.specs.Lines.{gridrun};

use input::Kept;
use programs::{Front, LIMIT, Program};
use std::io;

// The longest plan.
const PLAN: usize = 16553;

// Room for the lines of 4096 ticks and the last line.
const ROOM: usize = 60000;

struct Gridrun;

impl Program<LIMIT, ROOM> for Gridrun {
    ghost takes = { input_limit };

    ghost printed = { gridrun };

    // The lines for what was read. The array that is read into has the limit's length.
    fn answer(input: &Front<LIMIT>) -> Front<ROOM>
        ensures limit { LIMIT ≡ input_limit }
        ensures text { result ≡ gridrun input.now }
    {
        let taken = input.as_bytes();
        let model = streams::first_record(taken);
        let choice = streams::second_record(taken);
        let mut plan = [0u8; PLAN];
        let verdict = run::run(model, choice, &mut plan);
        let mut bytes = [0u8; ROOM];
        let length = text::run_lines(&mut bytes, verdict, &plan);
        Front::new(bytes, length)
    }

    ghost limit = { Prim.search rules };

    ghost room = { Prim.search rules };
}

// Each program has a main of its own. A shared one would be a public function that promises nothing, so no edit of it could be
// refused, and each public function has such an edit.
// Where a read fails nothing is printed on standard output. What failed, and why, goes to standard error, and the status is 0.
fn main(rt: HostRuntime) {
    let mut stdin = Kept::new(rt.stdin());
    let done = programs::run::<Gridrun, _, _, LIMIT, ROOM>(&mut stdin, &mut io::writer(&rt));
    if let Err(failed) = done {
        let e = failed.as_kept(&stdin);
        let _ = eprintln!(rt; "gridrun: {e}");
    }
}
