// `gridlate` (model, choice): reads both from standard input as `gridrun` does, and "prints activity and figure by line, for
// 43 too, then the last line" of `gridrun`. Every other refusal is that last line alone.
#![tactic(auto)]

ghost use Rattle.std.specs.Prelude.{◌≡◌};
ghost use Rattle.std.proofs.Common.{rules};
ghost use Rattle.schedule.specs.Streams.{input_limit};
ghost use Rattle.schedule.specs.Lines.{gridlate};

use input::Kept;
use programs::{Front, LIMIT, Program};
use std::io;

// The rows of the report.
const ROWS: usize = 32;

// Room for the lines of 32 activities and the last line.
const ROOM: usize = 512;

struct Gridlate;

impl Program<LIMIT, ROOM> for Gridlate {
    ghost takes = { input_limit };

    ghost printed = { gridlate };

    // The lines for what was read. The array that is read into has the limit's length.
    fn answer(input: &Front<LIMIT>) -> Front<ROOM>
        ensures limit { LIMIT ≡ input_limit }
        ensures text { result ≡ gridlate input.now }
    {
        let taken = input.as_bytes();
        let model = streams::first_record(taken);
        let choice = streams::second_record(taken);
        let sizes = records::model::counts(model);
        let mut rows = [0i32; ROWS];
        let verdict = report::lateness(model, choice, &mut rows);
        let mut bytes = [0u8; ROOM];
        let length = text::late_lines(&mut bytes, verdict, sizes.activities, &rows);
        Front::new(bytes, length)
    }

    ghost limit = { Prim.search rules };

    ghost room = { Prim.search rules };
}

// Each program has a main of its own. A shared one would be a public function that promises nothing, so no edit of it could be
// refused, and each public function has such an edit.
// Where a read fails nothing is printed on standard output. What failed, and why, goes to standard error, and the status is 0.
fn main(rt: HostRuntime) {
    let mut stdin = Kept::new(rt.stdin());
    let done = programs::run::<Gridlate, _, _, LIMIT, ROOM>(&mut stdin, &mut io::writer(&rt));
    if let Err(failed) = done {
        let e = failed.as_kept(&stdin);
        let _ = eprintln!(rt; "gridlate: {e}");
    }
}
