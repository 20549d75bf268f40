// `gridcheck` (model, plan): reads both from standard input and "prints two lines, the first beginning `plain`, the
// second `strict`; then `accepted` and the three figures, or `refused` and number, A, B".
#![tactic(auto)]

ghost use Rattle.std.specs.Prelude.{◌≡◌};
ghost use Rattle.std.proofs.Common.{rules};
ghost use Rattle.schedule.specs.Streams.{input_limit};
ghost use Rattle.schedule.specs.Lines.{gridcheck};

use input::Kept;
use programs::{Front, LIMIT, Program};
use std::io;

// Room for both lines.
const ROOM: usize = 128;

struct Gridcheck;

impl Program<LIMIT, ROOM> for Gridcheck {
    ghost takes = { input_limit };

    ghost printed = { gridcheck };

    // The two lines for what was read. The array that is read into has the limit's length.
    fn answer(input: &Front<LIMIT>) -> Front<ROOM>
        ensures limit { LIMIT ≡ input_limit }
        ensures text { result ≡ gridcheck input.now }
    {
        let taken = input.as_bytes();
        let model = streams::first_record(taken);
        let plan = streams::second_record(taken);
        let plain = checks::check_plain(model, plan);
        let strict = checks::check_strict(model, plan);
        let mut bytes = [0u8; ROOM];
        let length = text::check_lines(&mut bytes, plain, strict);
        Front::new(bytes, length)
    }

    ghost limit = { Prim.search rules };

    ghost room = { Prim.search rules };
}

// Each program has a main of its own. A shared one would be a public function that promises nothing, so no edit of it could be
// refused, and each public function has such an edit.
// Where a read fails nothing is printed on standard output. What failed, and why, goes to standard error, and the status is 0.
fn main(rt: HostRuntime) {
    let mut stdin = Kept::new(rt.stdin());
    let done = programs::run::<Gridcheck, _, _, LIMIT, ROOM>(&mut stdin, &mut io::writer(&rt));
    if let Err(failed) = done {
        let e = failed.as_kept(&stdin);
        let _ = eprintln!(rt; "gridcheck: {e}");
    }
}
