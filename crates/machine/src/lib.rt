// "The run, as a plain machine": it plays the machine of a model and a choice, with a page or without one.
#![tactic(auto)]

mod ending;
mod inputs;
mod stretches;
mod tick;

ghost use Rattle.std.specs.Prelude.{◌≡◌, ◌≤◌};
ghost use Rattle.schedule.specs.Model.{model};
ghost use Rattle.schedule.specs.Choice.{choice};
ghost use Rattle.tables.specs.Columns.{TableOf};
ghost use Rattle.machine.specs.Masks.{at_place, Tabled};
ghost use Rattle.machine.specs.Played.{Finished, played_ends, judged_numbers, played_judgement, played_grid};

use inputs::Tables;
use schedule::Refusal;
use tables::ByActivity;
use tables::columns::Column;
use tables::ranking::Order;

// The machine's state: "for each activity the ticks still owed, and its end once nothing is owed". Two tables and no rows: the
// first is filled from a column of the records, and the second is handed out (`Played`).
#[derive(Clone, Copy)]
struct State {
    owed: ByActivity,
    ends: ByActivity,
}

// "The run succeeds if nothing is owed and each end keeps the deadline (rule 23)", else 42 or 43; or the machine was not played: three
// cases, so neither an Option nor a Result.
#[derive(Clone, Copy)]
pub enum Judged {
    Succeeds,
    Refused(Refusal),
    NotPlayed,
}

// How the machine ends: the ends by activity, and how they are judged.
#[derive(Clone, Copy)]
pub struct Played {
    pub ends: ByActivity,
    pub judged: Judged,
}

// The activities in rank order: at each place the word of the one that so many rank before.
fn order(s: &[u8]) -> ByActivity
    requires { (model s.now).activities ≤ 32 }
    ensures { TableOf (model s.now) result (at_place (model s.now)) }
{
    let sizes = records::model::counts(s);
    let n = sizes.activities as usize;
    let befores = tables::ranking::masks(Order::Before, s);
    let mut order = [0u32; 32];
    for a in 0..n {
        let place = bits::ones(befores[a]) as usize;
        order[place] = bits::with(order[place], a as u32);
    }
    order
}

// What the machine needs of a model and the chosen releases.
fn tabulate(s: &[u8], q: &[u8]) -> Tables
    requires { (model s.now).activities ≤ 32 }
    ensures { Tabled (model s.now) (choice q.now).release result }
{
    let sizes = records::model::counts(s);
    Tables {
        activities: sizes.activities as usize,
        cores: sizes.cores as u32,
        releases: tables::columns::table(Column::ChosenRelease, s, q),
        delays: tables::columns::table(Column::Delay, s, q),
        temporal: tables::columns::table(Column::Temporal, s, q),
        by_data: tables::columns::table(Column::ByData, s, q),
        widths: tables::columns::table(Column::Width, s, q),
        order: order(s),
    }
}

// "At the beginning t = 0 and each activity owes its chosen duration. .. Then t grows by one; stop at H." The words of the
// ticks for which the grid has room are written into it.
fn play_ticks(s: &[u8], q: &[u8], tables: &Tables, grid: &mut [u8]) -> State
    requires { Tabled (model s.now) (choice q.now).release tables.now }
    ensures { Finished (model s.now) (choice q.now) grid.old grid.new
        result.owed result.ends }
{
    let sizes = records::model::counts(s);
    let mut state = State {
        owed: tables::columns::table(Column::ChosenDuration, s, q),
        ends: [0; 32],
    };
    let mut kept = ticks::unknown();
    for t in 0..sizes.horizon {
        kept = tables.at(kept, &state, t);
        state.step(kept.word, t);
        records::grid::put_word(grid, t as usize, kept.word);
    }
    state
}

// Plays the machine of a model and a choice of any bytes, into a grid of any length: an empty one where no page is wanted.
// A model of more activities than a word has bits is not played: the answer says so, every end is 0 and the grid stays as it
// was. No model that meets its form rules has so many.
pub fn play(s: &[u8], q: &[u8], grid: &mut [u8]) -> Played
    ensures { (result.ends ≡ played_ends (model s.now) (choice q.now))
        × (judged_numbers result.judged ≡ played_judgement (model s.now) (choice q.now))
        × (grid.new ≡ played_grid (model s.now) (choice q.now) grid.old) }
{
    let sizes = records::model::counts(s);
    if 32 < sizes.activities {
        return Played {
            ends: [0u32; 32],
            judged: Judged::NotPlayed,
        };
    }
    let tables = tabulate(s, q);
    let last = play_ticks(s, q, &tables, grid);
    Played {
        ends: last.ends,
        judged: ending::judge(s, q, &tables, &last),
    }
}
