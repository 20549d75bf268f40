// What the rules of activities and of ticks both look up of a model and a plan, by activity: tables of 32 numbers. The rules
// are methods of the page that has them.
ghost use Rattle.std.specs.Prelude.{◌≡◌, ℕ, ◌<◌};
ghost use Rattle.std.proofs.Props.{props};
ghost use Rattle.schedule.specs.Model.{model, Formed};
ghost use Rattle.schedule.specs.Plan.{plan};
ghost use Rattle.tables.specs.Loads.{widths_of};
ghost use Rattle.checks.specs.Tables.{Tabulated};
ghost use Rattle.checks.specs.Rules.{Counted};

use crate::efe::Predecessors;
use tables::ByActivity;
use tables::columns::Column;
use tables::loads::Widths;
use tables::ranking::Order;

// The tables together. Tables and no rows: most are filled from one column of the records (`tables::columns::table` is public).
// Nothing is allocated, so each has room for 32.
#[derive(Clone, Copy)]
pub(crate) struct Tables {
    // "count(a) is the number of words with bit a"
    pub(crate) counts: ByActivity,
    // the plan's ends
    pub(crate) ends: ByActivity,
    // the model's delays
    pub(crate) delays: ByActivity,
    // efe(a) + count(a): when a could be finished with cores enough
    pub(crate) finishes: ByActivity,
    // the tick from which a can wait
    pub(crate) froms: ByActivity,
    // those that rank before a, as a word
    pub(crate) befores: ByActivity,
}

// The tables of a model and a plan.
pub(crate) fn tabulate(s: &[u8], r: &[u8]) -> Tables
    requires { Formed (model s.now) }
    ensures { Tabulated (model s.now) (plan r.now) result }
{
    let counts = tables::counts::counts(s, r);
    let ends = tables::columns::table(Column::PlanEnd, s, r);
    let delays = tables::columns::table(Column::Delay, s, r);
    let sizes = records::model::counts(s);
    let predecessors = Predecessors {
        s,
        n: sizes.activities,
        delays: &delays,
    };
    let finishes = predecessors.finishes(r, &counts);
    let froms = predecessors.froms(&finishes, &counts, &ends);
    let befores = tables::ranking::masks(Order::Before, s);
    Tables {
        counts,
        ends,
        delays,
        finishes,
        froms,
        befores,
    }
}

// A well-formed model and a plan, with what the rules look up of them: the tables, the activities that are active outside
// their window, as a word, and the widths.
#[derive(Clone, Copy)]
pub(crate) struct Page<'a> {
    pub(crate) s: &'a [u8],
    pub(crate) r: &'a [u8],
    pub(crate) tables: &'a Tables,
    pub(crate) outside: u32,
    pub(crate) widths: Widths,
    ghost counted: { Counted (model s.now) (plan r.now) outside tables.now } by { Prim.hlevel props },
    ghost narrow: { (a : ℕ) → (model s.now).width a < 256 },
    ghost widths_read: { widths ≡ widths_of (model s.now) },
}
