// Who ranks before whom: "Rank the ready by priority, highest first, then by lower activity number".
ghost use Rattle.std.specs.Prelude.{◌≡◌, ◌<◌, get_or};
ghost use Rattle.schedule.specs.Model.{model};
ghost use Rattle.schedule.specs.Bounded.{word_of};
ghost use Rattle.tables.specs.Ranking.{ranks, ranking_of};

use crate::columns::{Column, Places};
use crate::{ByActivity, columns, each};
use records::model::Activity;

// In what sense one activity comes before another.
#[derive(Clone, Copy)]
pub enum Order {
    // by a higher priority
    Higher,
    // at one priority, by a lower number
    Level,
    // by one or the other
    Before,
}

// b comes before a, where a table holds the priorities. Which order it is stays a value, since a public function takes it.
fn precedes(order: Order, priorities: &ByActivity, b: Activity, a: Activity) -> bool
    requires { (b.0 < 32) × (a.0 < 32) }
    ensures { result ≡ ranks order (λ i. get_or priorities.now i 0) b.0 a.0 }
{
    let other = priorities[b.0 as usize];
    let own = priorities[a.0 as usize];
    match order {
        Order::Higher => own < other,
        Order::Level => other == own && b.0 < a.0,
        Order::Before => own < other || (other == own && b.0 < a.0),
    }
}

// The activities that come before a.
fn mask(order: Order, places: Places, priorities: &ByActivity, a: Activity) -> u32
    requires { a.0 < 32 }
    ensures { result ≡ word_of places.n (λ b. ranks order (λ i. get_or priorities.now i 0) b a.0) }
{
    each::word(places, |b| precedes(order, priorities, Activity(b), a))
}

// For each activity of a model the activities that come before it, none from there on.
pub fn masks(order: Order, s: &[u8]) -> ByActivity
    ensures { result ≡ ranking_of order (model s.now) }
{
    let places = columns::rows(s);
    // a column of the model: the second record plays no part
    let priorities = columns::table(Column::Priority, s, s);
    each::table(places.n, |a| mask(order, places, &priorities, Activity(a)))
}
