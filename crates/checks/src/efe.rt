// efe, and the ticks from which activities can wait, by activity: predecessors have lower numbers.
ghost use Rattle.std.specs.Prelude.{◌≡◌, ℕ, ◌≤◌, ◌<◌, max, get_or};
ghost use Rattle.schedule.specs.Fields.{Bytes};
ghost use Rattle.schedule.specs.Model.{model, Ordered};
ghost use Rattle.schedule.specs.Plan.{plan};
ghost use Rattle.schedule.specs.Checks.{count_of};
ghost use Rattle.tables.specs.Columns.{TableOf};
ghost use Rattle.checks.specs.Tables.{after, finish_of, from_of};

use records::model::{Activity, owner};
use tables::ByActivity;
use ticks::let_go;

// A model, as far as the passes over predecessors read it: how many activities it has, and their delays. The delays are a table
// and no rows: they are a column of the model as it was read (`tables::columns::table` is public).
#[derive(Clone, Copy)]
pub(crate) struct Predecessors<'a> {
    pub(crate) s: &'a [u8],
    pub(crate) n: u8,
    pub(crate) delays: &'a ByActivity,
    ghost bytes: { Bytes s.now },
    ghost activities: { n ≡ (model s.now).activities },
    ghost few: { n ≤ 32 },
    ghost delays_read: { TableOf (model s.now) delays.now (model s.now).delay },
}

impl<'a> Predecessors<'a> {
    // The latest that a's predecessors let go, where a table says when each activity is done. The only loop of its shape in this
    // crate: the one of the tables (`greatest`) goes over a closure and so is private to them.
    fn after(&self, a: Activity, done: &ByActivity) -> u32
        requires { (b : ℕ) → b < self.now.n → get_or done.now b 0 < 2147483648 }
        ensures { result ≡ after (model self.now.s.now) self.now.n (λ b. get_or done.now b 0) a.0 }
    {
        let row = records::model::activity_row(self.s, a);
        let temporal = row.temporal_mask;
        let by_data = row.data_mask;
        let mut latest: u32 = 0;
        for number in 0..self.n {
            let free = let_go(
                bits::has(temporal, number as u32),
                bits::has(by_data, number as u32),
                done[number as usize],
                self.delays[number as usize],
            );
            latest = latest.max(free);
        }
        latest
    }

    // The earliest that a could start with cores enough, where a table says when its predecessors could be finished.
    fn earliest(&self, r: &[u8], a: Activity, done: &ByActivity) -> u32
        requires { (b : ℕ) → b < self.now.n → get_or done.now b 0 < 2147483648 }
        ensures { result ≡ max ((plan r.now).release ((model self.now.s.now).thread a.0))
            (after (model self.now.s.now) self.now.n (λ b. get_or done.now b 0) a.0) }
    {
        let row = records::plan::thread_row(r, owner(self.s, a));
        let release = row.release as u32;
        release.max(self.after(a, done))
    }

    // When each activity could be finished with cores enough: efe(a) + count(a).
    pub(crate) fn finishes(&self, r: &[u8], counts: &ByActivity) -> ByActivity
        requires ordered { Ordered (model self.now.s.now) }
        requires counts_read { TableOf (model self.now.s.now) counts.now (count_of (model self.now.s.now) (plan r.now)) }
        ensures { TableOf (model self.now.s.now) result (finish_of (model self.now.s.now) (plan r.now)) }
    {
        let mut table = [0u32; 32];
        for number in 0..self.n {
            let efe = self.earliest(r, Activity(number), &table);
            table[number as usize] = efe + counts[number as usize];
        }
        table
    }

    // The ticks from which the activities can wait: from efe on, and after their predecessors' ends. A table made by a loop of its
    // own: the tables' function for that is private to their crate.
    pub(crate) fn froms(
        &self,
        finishes: &ByActivity,
        counts: &ByActivity,
        ends: &ByActivity,
    ) -> ByActivity
        requires { (b : ℕ) → b < self.now.n → get_or ends.now b 0 < 2147483648 }
        ensures { TableOf (model self.now.s.now) result
            (from_of (model self.now.s.now) finishes.now counts.now ends.now) }
    {
        let mut table = [0u32; 32];
        for number in 0..self.n {
            let efe = finishes[number as usize].saturating_sub(counts[number as usize]);
            table[number as usize] = efe.max(self.after(Activity(number), ends));
        }
        table
    }
}
