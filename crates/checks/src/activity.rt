// Rules 21 to 23 and 25 to 27, activity by activity.
ghost use Rattle.std.specs.Prelude.{◌≡◌, not, ◌+◌, ◌<◌, leb};
ghost use Rattle.schedule.specs.Bounded.{◌⇒◌};
ghost use Rattle.schedule.specs.Rule.{break};
ghost use Rattle.schedule.specs.Records.{within};
ghost use Rattle.schedule.specs.Model.{model};
ghost use Rattle.schedule.specs.Timing.{in_time};
ghost use Rattle.schedule.specs.Plan.{plan, plan_timing};
ghost use Rattle.schedule.specs.Checks.{window};
ghost use Rattle.records.specs.Reads.{pass_numbers};
ghost use Rattle.checks.specs.Tables.{broken_mask};
ghost use Rattle.checks.specs.Rules.{activity_rule, early_from};

use crate::page::Page;
use crate::{first_place, flag, refused, word};
use records::model::{Activity, owner};
use schedule::{ActivityRule, Refusal, RuleRefusal};
use tables::ByActivity;
use ticks::{on_time, passed, spans};

// 22 at activity a, with its count.
fn count_holds(s: &[u8], a: Activity, count: u32) -> bool
    ensures { result
        ≡ within ((model s.now).least_duration a.0) ((model s.now).most_duration a.0) count }
{
    let row = records::model::activity_row(s, a);
    row.least_duration as u32 <= count && count <= row.most_duration as u32
}

// 23 at activity a.
fn deadline_holds(s: &[u8], r: &[u8], a: Activity) -> bool
    ensures { result
        ≡ in_time (model s.now) (plan_timing (plan r.now)) (plan r.now).end a.0 }
{
    let row = records::plan::thread_row(r, owner(s, a));
    let span = records::plan::activity_row(r, a);
    on_time(row.release as u32, row.period as u32, span.end as u32)
}

// Whether a start comes before a predecessor's end and delay.
fn too_early(precedes: bool, start: u32, end: u32, delay: u32) -> bool
    ensures { result ≡ not (precedes ⇒ leb (end + delay) start) }
{
    precedes && !passed(end, delay, start)
}

impl<'a> Page<'a> {
    // 21 at activity a.
    fn window_holds(&self, a: Activity) -> bool
        requires { a.0 < (model self.now.s.now).activities }
        ensures { result ≡ window (model self.now.s.now) (plan self.now.r.now) a.0 }
    {
        let number = a.0 as u32;
        let row = records::plan::activity_row(self.r, a);
        let sizes = records::model::counts(self.s);
        spans(row.start as u32, row.end as u32, sizes.horizon as u32)
            && bits::has(records::plan::word(self.r, row.start), number)
            && bits::has(records::plan::word(self.r, row.end - 1), number)
            && !bits::has(self.outside, number)
    }

    // 25 and 26: the predecessors that a start comes too early after.
    fn early_mask(&self, preceding: u32, start: u32, delays: &ByActivity) -> u32
        ensures { result
            ≡ early_from preceding start (model self.now.s.now).activities self.now.tables.now.ends delays.now }
    {
        let sizes = records::model::counts(self.s);
        let ends = &self.tables.ends;
        word(sizes.activities as usize, |b| {
            too_early(bits::has(preceding, b as u32), start, ends[b], delays[b])
        })
    }

    // The places at which a rule is broken at activity a: the predecessors B for 25 and 26, bit 0 for the others. The rule stays a
    // value: its refusal carries it (`RuleRefusal::Activity`).
    fn breaking(&self, rule: ActivityRule, a: Activity) -> u32
        requires { a.0 < (model self.now.s.now).activities }
        ensures { result
            ≡ broken_mask (activity_rule rule (model self.now.s.now) (plan self.now.r.now)) a.0 }
    {
        let s = self.s;
        let r = self.r;
        let tables = self.tables;
        let span = records::plan::activity_row(r, a);
        let start = span.start as u32;
        let number = a.0 as usize;
        match rule {
            ActivityRule::Window => flag(self.window_holds(a)),
            ActivityRule::Count => flag(count_holds(s, a, tables.counts[number])),
            ActivityRule::Deadline => flag(deadline_holds(s, r, a)),
            ActivityRule::Temporal => self.early_mask(
                records::model::activity_row(s, a).temporal_mask,
                start,
                &tables.delays,
            ),
            ActivityRule::Data => self.early_mask(
                records::model::activity_row(s, a).data_mask,
                start,
                &[0u32; 32],
            ),
            ActivityRule::Eligible => {
                let efe = tables.finishes[number].saturating_sub(tables.counts[number]);
                flag(efe <= start)
            }
        }
    }

    // A rule tried at every activity: "lowest A first, then lowest B".
    pub(crate) fn over_activities(&self, rule: ActivityRule) -> Result<(), Refusal>
        ensures { pass_numbers result
            ≡ break (activity_rule rule (model self.now.s.now) (plan self.now.r.now)) }
    {
        let sizes = records::model::counts(self.s);
        for number in 0..sizes.activities {
            let places = self.breaking(rule, Activity(number));
            if let Some(b) = first_place(places) {
                return refused(RuleRefusal::Activity(rule), number as u32, b);
            }
        }
        Ok(())
    }
}
