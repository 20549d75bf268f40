// Rules 28 to 31, tick by tick, on whole words.
ghost use Rattle.std.specs.Prelude.{◌≡◌, ◌<◌};
ghost use Rattle.checks.specs.Tables.{FirstPlace};
ghost use Rattle.checks.specs.Ticks.{tick_rule, Ranked, outranking_of, fits_from, contending_of};
ghost use Rattle.checks.specs.Ticks.{overloaded_of, contested_of, idle_of, breaking_of};
ghost use Rattle.schedule.specs.Rule.{break};
ghost use Rattle.schedule.specs.Model.{model};
ghost use Rattle.schedule.specs.Plan.{plan};
ghost use Rattle.records.specs.Reads.{pass_numbers};

use crate::page::Page;
use crate::windows::Windows;
use crate::{first_place, flag, refused};
use schedule::{Refusal, RuleRefusal, TickRule};
use tables::ByActivity;
use tables::loads::{Widths, load};
use tables::ranking::{Order, masks};

// For each activity those that must not wait while it is active: by 29 those of a higher priority, by 31 those of its own
// priority with a lower number. 28 and 30 compare nobody. The rule stays a value: its refusal carries it.
fn outranked_by(rule: TickRule, s: &[u8]) -> ByActivity
    ensures { Ranked rule (model s.now) result }
{
    match rule {
        TickRule::Preemption => masks(Order::Higher, s),
        TickRule::Tie => masks(Order::Level, s),
        TickRule::Cores | TickRule::Idle => [0u32; 32],
    }
}

// The activities that stand in the mask of some activity of the word. A walk over set bits: no index is counted.
fn outranking(word: u32, masks: &ByActivity) -> u32
    ensures { result ≡ outranking_of masks.now word }
{
    let mut all: u32 = 0;
    let mut rest = word;
    while rest != 0 {
        let a = bits::lowest(rest);
        all |= masks[a as usize];
        rest = bits::without(rest, a);
    }
    all
}

// A tick as the rules see it: the active activities, and those whose window is open, which wait where they are not active.
#[derive(Clone, Copy, PartialEq, Eq)]
struct Snapshot {
    word: u32,
    opened: u32,
}

// A rule with what it looks up at every tick: the cores, the widths, and by activity those that must not wait while it is
// active, and those that rank before it.
#[derive(Clone, Copy)]
struct Trial<'a> {
    rule: TickRule,
    cores: u32,
    widths: Widths,
    outranked: ByActivity,
    befores: &'a ByActivity,
}

impl<'a> Trial<'a> {
    // Whether activity b and the active ones that rank before it take no more cores than there are.
    fn fits(&self, b: u32, word: u32) -> bool
        requires { b < 32 }
        ensures { result ≡ fits_from self.now.widths self.now.befores.now word self.now.cores b }
    {
        let ahead = word & self.befores[b as usize];
        load(self.widths, bits::with(ahead, b)) <= self.cores
    }

    // Those of the waiting that count: "a waiting activity counts only if its width is at most c less the widths of active
    // activities ranked before it" (U7 of 02). A walk over set bits too.
    fn contending(&self, waiting: u32, word: u32) -> u32
        ensures { result ≡ contending_of self.now.widths self.now.befores.now word self.now.cores waiting }
    {
        let mut mask: u32 = 0;
        let mut rest = waiting;
        while rest != 0 {
            let b = bits::lowest(rest);
            let yes = self.fits(b, word);
            mask = bits::mark(mask, b, yes);
            rest = bits::without(rest, b);
        }
        mask
    }

    // 28: bit 0, where more cores are taken than there are.
    fn overloaded(&self, tick: Snapshot) -> u32
        ensures { result ≡ overloaded_of self.now.widths self.now.cores tick }
    {
        flag(load(self.widths, tick.word) <= self.cores)
    }

    // 29 and 31: the waiting that count and stand in the mask of some active activity, where every core is busy.
    fn contested(&self, tick: Snapshot) -> u32
        ensures { result
            ≡ contested_of self.now.widths self.now.outranked self.now.befores.now self.now.cores tick }
    {
        let word = tick.word;
        let waiting = tick.opened & !word;
        if waiting == 0 {
            return 0;
        }
        if load(self.widths, word) == self.cores {
            let above = waiting & outranking(word, &self.outranked);
            return self.contending(above, word);
        }
        0
    }

    // 30: the waiting that count, where a core is free.
    fn idle(&self, tick: Snapshot) -> u32
        ensures { result ≡ idle_of self.now.widths self.now.befores.now self.now.cores tick }
    {
        let word = tick.word;
        let waiting = tick.opened & !word;
        if waiting == 0 {
            return 0;
        }
        if load(self.widths, word) < self.cores {
            return self.contending(waiting, word);
        }
        0
    }

    // The activities that break the rule at a tick; for 28, which names none, bit 0. The rule stays a value, told anew at every
    // tick: its refusal carries it (`RuleRefusal::Tick`).
    fn breaking(&self, tick: Snapshot) -> u32
        ensures { result
            ≡ breaking_of self.now.rule self.now.widths self.now.outranked self.now.befores.now self.now.cores tick }
    {
        match self.rule {
            TickRule::Cores => self.overloaded(tick),
            TickRule::Preemption | TickRule::Tie => self.contested(tick),
            TickRule::Idle => self.idle(tick),
        }
    }

    // The lowest activity that breaks the rule at a tick. `passed` is a tick that breaks nothing; a rule sees no more of a tick than
    // the snapshot, so one with the same snapshot is not tried again.
    fn first_breaking(&self, passed: Snapshot, tick: Snapshot) -> Option<u32>
        requires { breaking_of self.now.rule self.now.widths self.now.outranked self.now.befores.now self.now.cores passed ≡ 0 }
        ensures { FirstPlace
            (breaking_of self.now.rule self.now.widths self.now.outranked self.now.befores.now self.now.cores tick) result }
    {
        if tick == passed {
            return None;
        }
        first_place(self.breaking(tick))
    }
}

impl<'a> Page<'a> {
    // A rule tried at every tick: "lowest A first, then lowest B". Not inlined, so that its loop has the registers to itself.
    #[inline(never)]
    pub(crate) fn over_ticks(&self, rule: TickRule) -> Result<(), Refusal>
        ensures { pass_numbers result ≡ break (tick_rule rule (model self.now.s.now) (plan self.now.r.now)) }
    {
        let sizes = records::model::counts(self.s);
        let windows = Windows {
            n: sizes.activities as usize,
            froms: &self.tables.froms,
            ends: &self.tables.ends,
        };
        let trial = Trial {
            rule,
            cores: sizes.cores as u32,
            widths: self.widths,
            outranked: outranked_by(rule, self.s),
            befores: &self.tables.befores,
        };
        let grid = records::plan::words(self.r);
        let mut waitable = ticks::unknown();
        let mut passed = Snapshot { word: 0, opened: 0 };
        for t in 0..sizes.horizon {
            waitable = windows.at(waitable, t as u32);
            let tick = Snapshot {
                word: records::grid::word(grid, t as usize),
                opened: waitable.word,
            };
            if let Some(b) = trial.first_breaking(passed, tick) {
                return refused(RuleRefusal::Tick(rule), t as u32, b);
            }
            passed = tick;
        }
        Ok(())
    }
}
