// "count(a) is the number of words with bit a"
ghost use Rattle.std.specs.Prelude.{◌≡◌, ℕ, ◌<◌, length, get_or};
ghost use Rattle.schedule.specs.Bounded.{table};
ghost use Rattle.schedule.specs.Model.{model};
ghost use Rattle.schedule.specs.Plan.{plan};
ghost use Rattle.schedule.specs.Checks.{count_of};
ghost use Rattle.tables.specs.Counts.{Tallied};

use crate::ByActivity;

// One more for each activity of a word. The loop walks over the bits that are set, and counts no index.
fn tally(word: u32, counts: &mut ByActivity)
    requires { (length counts.old ≡ 32) × ((a : ℕ) → get_or counts.old a 0 < 65536) }
    ensures { Tallied word counts.old counts.new }
{
    let mut rest = word;
    while rest != 0 {
        let a = bits::lowest(rest);
        counts[a as usize] += 1;
        rest = bits::without(rest, a);
    }
}

// The counts of a plan's words, over the model's ticks: of each bit, whether or not it is an activity.
pub fn counts(s: &[u8], r: &[u8]) -> ByActivity
    ensures { result ≡ table 32 (count_of (model s.now) (plan r.now)) }
{
    let sizes = records::model::counts(s);
    let grid = records::plan::words(r);
    let mut counted = [0u32; 32];
    for t in 0..sizes.horizon {
        tally(records::grid::word(grid, t as usize), &mut counted);
    }
    counted
}
