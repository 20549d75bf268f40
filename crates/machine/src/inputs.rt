// What the machine is given.
ghost use Rattle.std.specs.Prelude.{◌≤◌};

use tables::ByActivity;

// What the machine needs of a model and the chosen releases: how many activities and cores there are, and tables by activity.
// Tables and no rows: all but the last are filled from one column of the records each (`tables::columns::table` is public).
// Nothing is allocated, so each has room for 32.
#[derive(Clone, Copy)]
pub(crate) struct Tables {
    pub(crate) activities: usize,
    pub(crate) cores: u32,
    pub(crate) releases: ByActivity,
    pub(crate) delays: ByActivity,
    // the predecessors, as masks
    pub(crate) temporal: ByActivity,
    pub(crate) by_data: ByActivity,
    pub(crate) widths: ByActivity,
    // the activities in rank order: at each place of the ranking the word of the one that stands there
    pub(crate) order: ByActivity,
    // a word has a bit for each activity
    ghost few: { activities ≤ 32 },
}
