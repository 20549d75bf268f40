// The cores that a word's activities take: "the sum of active widths" (U7 of 02). The ones are counted by the language's own
// operation, once for each binary digit of the widths, over the activities whose width has that digit.
ghost use Rattle.std.specs.Prelude.{◌≡◌, ◌^◌, ltb, get_or};
ghost use Rattle.schedule.specs.Bounded.{bit, greatest, lowest, word_of};
ghost use Rattle.schedule.specs.Model.{model};
ghost use Rattle.tables.specs.Loads.{widths_of, load_from};

use crate::columns::{Column, Places};
use crate::{ByActivity, columns, each};

// The widths of a model's activities by binary digits: plane j holds those whose width has the digit worth 2 to the power j.
// The planes from `depth` on are empty: nothing is allocated, so there is always room for eight.
#[derive(Clone, Copy)]
pub struct Widths {
    pub planes: [u32; 8],
    pub depth: u32,
}

// How many binary digits a number below 256 has.
fn digits(x: u32) -> u8
    ensures { result ≡ lowest 8 (λ d. ltb x (2 ^ d)) }
{
    let mut power: u32 = 1;
    for d in 0..8 {
        if x < power {
            return d;
        }
        power = 2 * power;
    }
    8
}

// The activities whose width has digit j.
fn plane(places: Places, column: &ByActivity, j: u8) -> u32
    ensures { result ≡ word_of places.n (λ a. bit (get_or column.now a 0) j) }
{
    each::word(places, |a| bits::has(column[a as usize], j as u32))
}

// The widths of a model's activities.
pub fn widths_of(s: &[u8]) -> Widths
    ensures { result ≡ widths_of (model s.now) }
{
    let places = columns::rows(s);
    // a column of the model: the second record plays no part
    let column = columns::table(Column::Width, s, s);
    let depth = digits(each::greatest(places.n, |a| column[a as usize]));
    Widths {
        planes: each::table(depth, |j| plane(places, &column, j)),
        depth: depth as u32,
    }
}

// "the sum of active widths"
pub fn load(widths: Widths, word: u32) -> u32
    ensures { result ≡ load_from widths word }
{
    let depth = widths.depth.min(8);
    let mut sum: u32 = 0;
    let mut worth: u32 = 1;
    for plane in &widths.planes[..depth as usize] {
        sum += bits::ones(word & *plane) * worth;
        worth = 2 * worth;
    }
    sum
}
