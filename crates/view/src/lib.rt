// "a held view of one grid: made over a plan that passes 8 to 14, it gives the word at a tick, or past for a tick ≥ H". The
// functions over the struct take it apart or put it together, and leave the work to those over plain slices.
#![tactic(auto)]

ghost use Rattle.std.specs.Prelude.{◌≡◌};
ghost use Rattle.schedule.specs.Streams.{view_refusal, view_word};
ghost use Rattle.schedule.specs.Numbers.{word_numbers};
ghost use Rattle.records.specs.Reads.{pass_numbers};
ghost use Rattle.schedule.specs.Lent.{LiesAt};
ghost use Rattle.view.specs.Grid.{held_bytes, held_from, grid_word, HeldOver};

use schedule::Refusal;

// "a struct over the plan's grid slice", and what its making answered. No Result of a view: making one cannot fail, and a refused
// making leaves a view too, over no words.
#[derive(Clone, Copy)]
pub struct View<'a> {
    pub grid: &'a [u8],
    pub made: Result<(), Refusal>,
}

// ---- over plain slices

// The form rules of both records: "refused with the number, A and B that the check gives".
pub fn refusal(model: &[u8], plan: &[u8]) -> Result<(), Refusal>
    ensures { pass_numbers result ≡ view_refusal model.now plan.now }
{
    records::model::read(model)?;
    records::plan::read(model, plan)
}

// The part of a plan that is held: its words, and none where the making is refused.
fn held(plan: &[u8], made: Result<(), Refusal>) -> &[u8]
    ensures { (result.now ≡ held_bytes (pass_numbers made) plan.now)
        × LiesAt plan.entry (held_from (pass_numbers made) plan.now) result }
{
    match made {
        Ok(()) => records::plan::words(plan),
        Err(_) => &plan[0..0],
    }
}

// The word at a tick, of any part that is held, and past the last one none.
fn word_in(grid: &[u8], t: usize) -> Option<u32>
    ensures { word_numbers result ≡ grid_word grid.now t }
{
    if t < records::grid::ticks(grid) {
        Some(records::grid::word(grid, t))
    } else {
        None
    }
}

// ---- over the struct

// The making: refused or not, it leaves a view, which may be held and asked at any ticks.
pub fn over<'a>(model: &[u8], plan: &'a [u8]) -> View<'a>
    ensures { (pass_numbers result.made ≡ view_refusal model.now plan.now)
        × HeldOver model.now plan.entry result.grid }
{
    let made = refusal(model, plan);
    View {
        grid: held(plan, made),
        made,
    }
}

// "a thin call for the word at a tick": of every view, also one that no making made.
pub fn word<'a>(view: View<'a>, t: usize) -> Option<u32>
    ensures { word_numbers result ≡ grid_word view.entry.grid.now t }
{
    word_in(view.grid, t)
}

// The word at a tick of the view made over a model and a plan.
pub fn word_at(model: &[u8], plan: &[u8], t: usize) -> Option<u32>
    ensures { word_numbers result ≡ view_word model.now plan.now t }
{
    word(over(model, plan), t)
}
