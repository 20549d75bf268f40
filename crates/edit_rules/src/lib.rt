// What the calls of an editor are given and what they answer (U8 and U9 of 02). specs/EditNumbers.antt gives the paper's number
// and values for each case; the calls themselves are those of crate edits.
#![tactic(auto)]

ghost use Rattle.std.specs.Prelude.{◌≡◌};
ghost use Rattle.edit_rules.specs.declared.Reason.{Reason};
ghost use Rattle.edit_rules.specs.declared.Unkept.{Unkept};

use schedule::{Refusal, Verdict};

// An edit of an activity's bit at a tick: a mark where `on`, and otherwise a clear.
#[derive(Clone, Copy)]
pub struct Edit {
    pub on: bool,
    pub activity: u32,
    pub tick: u32,
}

// "An editing state .. goes through all these calls and the direct edits": it comes in by value and goes out by value. Nothing is
// asked, or one edit is.
#[derive(Clone, Copy)]
pub struct Editing {
    pub asked: Option<Edit>,
}

// Refusals 58 to 60, of the edit itself. They name no place.
#[derive(Clone, Copy)]
pub enum EditRefusal {
    // 58 "activity outside m"
    Activity,
    // 59 "tick outside H"
    Tick,
    // 60 "a bit already so"
    Bit,
}

// Why an edit is refused: by the form of a record, or by the edit itself.
#[derive(Clone, Copy)]
pub enum Reason {
    Record(Refusal),
    Edit(EditRefusal),
}

impl From<Refusal> for Reason {
    ghost from_gives = { λ x y. y ≡ Reason.Record x };

    fn from(x: Refusal) -> Reason {
        Reason::Record(x)
    }
}

// What a mark or a clear answers: "An unrefused call answers no figure."
pub type Edited = Result<(), Reason>;

// Why a keep is refused.
#[derive(Clone, Copy)]
pub enum Unkept {
    // 61 "keeping with nothing asked, or with any kept edit since the asking"; it names no place
    NothingAsked,
    // as a direct edit is
    Edit(Reason),
}

impl From<Reason> for Unkept {
    ghost from_gives = { λ x y. y ≡ Unkept.Edit x };

    fn from(x: Reason) -> Unkept {
        Unkept::Edit(x)
    }
}

// What a keep answers: no figure either.
pub type Kept = Result<(), Unkept>;

// What an ask answers: "the plain verdict that the plan would have", which is accepted or one of 21 to 29; or why the edit would
// be refused.
pub type Told = Result<Verdict, Reason>;

// What a call answers, and the state afterwards.
#[derive(Clone, Copy)]
pub struct Step<T> {
    pub answer: T,
    pub state: Editing,
}
