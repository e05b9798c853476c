// The tally of the last line `T`: changes made, SCX that answered no, LLX that answered Fail. Every answer brings it up to date.
#![tactic(auto)]

ghost use Rattle.std.specs.Prelude.{◌≡◌, []};
ghost use Rattle.rules.specs.Places.{helping_of, operation_of};
ghost use Rattle.tally.specs.Count.{tally_of, counted_of};

use table::{After, Answer, Operation, Place};

// The three numbers of `T`.
#[derive(Clone, Copy, Default)]
pub struct Tally {
    // SCX that answered yes
    pub made: u16,
    // SCX that answered no
    pub no: u16,
    // LLX that answered Fail
    pub fail: u16,
}

// What an event told: the operation that its task was in before the call, if any, and the answer.
#[derive(Clone, Copy)]
pub struct Told {
    pub operation: Option<Operation>,
    pub answer: Answer,
}

// Who helps its own change is in an SCX; who helps from L8 or L11 is in an LLX. A match, as at `Place`.
fn helping(after: After) -> Operation
    ensures { result ≡ helping_of after }
{
    match after {
        After::Own => Operation::Scx,
        After::AtL8 { .. } | After::AtL11 => Operation::Llx,
    }
}

// The operation that a task at this place is in, if any.
pub fn operation_of(place: Place) -> Option<Operation>
    ensures { result ≡ operation_of place }
{
    match place {
        Place::Idle => None,
        Place::H1 { after, .. }
        | Place::H2 { after, .. }
        | Place::H3 { after, .. }
        | Place::H4 { after, .. }
        | Place::H5 { after, .. }
        | Place::H6 { after, .. }
        | Place::H7 { after, .. }
        | Place::H8 { after, .. } => Some(helping(after)),
        Place::Vlx { .. } => Some(Operation::Vlx),
        Place::Read { .. } => Some(Operation::Read),
        _ => Some(Operation::Llx),
    }
}

// The tally of no answers.
#[tactic(auto, unfolding(crate::specs::Count::counts, crate::specs::Count::tally_of))]
pub fn none() -> Tally
    ensures { result ≡ tally_of [] }
{
    Tally::default()
}

// The thin function that each event's answer is told to: the lent tally is brought up to date. An SCX's yes is a change made; a VLX's yes
// or no counts nowhere. A number of the tally has 16 bits and a sheet at most 5,000 events, so none wraps.
#[tactic(auto, unfolding(crate::specs::Count::counted_of))]
pub fn count(tally: &mut Tally, told: Told)
    ensures { tally.new ≡ counted_of tally.old told }
{
    match (told.operation, told.answer) {
        (Some(Operation::Scx), Answer::Yes) => tally.made = tally.made.wrapping_add(1),
        (Some(Operation::Scx), Answer::No) => tally.no = tally.no.wrapping_add(1),
        (Some(Operation::Llx), Answer::Fail) => tally.fail = tally.fail.wrapping_add(1),
        _ => {}
    }
}
