// Numbers that come back: document 01's number for each answer.
#![tactic(auto)]

ghost use Rattle.std.specs.Prelude.{◌≡◌};
ghost use Rattle.rules.specs.Answer.{number, refusal_number};

use table::{Answer, Refusal};

// The number of a refusal, 10 to 25. As a function: its contract has the rules' name for it.
pub fn refusal_number(why: Refusal) -> u8
    ensures { result ≡ refusal_number why }
{
    why as u8
}

// The number of an answer: 0 to 6, or that of its refusal. A match, since `as` takes only an enum whose cases have no fields.
pub fn number_of(answer: Answer) -> u8
    ensures { result ≡ number answer }
{
    match answer {
        Answer::Accepted => 0,
        Answer::Snapshot { .. } => 1,
        Answer::Finalized => 2,
        Answer::Fail => 3,
        Answer::Yes => 4,
        Answer::No => 5,
        Answer::Value { .. } => 6,
        Answer::Refused { why } => refusal_number(why),
    }
}
