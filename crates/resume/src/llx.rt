// Where the steps L4 to L11 of an LLX lead, by what they saw. r, m1 and a are taken one by one: each is a field of its own in the cases of
// Place, which carry only the numbers that they need, so a struct of them would be taken apart at once.
ghost use Rattle.std.specs.Prelude.{◌≡◌};
ghost use Rattle.rules.specs.Resume.{after_l4, after_l5, after_l6, after_l7, after_l8, after_l10, after_l11};

use table::{After, Answer, Move, Place, State};

pub fn after_l4(r: u8, m1: bool, a: u8, state: State, m2: bool) -> Place
    ensures { result ≡ after_l4 r m1 a state m2 }
{
    match (state, m2) {
        (State::Aborted, _) | (State::Committed, false) => Place::L5 { r, m1, a, f: 0 },
        _ => Place::L7 { r, m1, a },
    }
}

pub fn after_l5(r: u8, m1: bool, a: u8, f: u8) -> Place
    ensures { result ≡ after_l5 r m1 a f }
{
    if f < 3 {
        Place::L5 { r, m1, a, f: f + 1 }
    } else {
        Place::L6 { r, m1, a }
    }
}

pub fn after_l6(r: u8, m1: bool, a: u8, now: u8) -> Move
    ensures { result ≡ after_l6 r m1 a now }
{
    if now == a {
        Move::Store
    } else {
        Move::On(Place::L7 { r, m1, a })
    }
}

pub fn after_l7(r: u8, m1: bool, a: u8, state: State) -> Move
    ensures { result ≡ after_l7 r m1 a state }
{
    match (state, m1) {
        (State::Committed, true) => Move::Done(Answer::Finalized),
        (State::Committed, false) => Move::On(Place::L9 { r }),
        _ => Move::On(Place::L8 { r, m1, a }),
    }
}

pub fn after_l8(r: u8, m1: bool, a: u8, state: State) -> Place
    ensures { result ≡ after_l8 r m1 a state }
{
    match state {
        State::InProgress => Place::H1 {
            u: a,
            i: 0,
            after: After::AtL8 { r, m1 },
        },
        _ => Place::L9 { r },
    }
}

pub fn after_l10(r: u8, state: State) -> Move
    ensures { result ≡ after_l10 r state }
{
    match state {
        State::InProgress => Move::On(Place::L11 { r }),
        _ => Move::Done(Answer::Fail),
    }
}

pub fn after_l11(c: u8) -> Move
    ensures { result ≡ after_l11 c }
{
    if c == 0 {
        Move::Done(Answer::Fail)
    } else {
        Move::On(Place::H1 {
            u: c,
            i: 0,
            after: After::AtL11,
        })
    }
}
