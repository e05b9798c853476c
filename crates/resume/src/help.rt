// Where the steps H1 to H8 of a help lead, by what they saw. u, i and after are taken one by one, as the numbers are in llx.rt.
ghost use Rattle.std.specs.Prelude.{◌≡◌};
ghost use Rattle.rules.specs.Resume.{verdict, after_held, after_h1, after_h2, after_h3, first_from, at_mark};

use table::{After, Answer, Change, Machine, Move, Place};

// What a verdict means to who helped.
pub fn verdict(ok: bool, after: After) -> Move
    ensures { result ≡ verdict ok after }
{
    match (after, ok) {
        (After::Own, true) => Move::Done(Answer::Yes),
        (After::Own, false) => Move::Done(Answer::No),
        (After::AtL8 { m1: true, .. }, true) => Move::Done(Answer::Finalized),
        (After::AtL8 { r, .. }, _) => Move::On(Place::L9 { r }),
        (After::AtL11, _) => Move::Done(Answer::Fail),
    }
}

// After place i of n is held: the next one, or H5.
fn after_held(u: u8, i: u8, n: u8, after: After) -> Place
    ensures { result ≡ after_held u i n after }
{
    let next = i.saturating_add(1);
    if next < n {
        Place::H1 { u, i: next, after }
    } else {
        Place::H5 { u, after }
    }
}

pub fn after_h1(u: u8, i: u8, n: u8, after: After, held: bool) -> Place
    ensures { result ≡ after_h1 u i n after held }
{
    if held {
        after_held(u, i, n, after)
    } else {
        Place::H2 { u, i, after }
    }
}

pub fn after_h2(u: u8, i: u8, n: u8, after: After, now: u8) -> Place
    ensures { result ≡ after_h2 u i n after now }
{
    if now == u {
        after_held(u, i, n, after)
    } else {
        Place::H3 { u, after }
    }
}

pub fn after_h3(u: u8, after: After, frozen: bool) -> Move
    ensures { result ≡ after_h3 u after frozen }
{
    if frozen {
        verdict(true, after)
    } else {
        Move::On(Place::H4 { u, after })
    }
}

// On to the mark of the first record of R from place i on, or to H7 if there is none.
pub fn next_mark(u: u8, ch: Change, i: usize, after: After) -> Place
    ensures { result ≡ at_mark u (first_from ch.r i) after }
{
    match (i..Machine::LIST).find(|&k| ch.r[k]) {
        Some(k) => Place::H6 {
            u,
            i: k as u8,
            after,
        },
        None => Place::H7 { u, after },
    }
}
