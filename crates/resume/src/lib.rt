// The local work that rides on a step's access: where the step leads, by its place and what the access saw.
#![tactic(auto)]

ghost use Rattle.std.specs.Prelude.{◌≡◌};
ghost use Rattle.rules.specs.Places.{resume};
ghost use Rattle.rules.specs.Resume.{after_vlx};

use help::{after_h1, after_h2, after_h3, next_mark, verdict};
use llx::{after_l4, after_l5, after_l6, after_l7, after_l8, after_l10, after_l11};
use table::{Answer, Change, Move, Place, Refusal, Seen};

mod help;
mod llx;

fn after_vlx(n: u8, i: u8, now: u8, linked: u8) -> Move
    ensures { result ≡ after_vlx n i now linked }
{
    let next = i.saturating_add(1);
    if now != linked {
        Move::Unlink(n)
    } else if next < n {
        Move::On(Place::Vlx { n, i: next })
    } else {
        Move::Done(Answer::Yes)
    }
}

// The local work of a step at a place that saw s, names the change ch, and whose link to the record read has the info linked.
// One match on the place, no closures: see the type Place.
pub fn resume(place: Place, s: Seen, ch: Change, linked: u8) -> Move
    ensures { result ≡ resume place s ch linked }
{
    match place {
        Place::Idle => Move::Done(Answer::Refused {
            why: Refusal::TaskIdle,
        }),
        Place::L1 { r } => Move::On(Place::L2 { r, m1: s.bit }),
        Place::L2 { r, m1 } => Move::On(Place::L3 { r, m1, a: s.number }),
        Place::L3 { r, m1, a } => Move::On(Place::L4 {
            r,
            m1,
            a,
            s: s.state,
        }),
        Place::L4 { r, m1, a, s: read } => Move::On(after_l4(r, m1, a, read, s.bit)),
        Place::L5 { r, m1, a, f } => Move::Keep(after_l5(r, m1, a, f), f),
        Place::L6 { r, m1, a } => after_l6(r, m1, a, s.number),
        Place::L7 { r, m1, a } => after_l7(r, m1, a, s.state),
        Place::L8 { r, m1, a } => Move::On(after_l8(r, m1, a, s.state)),
        Place::L9 { r } => Move::On(Place::L10 { r, b: s.number }),
        Place::L10 { r, .. } => after_l10(r, s.state),
        Place::L11 { .. } => after_l11(s.number),
        Place::H1 { u, i, after } => Move::On(after_h1(u, i, ch.n, after, s.bit)),
        Place::H2 { u, i, after } => Move::On(after_h2(u, i, ch.n, after, s.number)),
        Place::H3 { u, after } => after_h3(u, after, s.bit),
        Place::H4 { after, .. } => verdict(false, after),
        Place::H5 { u, after } => Move::On(next_mark(u, ch, 0, after)),
        Place::H6 { u, i, after } => Move::On(next_mark(u, ch, usize::from(i) + 1, after)),
        Place::H7 { u, after } => Move::On(Place::H8 { u, after }),
        Place::H8 { after, .. } => verdict(true, after),
        Place::Vlx { n, i } => after_vlx(n, i, s.number, linked),
        Place::Read { .. } => Move::Done(Answer::Value { cell: s.cell }),
    }
}
