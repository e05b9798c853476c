// The events of a run, one call after another, on one machine that is changed in place: a machine passed by value is copied, at every event.
#![tactic(auto)]

ghost use Rattle.play.specs.Play.{Plays};

use table::Machine;
use tally::{Tally, Told};
use text::Page;

// What the events leave: the machine, the tally of their answers, and the position after their lines.
#[derive(Clone, Copy)]
pub struct Played {
    pub m: Machine,
    pub tally: Tally,
    pub next: usize,
}

// The first count events, of the bytes lent, from the machine given.
#[tactic(auto, using(crate::proofs::Glue::ends))]
pub fn play(events: &[u8], count: u16, first: Machine, out: &mut [u8]) -> Played
    ensures { Plays first events.now count out.old out.new result }
{
    let mut m = first;
    let mut tally = tally::none();
    let mut page = Page { out, at: 0 };
    // By number, and not by a Reader: the line needs the number too, and a reader would count it a second time.
    for i in 0..count {
        let e = reader::event(events, i);
        let operation = tally::operation_of(m.tasks[e.task as usize % Machine::TASKS].place);
        let answer = turns::turn_on(&mut m, e);
        tally::count(&mut tally, Told { operation, answer });
        lines::put_answer(&mut page, i + 1, e.task, answer);
    }
    Played {
        m,
        tally,
        next: page.at,
    }
}
