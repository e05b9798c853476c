// A step on what it has in hand: its task, its access, and the change, the record and the link that these name.
#![tactic(auto)]

ghost use Rattle.std.specs.Prelude.{◌≡◌};
ghost use Rattle.act.specs.Act.{act_of};

use table::{Access, Answer, Change, Link, Move, Place, Record, Task};

// What a step leaves: the record, the change, the task, the link, how many links of the task's list are dropped, and the answer.
#[derive(Clone, Copy)]
pub struct Stored {
    pub rec: Record,
    pub change: Change,
    pub task: Task,
    pub link: Link,
    pub drop: u8,
    pub answer: Answer,
}

// The access performed, and the local work that rides on it.
#[tactic(auto, unfolding(crate::specs::Act::act_of))]
pub fn act(x: Task, a: Access, ch: Change, rec: Record, link: Link) -> Stored
    ensures { result ≡ act_of x a ch rec link }
{
    let s = perform::seen_by(a, rec, ch);
    let mut left = Stored {
        rec: perform::record_by(a, rec),
        change: perform::change_by(a, ch),
        task: x,
        link,
        drop: 0,
        answer: Answer::Accepted,
    };
    left.task.place = Place::Idle;
    match resume::resume(x.place, s, ch, link.info) {
        Move::On(place) => {
            left.task.place = place;
        }
        Move::Keep(place, f) => {
            left.task.place = place;
            left.task.cells = four::with(x.cells, f, s.cell);
        }
        Move::Done(answer) => {
            left.answer = answer;
        }
        Move::Store => {
            let cells = x.cells;
            left.link = Link {
                there: true,
                info: s.number,
                cells,
            };
            left.answer = Answer::Snapshot { cells };
        }
        Move::Unlink(n) => {
            left.drop = n;
            left.answer = Answer::No;
        }
    }
    left
}
