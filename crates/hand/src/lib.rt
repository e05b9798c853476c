// A call on what it has in hand: the refusals from 11 on, else the start or the step. What a refused call has in hand it gives back.
#![tactic(auto)]

ghost use Rattle.std.specs.Prelude.{◌≡◌};
ghost use Rattle.begin.specs.Begun.{begun_by};
ghost use Rattle.act.specs.Act.{act_of};
ghost use Rattle.hand.specs.Hand.{number_of, kept_by, begun_of, stepped_of, passed_of, turn_of};

use begin::Links;
use refuse::Known;
use table::{Access, Answer, Ask, Call, Change, Link, List, Place, Record, Refusal, Task};

// What a call has in hand: the table's three numbers, its task, the access that the task would make, and what these name: the
// change, the record, the task's link to it, and its links to the records of the call's list.
#[derive(Clone, Copy)]
pub struct Hand {
    pub p: u8,
    pub n: u8,
    pub used: u8,
    pub task: Task,
    pub access: Access,
    pub change: Change,
    pub rec: Record,
    pub link: Link,
    pub near: Links,
}

// What a call leaves of it, how many records of which list lose their links (the start's or the task's own), and the answer.
#[derive(Clone, Copy)]
pub struct Turned {
    pub used: u8,
    pub rec: Record,
    pub change: Change,
    pub task: Task,
    pub link: Link,
    pub drop: u8,
    pub list: List,
    pub answer: Answer,
}

// The number of the change that a call has in hand: the one that its task's place names, or the next for a start.
pub fn number_of(ask: Ask, used: u8, place: Place) -> u8
    ensures { result ≡ number_of ask used place }
{
    match ask {
        Ask::Step => access::change_of(place),
        _ => begin::next_number(used),
    }
}

// The list is taken out first here and below: an array field is not stored straight into a literal.
fn kept_by(h: Hand, why: Refusal) -> Turned
    ensures { result ≡ kept_by h why }
{
    let list = h.task.list;
    Turned {
        used: h.used,
        rec: h.rec,
        change: h.change,
        task: h.task,
        link: h.link,
        drop: 0,
        list,
        answer: Answer::Refused { why },
    }
}

fn started(h: Hand, e: Call) -> Turned
    ensures { result ≡ begun_of h (begun_by e.ask e.list h.used h.task h.change h.near) }
{
    let b = begin::start(e, h.used, h.task, h.change, h.near);
    let list = b.list;
    Turned {
        used: b.used,
        rec: h.rec,
        change: b.change,
        task: b.task,
        link: h.link,
        drop: b.drop,
        list,
        answer: Answer::Accepted,
    }
}

fn stepped(h: Hand) -> Turned
    ensures { result ≡ stepped_of h (act_of h.task h.access h.change h.rec h.link) }
{
    let d = act::act(h.task, h.access, h.change, h.rec, h.link);
    let list = h.task.list;
    Turned {
        used: h.used,
        rec: d.rec,
        change: d.change,
        task: d.task,
        link: d.link,
        drop: d.drop,
        list,
        answer: d.answer,
    }
}

// What a call that passed its refusals leaves.
fn passed_of(h: Hand, e: Call) -> Turned
    ensures { result ≡ passed_of h e.ask e.list }
{
    match e.ask {
        Ask::Step => stepped(h),
        _ => started(h, e),
    }
}

// Any call: its refusals in the order of their numbers, then the start or the step.
#[tactic(auto, unfolding(crate::specs::Hand::turn_of))]
pub fn turn(h: Hand, e: Call) -> Turned
    ensures { result ≡ turn_of h e }
{
    let known = Known {
        p: h.p,
        n: h.n,
        used: h.used,
        idle: access::is_idle(h.task.place),
        linked: refuse::linked(e.ask, h.near),
    };
    match refuse::refusal(e, known) {
        Ok(()) => passed_of(h, e),
        Err(why) => kept_by(h, why),
    }
}
