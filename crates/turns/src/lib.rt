// A turn of the table: a call on what it has in hand, and what it leaves put in place. Every index is clipped, so that a turn ends with
// nothing undefined on any state; in a state in shape no index is altered by that.
#![tactic(auto)]

ghost use Rattle.std.specs.Prelude.{◌≡◌, ◌%◌};
ghost use Rattle.rules.specs.Step.{drop_first};
ghost use Rattle.hand.specs.Hand.{clip, links_of, turn_in};

use begin::Links;
use hand::{Hand, Turned};
use table::{Answer, Call, Link, List, Machine, Out};

// The links of a task to the four records of a list.
fn links_of(links: &[Link; Machine::LINKS], t: u8, list: List) -> Links
    ensures { result ≡ links_of links.now (t % 8) list }
{
    let at = t as usize % Machine::TASKS * Machine::RECORDS;
    list.map(|r| links[at + r as usize % Machine::RECORDS])
}

// Drops the links of a task to the first n records of a list; past its end a record counts as 0, so this goes by number: n may be above 4.
#[tactic(auto, using(hand::proofs::Stored::drop_none, hand::proofs::Stored::drop_more))]
fn drop_links(links: &mut [Link; Machine::LINKS], t: u8, list: List, n: u8)
    ensures { links.new ≡ drop_first links.old (t % 8) (clip list) n }
{
    let at = t as usize % Machine::TASKS * Machine::RECORDS;
    for j in 0..n {
        let r = four::at(list, j, 0) as usize % Machine::RECORDS;
        links[at + r].there = false;
    }
}

// Any call, refusal 10 aside, in place: its refusals from 11 on, else the start or the step.
#[tactic(auto, using(hand::proofs::Stored::turned, hand::proofs::Stored::lost_is))]
pub fn turn_on(m: &mut Machine, e: Call) -> Answer
    ensures { turn_in m.old e ≡ record { m = m.new; answer = result } }
{
    let k = e.task as usize % Machine::TASKS;
    let task = m.tasks[k];
    let c = hand::number_of(e.ask, m.used, task.place) as usize;
    let change = m.changes[c];
    let access = access::access_of(task.place, change, task.list);
    let r = access::record_of(access) as usize % Machine::RECORDS;
    let at = k * Machine::RECORDS + r;
    let h = Hand {
        p: m.p,
        n: m.n,
        used: m.used,
        task,
        access,
        change,
        rec: m.records[r],
        link: m.links[at],
        near: links_of(&m.links, e.task, e.list),
    };
    let Turned {
        used,
        rec,
        change,
        task,
        link,
        drop,
        list,
        answer,
    } = hand::turn(h, e);
    m.used = used;
    m.records[r] = rec;
    m.changes[c] = change;
    m.tasks[k] = task;
    m.links[at] = link;
    drop_links(&mut m.links, e.task, list, drop);
    answer
}

// The same by value, as `machine::call` has it.
pub fn turn_in(mut m: Machine, e: Call) -> Out
    ensures { result ≡ turn_in m e }
{
    let answer = turn_on(&mut m, e);
    Out { m, answer }
}
