// What a start leaves, on small values.
#![tactic(auto, unfolding(crate::specs::Begun::filled_by))]

ghost use Rattle.std.specs.Prelude.{◌≡◌};
ghost use Rattle.begin.specs.Begun.{next_number, old_in, infos_in, filled_by, begun_by};

use std::array;
use table::{After, Ask, Call, Cell, Change, Link, List, Machine, Place, State, Task};

// The links of a task to the four records of a list.
pub type Links = [Link; Machine::LIST];

// What a start leaves: the used count, the change of the next number, the task, and the records whose links are dropped: the first
// `drop` of the list, which is an SCX's as it came, or begins with an LLX's record.
#[derive(Clone, Copy)]
pub struct Begun {
    pub used: u8,
    pub change: Change,
    pub task: Task,
    pub drop: u8,
    pub list: List,
}

// The number that an SCX takes, 0 where all are used: by the machine's limit, and not by the byte's own. No Option: each caller would only
// unwrap it to 0, the entry that is not looked at.
pub fn next_number(used: u8) -> u8
    ensures { result ≡ next_number used }
{
    if usize::from(used) < Machine::CHANGES {
        used + 1
    } else {
        0
    }
}

fn old_in(links: Links, written: u8, field: u8) -> Cell
    ensures { result ≡ old_in links written field }
{
    let none = Cell::default();
    links
        .get(written as usize)
        .map_or(none, |link| four::at(link.cells, field, none))
}

fn infos_in(n: u8, links: Links) -> List
    ensures { result ≡ infos_in n links }
{
    array::from_fn(|i| if i < n as usize { links[i].info } else { 0 })
}

// The change that an SCX starts with, filled from its links.
fn filled(n: u8, list: List, r: u8, written: u8, field: u8, new: u16, links: Links) -> Change
    ensures { result ≡ filled_by n list r written field new links }
{
    Change {
        n,
        v: list,
        r: lists::places(r),
        written,
        field,
        new,
        old: old_in(links, written, field),
        state: State::InProgress,
        frozen: false,
        infos: infos_in(n, links),
    }
}

// What a call that passed its refusals starts with, of its task, the change of the next number and the links of its list.
pub fn start(e: Call, used: u8, x: Task, ch: Change, links: Links) -> Begun
    ensures { result ≡ begun_by e.ask e.list used x ch links }
{
    let Call { ask, list, .. } = e;
    let as_it_was = Begun {
        used,
        change: ch,
        task: x,
        drop: 0,
        list: [0; Machine::LIST],
    };
    match ask {
        Ask::Llx { r } => Begun {
            task: Task {
                place: Place::L1 { r },
                ..x
            },
            drop: 1,
            list: [r, 0, 0, 0],
            ..as_it_was
        },
        Ask::Scx {
            n,
            r,
            written,
            field,
            new,
        } => {
            let u = next_number(used);
            let place = Place::H1 {
                u,
                i: 0,
                after: After::Own,
            };
            Begun {
                used: u,
                change: filled(n, list, r, written, field, new, links),
                task: Task { place, ..x },
                drop: n,
                list,
            }
        }
        Ask::Vlx { n } => Begun {
            task: Task {
                place: Place::Vlx { n, i: 0 },
                list,
                ..x
            },
            ..as_it_was
        },
        Ask::Read { r, f } => Begun {
            task: Task {
                place: Place::Read { r, f },
                ..x
            },
            ..as_it_was
        },
        Ask::Step => as_it_was,
    }
}
