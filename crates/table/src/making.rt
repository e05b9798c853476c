// The fresh table.
ghost use Rattle.std.specs.Prelude.{◌≡◌, ltb};
ghost use Rattle.table.specs.Table.{pick};
ghost use Rattle.table.specs.Fresh.{initial, empty_record, fresh_record, fresh_records, empty_change, in_range, fresh_machine, fresh};

use crate::{Answer, Cell, Change, Link, Machine, Out, Record, Refusal, State, Task};
use std::array;

// Whether p, n and the number of values given are those of a table.
fn in_range(p: u8, n: u8, given: usize) -> bool
    ensures { result ≡ in_range p n given }
{
    (1..=Machine::TASKS).contains(&usize::from(p))
        && (1..=Machine::RECORDS).contains(&usize::from(n))
        && given == Machine::FIELDS * usize::from(n)
}

// The cell that value k makes, 0 past the last.
fn initial(values: &[u16], k: usize) -> Cell
    ensures { result ≡ initial values.now k }
{
    Cell {
        value: values.get(k).copied().unwrap_or(0),
        stamp: 0,
    }
}

// Record r with its values, if it is one of the n; else an empty one.
fn fresh_record(n: u8, values: &[u16], r: usize) -> Record
    ensures { result ≡ pick (ltb r n) (fresh_record values.now r) empty_record }
{
    if r < usize::from(n) {
        let k = Machine::FIELDS * r;
        Record {
            cells: array::from_fn(|f| initial(values, k + f)),
            ..Record::default()
        }
    } else {
        Record::default()
    }
}

fn fresh_records(n: u8, values: &[u16]) -> [Record; Machine::RECORDS]
    ensures { result ≡ fresh_records n values.now }
{
    array::from_fn(|r| fresh_record(n, values, r))
}

// An entry that no SCX has filled.
fn empty_change() -> Change
    ensures { result ≡ empty_change }
{
    Change {
        state: State::Aborted,
        ..Change::default()
    }
}

#[tactic(auto, unfolding(crate::specs::Fresh::fresh_machine))]
fn fresh_machine(p: u8, n: u8, records: [Record; Machine::RECORDS]) -> Machine
    ensures { result ≡ fresh_machine p n records }
{
    Machine {
        p,
        n,
        used: 0,
        records,
        changes: [empty_change(); Machine::CHANGES + 1],
        tasks: [Task::default(); Machine::TASKS],
        links: [Link::default(); Machine::LINKS],
    }
}

impl Machine {
    // A fresh table: all idle, no links, no change used. Refused, it is the table of no task and no record.
    // It is made in one place: each more would take room for a table of its own on the stack.
    #[tactic(auto, using(crate::proofs::Fresh::fresh_none), unfolding(crate::specs::Fresh::fresh))]
    pub fn fresh(p: u8, n: u8, values: &[u16]) -> Out
        ensures { result ≡ fresh p n values.now }
    {
        let (p, n, answer) = if in_range(p, n, values.len()) {
            (p, n, Answer::Accepted)
        } else {
            let why = Refusal::Counts;
            (0, 0, Answer::Refused { why })
        };
        Out {
            m: fresh_machine(p, n, fresh_records(n, values)),
            answer,
        }
    }
}
