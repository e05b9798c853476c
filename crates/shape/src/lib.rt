// The test of the shape: refusal 10 where it fails. Each function has the claim of a line of the rules' Shape, and goes by number as that
// does. No methods: the type Machine is another crate's.
#![tactic(auto, using(lists::proofs::Laws::chain))]

mod place;

ghost use Rattle.std.specs.Prelude.{◌≡◌, suc, ◌≤◌, ◌<◌};
ghost use Rattle.table.specs.Table.{record_at, change_at, link_at};
ghost use Rattle.rules.specs.Claim.{test, each, known, ◌&◌};
ghost use Rattle.rules.specs.Shape as spec;

use table::{Cells, Change, Link, Machine, Record};

// An info and the stamps of four cells are used numbers.
fn numbers_known(used: u8, info: u8, cells: Cells) -> bool
    ensures { result ≡ test used (known info & spec.stamps_known 4 cells) }
{
    info <= used && lists::stamps_known(used, Machine::FIELDS as u8, cells)
}

fn record_fine(used: u8, x: Record) -> bool
    ensures { result ≡ test used (spec.record_fine x) }
{
    numbers_known(used, x.info, x.cells)
}

fn link_fine(used: u8, x: Link) -> bool
    ensures { result ≡ test used (spec.link_fine x) }
{
    !x.there || numbers_known(used, x.info, x.cells)
}

fn change_fine(m: &Machine, x: Change) -> bool
    ensures { result ≡ test m.now.used (spec.change_fine m.now.n x) }
{
    lists::list_fine(m.n, x.n, x.v)
        && lists::in_list(x.n, x.r)
        && x.written < x.n
        && x.field < Machine::FIELDS as u8
        && x.old.stamp <= m.used
        && lists::infos_known(m.used, x.n, x.infos)
}

// That n is at most 32 is asked of the caller: `in_shape` tests it first. A type for it would be made for these three calls, since a machine
// may have any n (`machine::call` takes every state).
fn records_fine(m: &Machine) -> bool
    requires { m.now.n ≤ 32 }
    ensures { result ≡ test m.now.used (each m.now.n (λ r. spec.record_fine (record_at m.now r))) }
{
    (0..m.n).all(|r| record_fine(m.used, m.records[r as usize]))
}

fn changes_fine(m: &Machine) -> bool
    ensures { result ≡ test m.now.used (each m.now.used (λ i. spec.change_fine m.now.n (change_at m.now (suc i)))) }
{
    (0..m.used).all(|i| change_fine(m, m.changes[i as usize + 1]))
}

fn tasks_fine(m: &Machine) -> bool
    requires { m.now.p ≤ 8 }
    ensures { result ≡ test m.now.used (each m.now.p (λ t. spec.task_fine m.now t)) }
{
    (0..m.p).all(|t| place::task_fine(m, t))
}

// The links of task t.
fn links_of_fine(m: &Machine, t: u8) -> bool
    requires tasks { t < 8 }
    requires records { m.now.n ≤ 32 }
    ensures { result ≡ test m.now.used (each m.now.n (λ r. spec.link_fine (link_at m.now t r))) }
{
    (0..m.n).all(|r| link_fine(m.used, m.links[t as usize * Machine::RECORDS + r as usize]))
}

fn links_fine(m: &Machine) -> bool
    requires tasks { m.now.p ≤ 8 }
    requires records { m.now.n ≤ 32 }
    ensures { result ≡ test m.now.used (each m.now.p (λ t. each m.now.n (λ r. spec.link_fine (link_at m.now t r)))) }
{
    (0..m.p).all(|t| links_of_fine(m, t))
}

// In the order of the claim. That the used count is at most 255 needs no test: it is a byte.
#[tactic(auto, using(lists::proofs::Laws::chain), unfolding(rules::specs::Shape::in_shape, rules::specs::Shape::shape))]
pub fn in_shape(m: Machine) -> bool
    ensures { result ≡ spec.in_shape m }
{
    lists::within(Machine::TASKS, m.p)
        && lists::within(Machine::RECORDS, m.n)
        && records_fine(&m)
        && changes_fine(&m)
        && tasks_fine(&m)
        && links_fine(&m)
}
