// The place of a task: what it names exists.
ghost use Rattle.std.specs.Prelude.{◌≡◌, ℕ, ◌<◌, get_or};
ghost use Rattle.table.specs.Table.{link_at};
ghost use Rattle.rules.specs.Claim.{all_below, test};
ghost use Rattle.rules.specs.Shape as spec;

use crate::numbers_known;
use table::{After, List, Machine, Place};

// No change number stands in an After, so any count of used ones will do. A match, as at `Place`.
fn after_fine(m: &Machine, after: After) -> bool
    ensures { (used : ℕ) → result ≡ test used (spec.after_fine m.now.n after) }
{
    match after {
        After::Own | After::AtL11 => true,
        After::AtL8 { r, .. } => r < m.n,
    }
}

fn helped(m: &Machine, u: u8, after: After) -> bool
    ensures { result ≡ test m.now.used (spec.helped m.now.n u after) }
{
    u > 0 && u <= m.used && after_fine(m, after)
}

// Task t has a link to record r.
fn linked(m: &Machine, t: u8, r: u8) -> bool
    ensures { result ≡ (link_at m.now t r).there }
{
    m.links
        .get(t as usize * Machine::RECORDS + r as usize)
        .is_some_and(|x| x.there)
}

// Task t has a link to each of the first k records of the list.
fn list_linked(m: &Machine, t: u8, k: u8, list: List) -> bool
    ensures { result ≡ all_below k (λ j. (link_at m.now t (get_or list j 0)).there) }
{
    (0..k).all(|j| linked(m, t, four::at(list, j, 0)))
}

// The place of task t; what it helps is in the change that the place names.
pub(crate) fn task_fine(m: &Machine, t: u8) -> bool
    requires { t < 8 }
    ensures { result ≡ test m.now.used (spec.task_fine m.now t) }
{
    let x = m.tasks[t as usize];
    let ch = m.changes[access::change_of(x.place) as usize];
    match x.place {
        Place::Idle => true,
        Place::L1 { r } | Place::L2 { r, .. } | Place::L9 { r } | Place::L11 { r } => r < m.n,
        Place::L3 { r, a, .. }
        | Place::L4 { r, a, .. }
        | Place::L7 { r, a, .. }
        | Place::L8 { r, a, .. }
        | Place::L10 { r, b: a } => r < m.n && a <= m.used,
        Place::L5 { r, a, f, .. } => {
            r < m.n
                && a <= m.used
                && f < Machine::FIELDS as u8
                && lists::stamps_known(m.used, f, x.cells)
        }
        Place::L6 { r, a, .. } => r < m.n && numbers_known(m.used, a, x.cells),
        Place::H1 { u, i, after } | Place::H2 { u, i, after } => i < ch.n && helped(m, u, after),
        Place::H3 { u, after }
        | Place::H4 { u, after }
        | Place::H5 { u, after }
        | Place::H7 { u, after }
        | Place::H8 { u, after } => helped(m, u, after),
        Place::H6 { u, i, after } => i < ch.n && four::at(ch.r, i, false) && helped(m, u, after),
        Place::Vlx { n, i } => {
            i < n && lists::list_fine(m.n, n, x.list) && list_linked(m, t, n, x.list)
        }
        Place::Read { r, f } => r < m.n && f < Machine::FIELDS as u8,
    }
}
