// The tests of a list, of the set R and of an array of cells. Each is total: past an array's end stands the
// logic's own default. They go by number, and not over the array's entries, since n may be above 4 and the claim then
// asks of the default too.
#![tactic(auto, using(crate::proofs::Laws::chain))]

ghost use Rattle.std.specs.Prelude.{◌≡◌, false, not, get_or, eqb, leb};
ghost use Rattle.rules.specs.Claim.{test, all_below};
ghost use Rattle.rules.specs.Shape as spec;
ghost use Rattle.rules.specs.Start.{places};

use std::array;
use table::{Cell, Cells, List, Machine};

// From 1 to most.
pub fn within(most: usize, k: u8) -> bool
    ensures { result ≡ test 0 (spec.within most k) }
{
    (1..=most).contains(&(k as usize))
}

// A list has 1 to 4 records.
pub fn length_fine(n: u8) -> bool
    ensures { result ≡ test 0 (spec.within 4 n) }
{
    within(Machine::LIST, n)
}

// The first n are records.
pub fn exist(records: u8, n: u8, list: List) -> bool
    ensures { result ≡ test 0 (spec.exist records n list) }
{
    (0..n).all(|i| four::at(list, i, 0) < records)
}

// Entry j is none of those before it.
fn is_new(j: u8, list: List) -> bool
    ensures { result ≡ all_below j (λ i. not (eqb (get_or list i 0) (get_or list j 0))) }
{
    (0..j).all(|i| four::at(list, i, 0) != four::at(list, j, 0))
}

// No two of the first n are the same.
pub fn apart(n: u8, list: List) -> bool
    ensures { result ≡ test 0 (spec.apart n list) }
{
    (0..n).all(|j| is_new(j, list))
}

// A list of 1 to 4 records, no two of them the same.
pub fn list_fine(records: u8, n: u8, list: List) -> bool
    ensures { result ≡ test 0 (spec.list_fine records n list) }
{
    length_fine(n) && exist(records, n, list) && apart(n, list)
}

// R names only places below n.
pub fn in_list(n: u8, r: [bool; Machine::LIST]) -> bool
    ensures { result ≡ test 0 (spec.in_list n r) }
{
    (0..Machine::LIST as u8).all(|i| !four::at(r, i, false) || i < n)
}

// Each of the first n has a link.
pub fn all_linked(n: u8, there: [bool; Machine::LIST]) -> bool
    ensures { result ≡ all_below n (λ i. get_or there i false) }
{
    (0..n).all(|i| four::at(there, i, false))
}

// Each of the first n infos is a used number.
pub fn infos_known(used: u8, n: u8, infos: List) -> bool
    ensures { result ≡ all_below n (λ i. leb (get_or infos i 0) used) }
{
    (0..n).all(|i| four::at(infos, i, 0) <= used)
}

// Each of the first k stamps is a used number.
pub fn stamps_known(used: u8, k: u8, cells: Cells) -> bool
    ensures { result ≡ test used (spec.stamps_known k cells) }
{
    (0..k).all(|i| four::at(cells, i, Cell::default()).stamp <= used)
}

// The set R of an SCX as a bool for each place.
pub fn places(r: u8) -> [bool; Machine::LIST]
    ensures { result ≡ places r }
{
    array::from_fn(|i| (r >> i) & 1 == 1)
}
