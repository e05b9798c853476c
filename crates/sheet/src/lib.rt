// Run sheets, the whole: a sheet is lent as bytes, and its parts are found by numbers.
#![tactic(auto)]

ghost use Rattle.std.specs.Prelude.{◌≡◌, ◌≤◌};
ghost use Rattle.rules.specs.Claim.{test};
ghost use Rattle.sheet.specs.Layout.{counts_fine, parts_size, sheet_of, values_in};

use event::{EVENT, byte_at, events_fine, pair};
use std::array;
use table::{Machine, Refusal};

mod trailer;

// The bytes of a record's initial values, and of the trailer.
pub const RECORD: usize = 2 * Machine::FIELDS;

pub const TRAILER: usize = 8;

// What a trailer begins with.
pub const FIRST_TAG: u8 = 0x52;

pub const SECOND_TAG: u8 = 0x53;

// As many values as the largest table has: an array, since there is no heap, of which the caller takes the first 4N.
const VALUES: usize = Machine::RECORDS * Machine::FIELDS;

// The numbers of the trailer, and where the initial values stand.
#[derive(Clone, Copy)]
pub struct Layout {
    pub p: u8,
    pub n: u8,
    pub count: u16,
    pub from: usize,
}

// Where this fails, refusal 22 is given. P, N and the count stay three numbers here: `write` takes them so and `Layout` has them so, and a
// struct of them would be made for these calls alone.
#[tactic(auto, unfolding(rules::specs::Claim::both))]
pub fn counts_fine(p: u8, n: u8, count: u16) -> bool
    ensures { result ≡ test 0 (counts_fine p n count) }
{
    lists::within(Machine::TASKS, p)
        && lists::within(Machine::RECORDS, n)
        && count as usize <= Machine::EVENTS
}

// The bytes between the heading and the trailer.
pub fn parts_size(n: u8, count: u16) -> usize
    ensures { (result ≡ parts_size n count) × (result ≤ 788460) }
{
    RECORD * (n as usize) + EVENT * (count as usize)
}

// Reads any bytes as a sheet: its layout, or the lowest of 20 to 24 that applies.
#[tactic(auto, using(crate::proofs::Refusals::tested), unfolding(crate::specs::Layout::sheet_of))]
pub fn layout_of(s: &[u8]) -> Result<Layout, Refusal>
    ensures { result ≡ sheet_of s.now }
{
    let size = s.len();
    Refusal::SheetSize.unless(trailer::size_fine(size))?;
    let t = trailer::trailer(s);
    Refusal::SheetTag.unless(trailer::tag_fine(t))?;
    let at = trailer::layout_by(t, size);
    Refusal::Counts.unless(counts_fine(at.p, at.n, at.count))?;
    let end = size - TRAILER;
    Refusal::Distance.unless(trailer::distance_fine(trailer::distance(t), at.n, at.count, end))?;
    let first = at.from + RECORD * at.n as usize;
    Refusal::EventKind.unless(events_fine(&s[first..end], at.count))?;
    Ok(at)
}

// The numbers of a part, low byte first; past its end the bytes count as 0.
pub fn values(part: &[u8]) -> [u16; VALUES]
    ensures { result ≡ values_in part.now }
{
    array::from_fn(|i| pair(byte_at(part, 2 * i), byte_at(part, 2 * i + 1)))
}
