// The trailer: its eight bytes, the numbers that they say, and the tests of these.
ghost use Rattle.std.specs.Prelude.{◌≡◌, ◌+◌, ◌*◌, ◌≤◌, length};
ghost use Rattle.table.specs.Table.{tabulate};
ghost use Rattle.rules.specs.Claim.{test};
ghost use Rattle.event.specs.Event.{byte};
ghost use Rattle.sheet.specs.Layout.{trailer, layout_by};
ghost use Rattle.sheet.specs.Layout as spec;

use crate::{FIRST_TAG, Layout, SECOND_TAG, TRAILER, parts_size};
use event::pair;

// The most bytes that a sheet has.
const MOST_BYTES: usize = 65_000;

pub(crate) type Trailer = [u8; TRAILER];

// Where this fails, refusal 20 is given.
#[tactic(auto, unfolding(rules::specs::Claim::both))]
pub(crate) fn size_fine(size: usize) -> bool
    ensures { result ≡ test 0 (spec.size_fine size) }
{
    (TRAILER..=MOST_BYTES).contains(&size)
}

// The last eight bytes.
pub(crate) fn trailer(s: &[u8]) -> Trailer
    requires { 8 ≤ length s.now }
    ensures { result ≡ tabulate 8 (byte (trailer s.now)) }
{
    *s.last_chunk().unwrap()
}

// Where this fails, refusal 21 is given.
#[tactic(auto, unfolding(rules::specs::Claim::both))]
pub(crate) fn tag_fine(t: Trailer) -> bool
    ensures { result ≡ test 0 (spec.tag_fine t) }
{
    matches!(t, [FIRST_TAG, SECOND_TAG, ..])
}

// The distance back from the trailer, which starts at `end`. Where this fails, refusal 23 is given.
#[tactic(auto, unfolding(rules::specs::Claim::both))]
pub(crate) fn distance_fine(distance: u16, n: u8, count: u16, end: usize) -> bool
    ensures { result ≡ test 0 (spec.distance_fine distance n count end) }
{
    let d = distance as usize;
    d == parts_size(n, count) && d <= end
}

// The distance that a trailer says.
pub(crate) fn distance(t: Trailer) -> u16
    ensures { result ≡ byte t 6 + 256 * byte t 7 }
{
    let [.., near, far] = t;
    pair(near, far)
}

// What a trailer at the end of `size` bytes says.
pub(crate) fn layout_by(t: Trailer, size: usize) -> Layout
    ensures { result ≡ layout_by t size }
{
    let [_, _, p, n, low, high, ..] = t;
    Layout {
        p,
        n,
        count: pair(low, high),
        from: size
            .saturating_sub(TRAILER)
            .saturating_sub(distance(t) as usize),
    }
}
