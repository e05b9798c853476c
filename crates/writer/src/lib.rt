// The writer of run sheets.
#![tactic(auto)]

ghost use Rattle.std.specs.Prelude.{◌≡◌, length};
ghost use Rattle.rules.specs.Claim.{test};
ghost use Rattle.writer.specs.Write.{trailer_bytes, given_fine, written_of, buffer_of};

use event::{EVENT, events_fine};
use sheet::{FIRST_TAG, SECOND_TAG, TRAILER, counts_fine, parts_size};
use table::{Machine, Refusal};

mod put;

// P, N and the count in range, 4N values and 12E event bytes. Why they are no struct: see `sheet::counts_fine`.
#[tactic(auto, unfolding(rules::specs::Claim::both))]
fn given_fine(p: u8, n: u8, count: u16, values: usize, events: usize) -> bool
    ensures { result ≡ test 0 (given_fine p n count values events) }
{
    counts_fine(p, n, count)
        && values == Machine::FIELDS * n as usize
        && events == EVENT * count as usize
}

// The trailer to be written.
fn trailer_bytes(p: u8, n: u8, count: u16) -> [u8; TRAILER]
    ensures { result ≡ trailer_bytes p n count }
{
    let [low, high] = count.to_le_bytes();
    let [near, far, ..] = parts_size(n, count).to_le_bytes();
    [FIRST_TAG, SECOND_TAG, p, n, low, high, near, far]
}

// Writes a sheet to the front of the buffer: its length. Or the lowest of 22, 24 and 25 that applies, and the buffer stays as it was.
#[tactic(auto, using(crate::proofs::Writing::written), unfolding(crate::specs::Write::written_of, crate::specs::Write::buffer_of))]
pub fn write(
    p: u8,
    n: u8,
    count: u16,
    values: &[u16],
    events: &[u8],
    out: &mut [u8],
) -> Result<usize, Refusal>
    ensures { (result ≡ written_of p n count values.now events.now (length out.old)) × (out.new ≡ buffer_of p n count values.now events.now out.old) }
{
    Refusal::Counts.unless(given_fine(p, n, count, values.len(), events.len()))?;
    Refusal::EventKind.unless(events_fine(events, count))?;
    let length = parts_size(n, count) + TRAILER;
    Refusal::BufferShort.unless(length <= out.len())?;
    let last = trailer_bytes(p, n, count);
    put::put_sheet(out, values, events, &last);
    Ok(length)
}
