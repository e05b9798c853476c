// An event of a run sheet: what its twelve bytes say, and whether they are fine. Past the end of what is lent a byte counts as 0.
#![tactic(auto)]

ghost use Rattle.std.specs.Prelude.{◌≡◌, ◌+◌, ◌*◌, get_or};
ghost use Rattle.event.specs.Event.{event_fine, events_fine, event_bytes, event_at};

use table::Call;
use twelve::{bytes_at, call_of, copied, is_fine};

mod twelve;

// The bytes of an event.
pub const EVENT: usize = 12;

// The byte at j, 0 past the end. As a function: its contract has the rules' words for it; so has that of `pair`.
pub fn byte_at(s: &[u8], j: usize) -> u8
    ensures { result ≡ get_or s.now j 0 }
{
    s.get(j).copied().unwrap_or(0)
}

// Two bytes, low byte first.
pub fn pair(low: u8, high: u8) -> u16
    ensures { result ≡ low + 256 * high }
{
    u16::from_le_bytes([low, high])
}

// Event i, by slice and number. The two ways to its bytes stand both here and below: tried as one function that gives them by value, a run took
// 5 instructions in a hundred more; one that lends them to a closure would have to tell in its contract what the closure computes.
#[tactic(auto, using(crate::proofs::Bytes::same_call), unfolding(crate::specs::Event::event_at))]
pub fn event_at(events: &[u8], i: u16) -> Call
    ensures { result ≡ event_at events.now i }
{
    match bytes_at(events, i) {
        Some(e) => call_of(e),
        None => call_of(&copied(events, i)),
    }
}

// Event i is fine.
#[tactic(auto, using(crate::proofs::Bytes::same_fine))]
fn event_fine(events: &[u8], i: u16) -> bool
    ensures { result ≡ event_fine (event_bytes events.now i) }
{
    match bytes_at(events, i) {
        Some(e) => is_fine(e),
        None => is_fine(&copied(events, i)),
    }
}

// All events are fine.
pub fn events_fine(events: &[u8], count: u16) -> bool
    ensures { result ≡ events_fine events.now count }
{
    (0..count).all(|i| event_fine(events, i))
}
