// Twelve bytes: the call that they say, and whether the unused ones among them are 0.
ghost use Rattle.std.specs.Prelude.{◌≡◌, ◌==◌, drop, IfSome};
ghost use Rattle.std.specs.List.{list_all};
ghost use Rattle.table.specs.Table.{tabulate};
ghost use Rattle.event.specs.Event.{byte, call_of, event_bytes, event_fine};

use crate::{EVENT, byte_at, pair};
use std::array;
use table::{Ask, Call, List, Machine};

// The bytes of an event.
pub(crate) type Event = [u8; EVENT];

// The bytes of event i as they lie, where the sheet has all twelve.
pub(crate) fn bytes_at(events: &[u8], i: u16) -> Option<&Event>
    ensures { IfSome result (λ e. e.now ≡ tabulate 12 (byte (event_bytes events.now i))) }
{
    let from = EVENT * i as usize;
    events.get(from..from + EVENT)?.first_chunk()
}

// The same one by one, where the sheet ends before that.
pub(crate) fn copied(events: &[u8], i: u16) -> Event
    ensures { result ≡ tabulate 12 (byte (event_bytes events.now i)) }
{
    let from = EVENT * i as usize;
    array::from_fn(|k| byte_at(events, from + k))
}

// The call that the bytes say. A kind stays a byte, in one pattern with the bytes that it uses: a kind's own enum would stand between, and say
// what `Ask` says.
#[tactic(auto, unfolding(crate::specs::Event::call_of))]
pub(crate) fn call_of(e: &Event) -> Call
    ensures { result ≡ call_of e.now }
{
    let unlisted = [0; Machine::LIST];
    match *e {
        [1, task, _, r, ..] => Call {
            task,
            ask: Ask::Llx { r },
            list: unlisted,
        },
        [2, task, n, a, b, c, d, r, written, field, low, high] => Call {
            task,
            ask: Ask::Scx {
                n,
                r,
                written,
                field,
                new: pair(low, high),
            },
            list: [a, b, c, d],
        },
        [3, task, n, a, b, c, d, ..] => Call {
            task,
            ask: Ask::Vlx { n },
            list: [a, b, c, d],
        },
        [4, task, _, r, _, _, _, _, _, f, ..] => Call {
            task,
            ask: Ask::Read { r, f },
            list: unlisted,
        },
        [_, task, ..] => Call {
            task,
            ask: Ask::Step,
            list: unlisted,
        },
    }
}

// The kind is 1 to 5, and each unused byte is 0. The kinds stay bytes, as in `call_of`.
#[tactic(auto, unfolding(crate::specs::Event::event_fine, crate::specs::Event::uses, rules::specs::Claim::both, rules::specs::Claim::all_below))]
pub(crate) fn is_fine(e: &Event) -> bool
    ensures { result ≡ event_fine e.now }
{
    match *e {
        [1, _, 0, _, b, c, d, r, written, field, low, high] => zeros([
            b, c, d, r, written, field, low, high,
        ]),
        [2, _, n, a, b, c, d, ..] => ends_at(n, [a, b, c, d]),
        [3, _, n, a, b, c, d, 0, 0, 0, 0, 0] => ends_at(n, [a, b, c, d]),
        [4, _, 0, _, 0, 0, 0, 0, 0, _, 0, 0] => true,
        [5, _, n, a, b, c, d, r, written, field, 0, 0] => zeros([n, a, b, c, d, r, written, field]),
        _ => false,
    }
}

// Eight bytes are 0, asked of them as one number: a branch for each byte makes the reading of a sheet of STEPs half as long again.
fn zeros(bytes: [u8; 8]) -> bool
    ensures { result ≡ list_all (λ x. x == 0) bytes }
{
    u64::from_le_bytes(bytes) == 0
}

// The list's bytes past n are 0.
fn ends_at(n: u8, list: List) -> bool
    ensures { result ≡ list_all (λ x. x == 0) (drop n list) }
{
    list.iter().skip(n as usize).all(|b| *b == 0)
}
