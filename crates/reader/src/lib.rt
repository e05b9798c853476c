// The reader of a run sheet's events: it knows the lent event bytes and its next event.
#![tactic(auto)]

ghost use Rattle.std.specs.Prelude.{◌≡◌, ◌+◌, ◌%◌};
ghost use Rattle.event.specs.Event.{event_at};

use event::event_at;
use table::Call;

// The event bytes of a lent sheet, and which event is next. No Iterator: it never ends, since past the end the bytes count as 0, and its three
// steps are public functions that the pages name.
#[derive(Clone, Copy)]
pub struct Reader<'a> {
    pub events: &'a [u8],
    pub next: u16,
}

impl<'a> Reader<'a> {
    // A reader of event bytes, at the event `next`.
    pub fn at(events: &'a [u8], next: u16) -> Self
        ensures { (result.events ≡ events.entry) × (result.next ≡ next) }
    {
        Reader { events, next }
    }

    // The call of the event that is next. Past the end the bytes count as 0, which is a STEP of task 0; no accepted sheet has such an event.
    pub fn next_event(self) -> Call
        ensures { result ≡ event_at self.entry.events.now self.entry.next }
    {
        event_at(self.events, self.next)
    }

    // The reader at the event that follows; after event 65,535 comes event 0.
    pub fn advanced(self) -> Self
        ensures { (result.events ≡ self.entry.events) × (result.next ≡ (self.entry.next + 1) % 65536) }
    {
        Reader {
            next: self.next.wrapping_add(1),
            ..self
        }
    }
}

// Event i: the one door for callers that hold no reader.
pub fn event(events: &[u8], i: u16) -> Call
    ensures { result ≡ event_at events.now i }
{
    Reader::at(events, i).next_event()
}
