// The runner: the bytes of a sheet in, the text of its run out, in a lent buffer.
#![tactic(auto)]

ghost use Rattle.std.specs.Prelude.{◌≡◌, ◌+◌, ◌*◌, ◌≤◌, length, Ok};
ghost use Rattle.text.specs.Text.{joined};
ghost use Rattle.text.specs.Put.{Put};
ghost use Rattle.text.specs.Wrote.{Wrote};
ghost use Rattle.lines.specs.Lines.{refusal_line};
ghost use Rattle.sheet.specs.Layout.{sheet_of};
ghost use Rattle.runner.specs.Run.{record_line_at, table_of, run_of, room_as, ran_of, printed_of};

use sheet::Layout;
use table::{Machine, Refusal};
use text::Page;

// The buffer is too short: how long it must be for the longest text that the sheet could have.
#[derive(Clone, Copy)]
pub struct Short {
    pub room: usize,
}

// The longest line of an event, of a record, of the tally and of a refused sheet.
const EVENT_LINE: usize = 42;

const RECORD_LINE: usize = 38;

const TALLY_LINE: usize = 20;

const REFUSAL_LINE: usize = 8;

// The lines of the first n records, by number, which each line needs too.
fn put_records(page: &mut Page<'_>, m: Machine, n: u8)
    requires { n ≤ 32 }
    ensures { Wrote page.old (joined (record_line_at m) n) page.new × (length (joined (record_line_at m) n) ≤ 38 * n) }
{
    for r in 0..n {
        lines::put_record(page, r, m.records[r as usize]);
    }
}

// The fresh table of a sheet.
#[tactic(auto, using(sheet::proofs::Laws::read_inside))]
fn table_of(s: &[u8], at: Layout) -> Machine
    requires { sheet_of s.now ≡ Ok at }
    ensures { result ≡ table_of s.now at }
{
    let end = at.from + sheet::RECORD * at.n as usize;
    let values = sheet::values(&s[at.from..end]);
    let given = Machine::FIELDS * at.n as usize;
    Machine::fresh(at.p, at.n, &values[..given]).m
}

// The run of a sheet that is not refused.
#[tactic(auto, using(sheet::proofs::Laws::read_inside))]
fn put_run(s: &[u8], at: Layout, out: &mut [u8]) -> usize
    requires { sheet_of s.now ≡ Ok at }
    ensures { Put out.old 0 (run_of s.now at) out.new result × (length (run_of s.now at) ≤ 42 * at.count + 38 * at.n + 20) }
{
    let first = table_of(s, at);
    let from = at.from + sheet::RECORD * at.n as usize;
    let end = from + event::EVENT * at.count as usize;
    let played = play::play(&s[from..end], at.count, first, out);
    let mut page = Page {
        out,
        at: played.next,
    };
    put_records(&mut page, played.m, at.n);
    lines::put_tally(&mut page, played.tally);
    page.at
}

// The line of a sheet that is refused.
fn put_refusal(why: Refusal, out: &mut [u8]) -> usize
    ensures { Put out.old 0 (refusal_line why) out.new result }
{
    let mut page = Page { out, at: 0 };
    lines::put_refusal(&mut page, why);
    page.at
}

// How long a buffer must be for the longest text that a sheet with this layout or refusal could have.
pub fn room_of(read: Result<Layout, Refusal>) -> usize
    ensures { result ≡ room_as read }
{
    match read {
        Ok(at) => EVENT_LINE * at.count as usize + RECORD_LINE * at.n as usize + TALLY_LINE,
        Err(_) => REFUSAL_LINE,
    }
}

// For any bytes and any buffer: the length of the text.
pub fn run(s: &[u8], out: &mut [u8]) -> Result<usize, Short>
    ensures { (result ≡ ran_of s.now (length out.old)) × (out.new ≡ printed_of s.now out.old) }
{
    let read = sheet::layout_of(s);
    let room = room_of(read);
    if out.len() < room {
        return Err(Short { room });
    }
    match read {
        Ok(at) => Ok(put_run(s, at, out)),
        Err(why) => Ok(put_refusal(why, out)),
    }
}
