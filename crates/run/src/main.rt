// The program: a run sheet on standard input, the text of its run on standard output. What it prints is in the crate runner.
#![tactic(auto)]

ghost use Rattle.std.specs.Prelude.{◌≤◌, length, IfOk};

use std::io;
use std::io::{Read, Write};
use table::Machine;

// One byte more than a sheet may have, so that a longer input is noticed.
const MOST: usize = 65_001;

// Room for the text of every sheet: 42 bytes for each event, 38 for each record and 20 for the tally.
const ROOM: usize = 42 * Machine::EVENTS + 38 * Machine::RECORDS + 20;

// Reads until the buffer is full or the input ends: how many bytes came. A loop, since `read_exact` is an error where the input ends
// early, and `read_to_end` wants a Vec, of which there is none here: no heap.
fn read_full(from: &mut (impl Read), buf: &mut [u8]) -> io::Result<usize>
    ensures { IfOk result (λ n. n ≤ length buf.new) }
{
    let mut done = 0;
    while done < buf.len() {
        let got = from.read(&mut buf[done..])?;
        if got == 0 {
            break;
        }
        done += got;
    }
    Ok(done)
}

fn main(rt: HostRuntime) -> io::Result<()> {
    let mut sheet = [0u8; MOST];
    let mut text = [0u8; ROOM];
    let got = read_full(&mut rt.reader(), &mut sheet)?;
    let length = runner::run(&sheet[..got], &mut text).unwrap();
    io::writer(&rt).write_all(&text[..length])
}
