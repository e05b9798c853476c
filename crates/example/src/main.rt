// Document 01's whole example: one task reads one record, then writes 7 into its field 0. Each event is one call of the library,
// which takes the machine and gives it back with an answer. What is written is what the runner writes for the same events.
#![tactic(auto)]

use std::io;
use table::{Answer, Machine, Out};
use tally::{Tally, Told};

const TASK: u8 = 0;

const RECORD: u8 = 0;

// The machine after some events, how many they were, and the tally of their answers.
#[derive(Drop)]
struct Run {
    m: Machine,
    events: u16,
    tally: Tally,
}

impl Run {
    // One more event, of which out is what the call gave. Its number wraps at 65,536, which no run reaches.
    fn event(&mut self, rt: &impl Print, out: Out) -> io::Result<()> {
        self.events = self.events.wrapping_add(1);
        write_event(rt, self.events, out.answer)?;
        compare_link(rt, out.m, out.answer)?;
        let operation = tally::operation_of(self.m.tasks[TASK as usize].place);
        tally::count(
            &mut self.tally,
            Told {
                operation,
                answer: out.answer,
            },
        );
        self.m = out.m;
        Ok(())
    }

    fn steps(&mut self, rt: &impl Print, count: u8) -> io::Result<()> {
        for _ in 0..count {
            let out = machine::step(self.m, TASK);
            self.event(rt, out)?;
        }
        Ok(())
    }
}

// Numbers, each after a space, and the end of the line: each is written alone, so that a write that fails leaves the numbers before it. A slice
// has no Display, and a type for these calls would be no plainer.
fn write_numbers(rt: &impl Print, numbers: &[u16]) -> io::Result<()> {
    for x in numbers {
        print!(rt; " {x}")?;
    }
    println!(rt;)
}

// The event's number, the task, the answer's number, and the values that it reports: four of a snapshot, one of a value read.
fn write_event(rt: &impl Print, event: u16, answer: Answer) -> io::Result<()> {
    let task = u16::from(TASK);
    let no = u16::from(answers::number_of(answer));
    print!(rt; "{event}")?;
    match answer {
        Answer::Snapshot { cells } => {
            let [c0, c1, c2, c3] = cells.map(|c| c.value);
            write_numbers(rt, &[task, no, c0, c1, c2, c3])
        }
        Answer::Value { cell } => write_numbers(rt, &[task, no, cell.value]),
        _ => write_numbers(rt, &[task, no]),
    }
}

// The cells of a snapshot are those that the task's link to the record keeps; a line says if they are not.
fn compare_link(rt: &impl Print, m: Machine, answer: Answer) -> io::Result<()> {
    if let Answer::Snapshot { cells } = answer {
        let link = m.links[TASK as usize * Machine::RECORDS + RECORD as usize];
        if !table::same_cells(cells, link.cells) {
            println!(rt; "link differs")?;
        }
    }
    Ok(())
}

fn main(rt: HostRuntime) -> io::Result<()> {
    let mut run = Run {
        m: Machine::fresh(1, 1, &[5, 0, 0, 0]).m,
        events: 0,
        tally: tally::none(),
    };
    let out = machine::llx(run.m, TASK, RECORD);
    run.event(&rt, out)?;
    run.steps(&rt, 9)?;
    // n 1, the list of record 0 alone, R empty, place 0, field 0, new value 7
    let out = machine::scx(run.m, TASK, 1, [RECORD, 0, 0, 0], 0, 0, 0, 7);
    run.event(&rt, out)?;
    run.steps(&rt, 4)?;
    let rec = run.m.records[RECORD as usize];
    let [c0, c1, c2, c3] = rec.cells.map(|c| c.value);
    print!(rt; "R")?;
    write_numbers(
        &rt,
        &[u16::from(RECORD), u16::from(rec.mark), c0, c1, c2, c3],
    )?;
    let Tally { made, no, fail } = run.tally;
    print!(rt; "T")?;
    write_numbers(&rt, &[made, no, fail])
}
