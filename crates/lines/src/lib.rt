// The lines of a run, written on a page.
#![tactic(auto)]

ghost use Rattle.std.specs.Prelude.{◌≤◌, length};
ghost use Rattle.text.specs.Wrote.{Wrote};
ghost use Rattle.lines.specs.Lines.{answer_line, record_line, tally_line, refusal_line};

use table::{Answer, Record, Refusal};
use tally::Tally;
use text::Page;

// The line of event k, of task t: at most seven numbers.
pub fn put_answer(page: &mut Page<'_>, k: u16, t: u8, answer: Answer)
    ensures { Wrote page.old (answer_line k t answer) page.new × (length (answer_line k t answer) ≤ 42) }
{
    let t = u16::from(t);
    let no = u16::from(answers::number_of(answer));
    match answer {
        Answer::Snapshot { cells } => {
            let [c0, c1, c2, c3] = cells.map(|c| c.value);
            page.row(&[k, t, no, c0, c1, c2, c3]);
        }
        Answer::Value { cell } => page.row(&[k, t, no, cell.value]),
        _ => page.row(&[k, t, no]),
    }
}

// The line of record r: a letter and six numbers.
pub fn put_record(page: &mut Page<'_>, r: u8, rec: Record)
    ensures { Wrote page.old (record_line r rec) page.new × (length (record_line r rec) ≤ 38) }
{
    let [c0, c1, c2, c3] = rec.cells.map(|c| c.value);
    page.lettered(b'R', &[u16::from(r), u16::from(rec.mark), c0, c1, c2, c3]);
}

// The last line.
#[tactic(auto, unfolding(crate::specs::Lines::tally_line))]
pub fn put_tally(page: &mut Page<'_>, tally: Tally)
    ensures { Wrote page.old (tally_line tally) page.new }
{
    page.lettered(b'T', &[tally.made, tally.no, tally.fail]);
}

// The line of a refused sheet.
#[tactic(auto, unfolding(crate::specs::Lines::refusal_line))]
pub fn put_refusal(page: &mut Page<'_>, why: Refusal)
    ensures { Wrote page.old (refusal_line why) page.new }
{
    page.lettered(b'X', &[u16::from(answers::refusal_number(why))]);
}
