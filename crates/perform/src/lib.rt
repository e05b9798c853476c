// What an access sees in the record and the change that it touches, and what it leaves in each: a match on the access for each of the three,
// since closures or a dyn would tell each of the twelve kinds apart all the same.
#![tactic(auto)]

ghost use Rattle.std.specs.Prelude.{◌≡◌};
ghost use Rattle.rules.specs.Perform.{seen_by, record_by, change_by};

use table::{Access, Cell, Change, Record, Seen, State, same_cell};

// What the access sees of the record x and the change ch that it touches.
pub fn seen_by(a: Access, x: Record, ch: Change) -> Seen
    ensures { result ≡ seen_by a x ch }
{
    let nothing = Seen::default();
    match a {
        Access::ReadMark { .. } => Seen {
            bit: x.mark,
            ..nothing
        },
        Access::ReadInfo { .. } => Seen {
            number: x.info,
            ..nothing
        },
        Access::ReadCell { f, .. } => Seen {
            cell: four::at(x.cells, f, Cell::default()),
            ..nothing
        },
        // the dummy, number 0, is always Aborted
        Access::ReadState { u: 0 } => Seen {
            state: State::Aborted,
            ..nothing
        },
        Access::ReadState { .. } => Seen {
            state: ch.state,
            ..nothing
        },
        Access::ReadFrozen { .. } => Seen {
            bit: ch.frozen,
            ..nothing
        },
        Access::Hold { want, .. } => Seen {
            bit: x.info == want,
            ..nothing
        },
        _ => nothing,
    }
}

// The record x after the access: a hold sets its info, if that is the one wanted, a close its mark, a write a cell, if both value and
// stamp are those of the old one.
pub fn record_by(a: Access, x: Record) -> Record
    ensures { result ≡ record_by a x }
{
    match a {
        Access::Hold { want, u, .. } if x.info == want => Record { info: u, ..x },
        Access::Close { .. } => Record { mark: true, ..x },
        Access::Write { f, old, new, .. }
            if same_cell(four::at(x.cells, f, Cell::default()), old) => Record {
            cells: four::with(x.cells, f, new),
            ..x
        },
        _ => x,
    }
}

// The change x after the access: an abort or a commit sets its state, a freeze its allFrozen.
pub fn change_by(a: Access, x: Change) -> Change
    ensures { result ≡ change_by a x }
{
    match a {
        Access::Freeze { .. } => Change { frozen: true, ..x },
        Access::Abort { .. } => Change {
            state: State::Aborted,
            ..x
        },
        Access::Commit { .. } => Change {
            state: State::Committed,
            ..x
        },
        _ => x,
    }
}
