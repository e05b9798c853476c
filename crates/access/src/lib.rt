// The one shared access of a step: which change a place names, which access it makes, which record that touches; whether it is idle.
#![tactic(auto)]

ghost use Rattle.std.specs.Prelude.{◌≡◌};
ghost use Rattle.rules.specs.Places.{change_of, access_of, is_idle};
ghost use Rattle.rules.specs.Perform.{record_of};

use table::{Access, Cell, Change, List, Place};

// The change that a place names, 0 where it names none: the entry that is not looked at. An Option would be unwrapped to 0 by each caller.
pub fn change_of(place: Place) -> u8
    ensures { result ≡ change_of place }
{
    match place {
        Place::L3 { a: u, .. }
        | Place::L4 { a: u, .. }
        | Place::L5 { a: u, .. }
        | Place::L6 { a: u, .. }
        | Place::L7 { a: u, .. }
        | Place::L8 { a: u, .. }
        | Place::L10 { b: u, .. }
        | Place::H1 { u, .. }
        | Place::H2 { u, .. }
        | Place::H3 { u, .. }
        | Place::H4 { u, .. }
        | Place::H5 { u, .. }
        | Place::H6 { u, .. }
        | Place::H7 { u, .. }
        | Place::H8 { u, .. } => u,
        _ => 0,
    }
}

// Which one access a place makes. One match on the place: closures would hide which place does what.
pub fn access_of(place: Place, ch: Change, list: List) -> Access
    ensures { result ≡ access_of place ch list }
{
    match place {
        Place::Idle => Access::Nothing,
        Place::L1 { r } | Place::L4 { r, .. } => Access::ReadMark { r },
        Place::L2 { r, .. } | Place::L6 { r, .. } | Place::L9 { r } | Place::L11 { r } =>
            Access::ReadInfo { r },
        Place::L3 { a: u, .. }
        | Place::L7 { a: u, .. }
        | Place::L8 { a: u, .. }
        | Place::L10 { b: u, .. } => Access::ReadState { u },
        Place::L5 { r, f, .. } | Place::Read { r, f } => Access::ReadCell { r, f },
        // take hold of place i's record for change u, if its info is still the stored one
        Place::H1 { u, i, .. } => Access::Hold {
            r: four::at(ch.v, i, 0),
            want: four::at(ch.infos, i, 0),
            u,
        },
        Place::H2 { i, .. } => Access::ReadInfo {
            r: four::at(ch.v, i, 0),
        },
        Place::H3 { u, .. } => Access::ReadFrozen { u },
        Place::H4 { u, .. } => Access::Abort { u },
        Place::H5 { u, .. } => Access::Freeze { u },
        Place::H6 { i, .. } => Access::Close {
            r: four::at(ch.v, i, 0),
        },
        // write what change u wrote down, with stamp u
        Place::H7 { u, .. } => Access::Write {
            r: four::at(ch.v, ch.written, 0),
            f: ch.field,
            old: ch.old,
            new: Cell {
                value: ch.new,
                stamp: u,
            },
        },
        Place::H8 { u, .. } => Access::Commit { u },
        Place::Vlx { i, .. } => Access::ReadInfo {
            r: four::at(list, i, 0),
        },
    }
}

// The record whose word an access touches, 0 where it touches none. An Option would be unwrapped to 0 by its caller.
pub fn record_of(a: Access) -> u8
    ensures { result ≡ record_of a }
{
    match a {
        Access::ReadMark { r }
        | Access::ReadInfo { r }
        | Access::ReadCell { r, .. }
        | Access::Hold { r, .. }
        | Access::Close { r }
        | Access::Write { r, .. } => r,
        _ => 0,
    }
}

// Whether a task at this place has no operation.
pub fn is_idle(place: Place) -> bool
    ensures { result ≡ is_idle place }
{
    matches!(place, Place::Idle)
}
