// The table: its types, its limits, and the fresh table.
#![tactic(auto)]

ghost use Rattle.std.specs.Prelude.{◌≡◌, Ok, Err};
ghost use Rattle.table.specs.Table.{pick, same_cell, same_cells};

mod making;

// A value with its stamp: the number of the change that wrote it, 0 for the initial value.
#[derive(Clone, Copy, Default, PartialEq, Eq)]
pub struct Cell {
    pub value: u16,
    pub stamp: u8,
}

// The four cells of a record, by value.
pub type Cells = [Cell; Machine::FIELDS];

// A list V of record numbers, of which the first n count. The count stands beside it, and what lies past it is kept: a call may say any n,
// and one of 0 or above 4 is refused (`machine::scx`, `machine::vlx`); a Vec would want the heap, of which there is none here.
pub type List = [u8; Machine::LIST];

// A record: four cells, a mark, the info. There is one for each last on the carrier.
#[derive(Clone, Copy, Default)]
pub struct Record {
    pub cells: Cells,
    pub mark: bool,
    pub info: u8,
}

#[derive(Clone, Copy, Default)]
pub enum State {
    #[default]
    InProgress,
    Committed,
    Aborted,
}

// An SCX-record: what an SCX wrote down when it started, its state and allFrozen. V, R and the infos stand side by side, each an array of its
// own, since the rules name each alone (`change_fine` in Shape.antt).
#[derive(Clone, Copy, Default)]
pub struct Change {
    pub n: u8,
    pub v: List,
    // R, a bool for each place of V
    pub r: [bool; Machine::LIST],
    // the place in V and the field to be written
    pub written: u8,
    pub field: u8,
    pub new: u16,
    pub old: Cell,
    pub state: State,
    pub frozen: bool,
    // for each place of V the info that its linked read saw
    pub infos: List,
}

// What follows the verdict of a help: the answer of the task's own SCX, or the LLX that helped, at L8 or at L11.
#[derive(Clone, Copy)]
pub enum After {
    Own,
    AtL8 { r: u8, m1: bool },
    AtL11,
}

// Idle, or one place in one operation, with only the numbers that it needs. What is done at a place is a match on it, in the crates above:
// the cases are fixed and each has its own numbers, so closures or a dyn would be no plainer.
#[derive(Clone, Copy, Default)]
pub enum Place {
    #[default]
    Idle,
    L1 { r: u8 },
    L2 { r: u8, m1: bool },
    L3 { r: u8, m1: bool, a: u8 },
    L4 { r: u8, m1: bool, a: u8, s: State },
    L5 { r: u8, m1: bool, a: u8, f: u8 },
    L6 { r: u8, m1: bool, a: u8 },
    L7 { r: u8, m1: bool, a: u8 },
    L8 { r: u8, m1: bool, a: u8 },
    L9 { r: u8 },
    L10 { r: u8, b: u8 },
    L11 { r: u8 },
    H1 { u: u8, i: u8, after: After },
    H2 { u: u8, i: u8, after: After },
    H3 { u: u8, after: After },
    H4 { u: u8, after: After },
    H5 { u: u8, after: After },
    H6 { u: u8, i: u8, after: After },
    H7 { u: u8, after: After },
    H8 { u: u8, after: After },
    Vlx { n: u8, i: u8 },
    Read { r: u8, f: u8 },
}

// Which operation a task is in.
#[derive(Clone, Copy)]
pub enum Operation {
    Llx,
    Scx,
    Vlx,
    Read,
}

// A task: its place, the cells that an LLX has read so far, the list of a VLX.
#[derive(Clone, Copy, Default)]
pub struct Task {
    pub place: Place,
    pub cells: Cells,
    pub list: List,
}

// What a task's LLX of a record returned, or none. A dropped link keeps its info and cells (`dropped` in Step.antt): so a flag, and no Option.
#[derive(Clone, Copy, Default)]
pub struct Link {
    pub there: bool,
    pub info: u8,
    pub cells: Cells,
}

// The whole table: fixed arrays, since there is no heap, and numbers that name what stands in them, as in the rules (`slot`, `link_at`).
// Change u stands at u, entry 0 is not looked at; the link of task t to record r at t * RECORDS + r.
#[derive(Clone, Copy)]
pub struct Machine {
    pub p: u8,
    pub n: u8,
    pub used: u8,
    pub records: [Record; Machine::RECORDS],
    pub changes: [Change; Machine::CHANGES + 1],
    pub tasks: [Task; Machine::TASKS],
    pub links: [Link; Machine::LINKS],
}

// What a call asks for. R is a bit for each place; the list of an SCX or a VLX stands beside, in the call. The numbers of an SCX stand one by
// one, since the rules take them so (`rules` in Refuse.antt). What is done for each is a match, as at Place.
#[derive(Clone, Copy)]
pub enum Ask {
    Llx {
        r: u8,
    },
    Scx {
        n: u8,
        r: u8,
        written: u8,
        field: u8,
        new: u16,
    },
    Vlx {
        n: u8,
    },
    Read {
        r: u8,
        f: u8,
    },
    Step,
}

#[derive(Clone, Copy)]
pub struct Call {
    pub task: u8,
    pub ask: Ask,
    pub list: List,
}

// Why a call or a sheet is refused: 10 to 25.
#[derive(Clone, Copy)]
pub enum Refusal {
    OutOfShape = 10,
    NoSuchTask = 11,
    TaskBusy = 12,
    TaskIdle = 13,
    ListLength = 14,
    NoSuchRecord = 15,
    RecordTwice = 16,
    PlaceOrField = 17,
    NoLink = 18,
    NumbersUsed = 19,
    SheetSize = 20,
    SheetTag = 21,
    Counts = 22,
    Distance = 23,
    EventKind = 24,
    BufferShort = 25,
}

impl Refusal {
    // Nothing where a rule is kept, else this refusal of what breaks it.
    pub fn unless(self, kept: bool) -> Result<(), Refusal>
        ensures { result ≡ pick kept (Ok tt) (Err self) }
    {
        if kept { Ok(()) } else { Err(self) }
    }
}

// What a call answers.
#[derive(Clone, Copy)]
pub enum Answer {
    Accepted,
    Snapshot { cells: Cells },
    Finalized,
    Fail,
    Yes,
    No,
    Value { cell: Cell },
    Refused { why: Refusal },
}

// The machine after a call, and the answer.
#[derive(Clone, Copy)]
pub struct Out {
    pub m: Machine,
    pub answer: Answer,
}

// The one shared access of a step: which word it reads, sets, or sets if it holds a value. What is done for each is a match, as at Place.
#[derive(Clone, Copy)]
pub enum Access {
    Nothing,
    ReadMark { r: u8 },
    ReadInfo { r: u8 },
    ReadCell { r: u8, f: u8 },
    ReadState { u: u8 },
    ReadFrozen { u: u8 },
    Hold { r: u8, want: u8, u: u8 },
    Close { r: u8 },
    Write { r: u8, f: u8, old: Cell, new: Cell },
    Freeze { u: u8 },
    Abort { u: u8 },
    Commit { u: u8 },
}

// What an access saw, in the field of its kind; the others are as by default. Each place reads the one field of its access: an enum would have each
// take apart the kinds that it never sees, so it is no plainer.
#[derive(Clone, Copy, Default)]
pub struct Seen {
    pub bit: bool,
    pub number: u8,
    pub cell: Cell,
    pub state: State,
}

// The local work that rides on an access. All but the first two leave the task idle.
#[derive(Clone, Copy)]
pub enum Move {
    // on to a place
    On(Place),
    // on to a place, with the cell seen kept as this field
    Keep(Place, u8),
    // the answer
    Done(Answer),
    // the snapshot, with the link stored
    Store,
    // no, with the links to that many records of the task's list dropped
    Unlink(u8),
}

// Whether two cells are equal, both value and stamp. `==` under a name: a public function, with its contract.
#[tactic(auto, unfolding(crate::specs::Table::same_cell))]
pub fn same_cell(a: Cell, b: Cell) -> bool
    ensures { result ≡ same_cell a b }
{
    a == b
}

// Whether two arrays of four cells are equal, by that comparison of each two.
#[tactic(auto, unfolding(crate::specs::Table::same_cells))]
pub fn same_cells(xs: Cells, ys: Cells) -> bool
    ensures { result ≡ same_cells xs ys }
{
    same_cell(xs[0], ys[0])
        && same_cell(xs[1], ys[1])
        && same_cell(xs[2], ys[2])
        && same_cell(xs[3], ys[3])
}

impl Machine {
    pub const TASKS: usize = 8;

    pub const RECORDS: usize = 32;

    pub const CHANGES: usize = 255;

    pub const LIST: usize = 4;

    pub const FIELDS: usize = 4;

    // the most events that a sheet has
    pub const EVENTS: usize = 5000;

    pub const LINKS: usize = Machine::TASKS * Machine::RECORDS;
}
