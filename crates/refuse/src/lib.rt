// The refusals of a call from 11 on, in the order of their numbers, on small values.
#![tactic(auto)]

ghost use Rattle.std.specs.Prelude.{◌≡◌, [], ltb};
ghost use Rattle.rules.specs.Words.{AskLlx, AskScx, AskVlx, AskRead, AskStep};
ghost use Rattle.rules.specs.Claim.{both, test};
ghost use Rattle.rules.specs.Shape.{in_list};
ghost use Rattle.rules.specs.Start.{places};
ghost use Rattle.rules.specs.Refuse.{inside, listed, check, rules};
ghost use Rattle.refuse.specs.Linked.{linked_by};

use table::{Ask, Call, Link, List, Machine, Refusal};

// What the refusals of a call depend on of the table: P, N, the used count, whether the task is idle, and whether it has a link to
// each record of the call's list.
#[derive(Clone, Copy)]
pub struct Known {
    pub p: u8,
    pub n: u8,
    pub used: u8,
    pub idle: bool,
    pub linked: bool,
}

// Whether R names only places below n.
#[tactic(auto, unfolding(rules::specs::Claim::both))]
fn set_inside(n: u8, r: u8) -> bool
    ensures { result ≡ both (ltb r 16) (test 0 (in_list n (places r))) }
{
    r < 16 && lists::in_list(n, lists::places(r))
}

#[tactic(auto, unfolding(rules::specs::Claim::both))]
fn inside(n: u8, r: u8, written: u8, field: u8) -> bool
    ensures { result ≡ test 0 (inside n r written field) }
{
    written < n && (set_inside(n, r) && (field as usize) < Machine::FIELDS)
}

// The rules of each kind of call, in the order of the refusals.
impl Known {
    fn llx(self, t: u8, r: u8) -> Result<(), Refusal>
        ensures { result ≡ check (rules self.p self.n self.used self.idle self.linked t (AskLlx r) []) }
    {
        Refusal::NoSuchTask.unless(t < self.p)?;
        Refusal::TaskBusy.unless(self.idle)?;
        Refusal::NoSuchRecord.unless(r < self.n)?;
        Ok(())
    }

    fn scx(self, t: u8, k: u8, r: u8, written: u8, field: u8, list: List) -> Result<(), Refusal>
        ensures { result ≡ check (rules self.p self.n self.used self.idle self.linked t (AskScx k r written field 0) list) }
    {
        Refusal::NoSuchTask.unless(t < self.p)?;
        Refusal::TaskBusy.unless(self.idle)?;
        Refusal::ListLength.unless(lists::length_fine(k))?;
        Refusal::NoSuchRecord.unless(lists::exist(self.n, k, list))?;
        Refusal::RecordTwice.unless(lists::apart(k, list))?;
        Refusal::PlaceOrField.unless(inside(k, r, written, field))?;
        Refusal::NoLink.unless(self.linked)?;
        Refusal::NumbersUsed.unless((self.used as usize) < Machine::CHANGES)?;
        Ok(())
    }

    fn vlx(self, t: u8, k: u8, list: List) -> Result<(), Refusal>
        ensures { result ≡ check (rules self.p self.n self.used self.idle self.linked t (AskVlx k) list) }
    {
        Refusal::NoSuchTask.unless(t < self.p)?;
        Refusal::TaskBusy.unless(self.idle)?;
        Refusal::ListLength.unless(lists::length_fine(k))?;
        Refusal::NoSuchRecord.unless(lists::exist(self.n, k, list))?;
        Refusal::RecordTwice.unless(lists::apart(k, list))?;
        Refusal::NoLink.unless(self.linked)?;
        Ok(())
    }

    fn read(self, t: u8, r: u8, f: u8) -> Result<(), Refusal>
        ensures { result ≡ check (rules self.p self.n self.used self.idle self.linked t (AskRead r f) []) }
    {
        Refusal::NoSuchTask.unless(t < self.p)?;
        Refusal::TaskBusy.unless(self.idle)?;
        Refusal::NoSuchRecord.unless(r < self.n)?;
        Refusal::PlaceOrField.unless((f as usize) < Machine::FIELDS)?;
        Ok(())
    }

    fn step(self, t: u8) -> Result<(), Refusal>
        ensures { result ≡ check (rules self.p self.n self.used self.idle self.linked t AskStep []) }
    {
        Refusal::NoSuchTask.unless(t < self.p)?;
        Refusal::TaskIdle.unless(!self.idle)?;
        Ok(())
    }
}

// The first refusal from 11 on that applies to a call: a match on what it asks for, each case of which hands on its own numbers.
pub fn refusal(e: Call, known: Known) -> Result<(), Refusal>
    ensures { result ≡ check (rules known.p known.n known.used known.idle known.linked e.task e.ask e.list) }
{
    let t = e.task;
    let list = e.list;
    match e.ask {
        Ask::Llx { r } => known.llx(t, r),
        Ask::Scx {
            n,
            r,
            written,
            field,
            ..
        } => known.scx(t, n, r, written, field, list),
        Ask::Vlx { n } => known.vlx(t, n, list),
        Ask::Read { r, f } => known.read(t, r, f),
        Ask::Step => known.step(t),
    }
}

// How many records of its list a call names.
fn listed(ask: Ask) -> u8
    ensures { result ≡ listed ask }
{
    match ask {
        Ask::Scx { n, .. } | Ask::Vlx { n } => n,
        _ => 0,
    }
}

// Whether each record that a call names has a link, by the links of its list. One by one, as `theres` names them: tried with `map`, and the
// proof did not close.
pub fn linked(ask: Ask, links: [Link; Machine::LIST]) -> bool
    ensures { result ≡ linked_by ask links }
{
    lists::all_linked(
        listed(ask),
        [
            links[0].there,
            links[1].there,
            links[2].there,
            links[3].there,
        ],
    )
}
