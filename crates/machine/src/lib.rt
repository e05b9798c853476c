// The public calls. Each takes any machine and any arguments, and answers what the rules say: the whole machine and the answer.
// A refused call gives the machine back as it came. They are no methods, since the type is another crate's; they take the machine by value,
// since README and the pages show them so.
#![tactic(auto)]

ghost use Rattle.std.specs.Prelude.{◌≡◌};
ghost use Rattle.rules.specs.Next as rules;

use table::{Answer, Ask, Call, List, Machine, Out, Refusal};

#[tactic(auto, unfolding(rules::specs::Next::refused))]
fn refused(m: Machine, why: Refusal) -> Out
    ensures { result ≡ rules.refused m why }
{
    Out {
        m,
        answer: Answer::Refused { why },
    }
}

// Any call: refusal 10, then the others in the order of their numbers, then the start or the step.
#[tactic(auto, using(exact::proofs::Hand::turn_is, exact::proofs::Turn::out_of_shape))]
pub fn call(m: Machine, e: Call) -> Out
    ensures { result ≡ rules.next m e }
{
    if shape::in_shape(m) {
        turns::turn_in(m, e)
    } else {
        refused(m, Refusal::OutOfShape)
    }
}

// Starts LLX of record r.
pub fn llx(m: Machine, t: u8, r: u8) -> Out
    ensures { result ≡ rules.next m (rules.llx t r) }
{
    call(
        m,
        Call {
            task: t,
            ask: Ask::Llx { r },
            list: [0; Machine::LIST],
        },
    )
}

// Starts SCX of the first n records of the list: R is a bit for each place, and the field of the written place is to get the new value.
pub fn scx(m: Machine, t: u8, n: u8, list: List, r: u8, written: u8, field: u8, new: u16) -> Out
    ensures { result ≡ rules.next m (rules.scx t n list r written field new) }
{
    call(
        m,
        Call {
            task: t,
            ask: Ask::Scx {
                n,
                r,
                written,
                field,
                new,
            },
            list,
        },
    )
}

// Starts VLX of the first n records of the list.
pub fn vlx(m: Machine, t: u8, n: u8, list: List) -> Out
    ensures { result ≡ rules.next m (rules.vlx t n list) }
{
    call(
        m,
        Call {
            task: t,
            ask: Ask::Vlx { n },
            list,
        },
    )
}

// Starts READ of field f of record r.
pub fn read(m: Machine, t: u8, r: u8, f: u8) -> Out
    ensures { result ≡ rules.next m (rules.read t r f) }
{
    call(
        m,
        Call {
            task: t,
            ask: Ask::Read { r, f },
            list: [0; Machine::LIST],
        },
    )
}

// One STEP of task t.
pub fn step(m: Machine, t: u8) -> Out
    ensures { result ≡ rules.next m (rules.stepping t) }
{
    call(
        m,
        Call {
            task: t,
            ask: Ask::Step,
            list: [0; Machine::LIST],
        },
    )
}
