// The types of the fence: what a reference or a statement breaks, what the check answers, and what is answered of data. The rules themselves stand in specs/.
#![tactic(auto)]

ghost use Rattle.std.specs.Prelude.{◌≡◌};
ghost use Rattle.rules_fence.specs.Breaches.{breach_number};

use rules_run::Span;
use rules_unit::{Form, Refusal};

// The first fence rule that a reference or a statement breaks.
#[derive(Clone, Copy)]
pub enum Breach {
    // It breaks none.
    None,
    // A bound is no number literal that stands directly before, nor one followed by negate.
    BoundNotLiteral,
    // The bounds are ones that 21 is given for.
    BoundsWrong,
    // The span is not inside its field.
    LeavesField,
    // A decimal span is not inside one element.
    OverElements,
    // A decimal destination does not end at its element's last character.
    StopsMidElement,
    // An alpha destination shares a byte with a decimal field.
    OnDecimal,
}

// What the fence check answers.
#[derive(Clone, Copy)]
pub enum Verdict {
    // The unit is refused: 1 to 5.
    Refused(Refusal),
    // Every statement keeps the rules.
    Yes,
    // The first statement that breaks one.
    No(u16),
}

// A reference that breaks a fence rule: the statement that it stands in, the first rule that it breaks, whether it names a destination, its field and its form, the
// bytes that its bounds fix, if they fix some, and its offset in the expressions.
#[derive(Clone, Copy)]
pub struct Broken {
    pub statement: u16,
    pub rule: Breach,
    pub written: bool,
    pub field: u16,
    pub form: Form,
    pub span: Option<Span>,
    pub at: usize,
}

// What is answered of a data buffer for a unit.
#[derive(Clone, Copy)]
pub enum Validity {
    // The unit is refused: 1 to 5.
    Refused(Refusal),
    // The buffer does not have the unit's D bytes: 6.
    WrongSize,
    // Every element of every decimal field is valid.
    AllValid,
    // The first element that is not valid, by its field, and from 1 as a subscript names it.
    Invalid { field: u16, element: u16 },
}

// The bounds that stand directly before an item: none, one, or two at the least. The last is plain
// where it is a literal that is not negated.
#[derive(Clone, Copy)]
pub enum Seen {
    Nothing,
    One { last: i64, plain: bool },
    Two { first: i64, last: i64, plain: bool },
}

// The number of a breach, in the order of the rules; 0 where none is broken.
pub fn breach_number(b: Breach) -> u8
    ensures { result ≡ breach_number b }
{
    match b {
        Breach::None => 0,
        Breach::BoundNotLiteral => 1,
        Breach::BoundsWrong => 2,
        Breach::LeavesField => 3,
        Breach::OverElements => 4,
        Breach::StopsMidElement => 5,
        Breach::OnDecimal => 6,
    }
}
