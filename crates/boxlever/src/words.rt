// Stops and breaches in words, each one sentence without its full stop; and the exit statuses.
use crate::breaches::FenceRule;
use crate::lines::{Line, part};
use rules_fence::Breach;
use rules_unit::Refusal;
use std::process::ExitCode;

// The exit statuses, as tools/boxlever has them: the answer is no or the run has stopped, and so on. A later one is worse.
#[derive(Clone, Copy)]
pub enum Status {
    Good,
    Stopped,
    Refused,
    Failed,
}

impl From<Status> for ExitCode {
    fn from(status: Status) -> ExitCode {
        ExitCode::from(status as u8)
    }
}

// The room of the words of a stop or a rule, of which the longest take less.
const WORDS: usize = 100;

// The words of a stop's number.
fn stop_words(number: u8, space: &mut [u8; WORDS]) -> &[u8] {
    let n = dibol::words(number as u64, space);
    part(space, 0, n)
}

// Puts the words of a stop's number.
pub fn put_stop(l: &mut Line, number: u8) {
    l.text(stop_words(number, &mut [0; WORDS]));
}

// Puts words that stand inside a line: they begin with a small letter.
fn put_inside(l: &mut Line, words: &[u8]) {
    if let Some((first, rest)) = words.split_first() {
        l.byte(first.to_ascii_lowercase());
        l.text(rest);
    }
}

// Puts why a unit is refused, inside a line.
pub fn put_refusal(l: &mut Line, r: Refusal) {
    put_inside(l, stop_words(dibol::refusal_number(r), &mut [0; WORDS]));
}

// Puts what a refusal's place is the number of, if it names one.
pub fn put_place(l: &mut Line, r: Refusal) {
    match r {
        Refusal::NotFilled | Refusal::BadRange => {}
        Refusal::BadField(i) => write!(l, " at field {i}"),
        Refusal::BadExpression(i) | Refusal::BadStatement(i) => write!(l, " at statement {i}"),
    }
}

// Puts a refusal with its number and place.
pub fn put_refused(l: &mut Line, r: Refusal) {
    let number = dibol::refusal_number(r);
    let place = dibol::refusal_place(r);
    write!(l, "refused {number} at {place}: ");
    put_refusal(l, r);
}

// Puts the words of a fence rule's number, inside a line.
fn put_broken(l: &mut Line, number: u8) {
    let mut space = [0; WORDS];
    let n = dibol::breach_words(number as u64, &mut space);
    put_inside(l, part(&space, 0, n));
}

// Puts the fence rule that a statement breaks.
pub fn put_breach(l: &mut Line, b: Breach) {
    put_broken(l, dibol::breach_number(b));
}

// Puts the number of a fence rule, and its words.
pub fn put_rule(l: &mut Line, rule: FenceRule) {
    let number = rule as u8;
    write!(l, "rule {number}, ");
    put_broken(l, number);
}

// Puts how a breach of a fence rule is mended.
pub fn put_mend(l: &mut Line, rule: FenceRule) {
    l.text(b"mend: ");
    l.text(match rule {
        FenceRule::BoundNotLiteral => {
            b"write the number: one statement for each element, reached by a computed GOTO or in a row"
        }
        FenceRule::BoundsWrong => b"correct the bounds: a run gives 21 here",
        FenceRule::LeavesField => {
            b"correct the bounds, or name the bytes by the fields that they are in, or by a record over both"
        }
        FenceRule::OverElements => b"name one element, as X(2), or a part of one",
        FenceRule::StopsMidElement => {
            b"store the whole amount in one statement, or end at the element's last character"
        }
        FenceRule::OnDecimal => {
            b"name the alpha fields one by one, or a record that has no decimal in it"
        }
    });
}
