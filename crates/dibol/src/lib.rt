// The public face of Boxlever. A host lends a coded unit and a data buffer as slices of bytes; any bytes may be given, and every call answers.
#![tactic(auto)]

ghost use Rattle.std.specs.Prelude.{◌≡◌, Ok};
ghost use Rattle.rules_unit.specs.Checks.{refusal_number, refusal_place, check_of};
ghost use Rattle.rules_unit.specs.Literals.{stretch_of, literal_of};
ghost use Rattle.rules_run.specs.States.{started};
ghost use Rattle.rules_run.specs.Stops.{stop_number};
ghost use Rattle.rules_run.specs.Runs.{Ran, run_of};
ghost use Rattle.rules_fence.specs.Breaches.{breach_number, fence_of, breach_in};
ghost use Rattle.rules_fence.specs.Listed.{breaches_of, broken_in, Listed, listed};
ghost use Rattle.rules_fence.specs.Validity.{validity_of};
ghost use Rattle.rules_host.specs.Words.{Said, said_of, breach_said};
ghost use Rattle.rules_host.specs.Calls.{entry_by, entry_of};

use rules_fence::{Breach, Validity, Verdict};
use rules_run::{Outcome, State, Stop, Trap};
use rules_unit::{Field, Parts, Refusal, Stretch};
use unit_decode::Coded;

// Checks a unit by the rules 1 to 5 of document 01, in their order. The answer is Ok with the lengths of the unit's parts,
// or Err with the first rule that does not hold and its place: `refusal_number` and `refusal_place` give both as numbers.
// A unit that passes can be run; nothing else about it needs to be checked by the host.
pub fn check(unit: &[u8]) -> Result<Parts, Refusal>
    ensures { result ≡ check_of unit.now }
{
    unit_check::check(unit)
}

// Document 01's number for a refusal: 1 to 5.
pub fn refusal_number(r: Refusal) -> u8
    ensures { result ≡ refusal_number r }
{
    rules_unit::refusal_number(r)
}

// The place that a refusal names: the field entry or the statement that is refused, counted from 0, and 0 for the unit as a whole.
pub fn refusal_place(r: Refusal) -> u16
    ensures { result ≡ refusal_place r }
{
    rules_unit::refusal_place(r)
}

// The field entry of a unit by its number, from 0; none where the unit does not pass its check, or has no such entry.
pub fn field(unit: &[u8], i: usize) -> Option<Field>
    ensures { result ≡ entry_of unit.now i }
{
    let checked = unit_check::check(unit);
    match checked {
        Ok(parts) => field_by(
            &Coded {
                unit,
                parts,
                tail: unit_decode::tail_of(unit, parts),
            },
            i,
        ),
        Err(_) => None,
    }
}

// The same of a unit that passed its check.
fn field_by(coded: &Coded, i: usize) -> Option<Field>
    ensures { result ≡ entry_by coded.now.unit.now i (Ok coded.now.parts) }
{
    if unit_decode::long(coded.parts.f) <= i {
        return None;
    }
    Some(coded.field(i as u16))
}

// Checks a unit, and then holds each of its statements to the fence rules of document 01. The answer is Refused with what `check` refuses
// the unit for, Yes where every statement keeps the rules, or No with the first statement that breaks one, counted from 0; `breach` tells
// which rule that is, and `breaches` tells all references that break one. A run of a unit with a yes, over data whose decimal fields are all valid (`invalid` tells) and from a sound state, never ends in 21, ends
// in 22 only at a SET of a decimal place from alpha text, leaves every decimal field valid, and changes no byte but those of the unit's
// destinations. A unit with a no can still be run.
pub fn fence(unit: &[u8]) -> Verdict
    ensures { result ≡ fence_of unit.now }
{
    fence::fence(unit)
}

// The fence rule that the statement i, counted from 0, breaks first, its expressions being read in the order in which a run works them
// out and each from left to right. The answer is None where it breaks no rule, where the unit does not pass its check, and where i is
// past the last statement; so a host asks `fence` first, and this for the reason of a no.
pub fn breach(unit: &[u8], i: usize) -> Breach
    ensures { result ≡ breach_in unit.now i }
{
    fence::breach(unit, i)
}

// The number of a breach, in the order of the fence rules: 0 where none is broken, 1 to 6 otherwise.
pub fn breach_number(b: Breach) -> u8
    ensures { result ≡ breach_number b }
{
    rules_fence::breach_number(b)
}

// Every reference of a unit that breaks a fence rule, its statements in order, their expressions in the order in which a run works them out and each from
// left to right. The answer is how many there are: 0 for a yes, and for a unit that does not pass its check. Those from the number `skip` on, counted from 0, are
// put at the front of `rows`, as many whole rows as fit, and the rest of it stays as it was. A row has eight numbers: the statement; the first rule that
// this reference breaks; 1 where it names a destination, and 0 where it is read; its field; its form, 2 to 5; where the bytes start that it names and how many
// they are, both 0 for the rules 1 and 2; and the reference's offset in the expressions.
pub fn breaches(unit: &[u8], skip: usize, rows: &mut [u64]) -> usize
    ensures { ◌≡◌ {A = Listed} (record { count = result; rows = rows.new }) (listed (breaches_of unit.now) skip rows.old) }
{
    fence_list::breaches(unit, skip, rows)
}

// The same of the statement i alone, counted from 0. The answer is 0 where i is past the last statement, too.
pub fn statement_breaches(unit: &[u8], i: usize, skip: usize, rows: &mut [u64]) -> usize
    ensures { ◌≡◌ {A = Listed} (record { count = result; rows = rows.new }) (listed (broken_in unit.now i) skip rows.old) }
{
    fence_list::statement_breaches(unit, i, skip, rows)
}

// The words of a fence rule's number, put into `text` as `words` puts those of a stop: what breaks the rule. Only 1 to 6 have words.
pub fn breach_words(rule: u64, text: &mut [u8]) -> usize
    ensures { ◌≡◌ {A = Said} (record { size = result; text = text.new }) (breach_said rule text.old) }
{
    stop_words::breach_words(rule, text)
}

// Whether the decimal fields of a data buffer are all valid, which a yes of `fence` is about. The answer is Refused with what `check` refuses the unit for,
// WrongSize where the buffer has not the unit's D bytes, AllValid, or Invalid with the first element that is no valid decimal of the unit's dialect: by field, and
// in a field by element, which is counted from 1 as a subscript is. Alpha and record entries are not looked at.
pub fn invalid(unit: &[u8], bytes: &[u8]) -> Validity
    ensures { result ≡ validity_of unit.now bytes.now }
{
    fence_data::invalid(unit, bytes)
}

// The alpha literal of the statement i, counted from 0: the bytes of the unit itself that hold it, not a copy. It is empty unless the
// unit passes its check and the statement is a SET whose source is an alpha literal and nothing more; an i past the last statement
// gives an empty answer too. A literal has at least one byte, so an empty answer always means that there is none.
pub fn literal(unit: &[u8], i: usize) -> &[u8]
    ensures { result.now ≡ literal_of unit.now i }
{
    unit_literal::literal(unit, i)
}

// Where `literal` of the statement i starts in the unit, and its length; both are 0 where there is none.
pub fn stretch(unit: &[u8], i: usize) -> Stretch
    ensures { result ≡ stretch_of unit.now i }
{
    unit_literal::stretch(unit, i)
}

// The resume state of a run that has not begun: the first statement, no call and no loop open, no handler and no last error.
pub fn start() -> State
    ensures { result ≡ started }
{
    let none = rules_run::no_loop();
    State {
        at: 0,
        depth: 0,
        returns: [0u16; 50],
        opened: 0,
        loops: [none; 16],
        trap: Trap {
            handler: None,
            caught: None,
        },
    }
}

// Runs a unit over a data buffer, from a resume state and for at most `allowance` statements. The unit is checked first (1 to 5); then
// the buffer must have the unit's D bytes (6) and the state must be sound for the unit (7). Where a check fails, no byte and no state
// is changed, and the count is 0. The outcome says why the call ended and at which place (`stop_number` gives the papers' number),
// how many statements this call completed, and the state to go on from. A statement that ends in a run error has changed nothing: the
// state stands at it. An error that a handler traps ends no call: the state keeps its number and its statement. Where the allowance is spent before the end, a further call with the state handed back and the same buffer goes
// on as if there had been no stop.
pub fn run(unit: &[u8], bytes: &mut [u8], state: State, allowance: u64) -> Outcome
    ensures { ◌≡◌ {A = Ran} (record { outcome = result; bytes = bytes.new }) (run_of unit.now bytes.old state allowance) }
{
    let checked = unit_check::check(unit);
    match checked {
        Err(r) => refused(Stop::Refused(r), rules_unit::refusal_place(r), state),
        Ok(parts) => {
            if bytes.len() != parts.d as usize {
                return refused(Stop::WrongSize, 0, state);
            }
            let coded = Coded {
                unit,
                parts,
                tail: unit_decode::tail_of(unit, parts),
            };
            if !run_state::sound(&coded, state) {
                return refused(Stop::Unsound, 0, state);
            }
            run_loop::turns(&coded, bytes, state, allowance)
        }
    }
}

// A call that a check refuses.
fn refused(stop: Stop, place: u16, state: State) -> Outcome
    ensures { result ≡ record { stop = stop; place = place; count = 0; state = state } }
{
    Outcome {
        stop: stop,
        place: place,
        count: 0,
        state: state,
    }
}

// The papers' number for the reason why a call ended: 0 for the end, 1 to 7 for a refusal, 20 to 29 for a run error, 30 for an
// allowance that was spent before the end.
pub fn stop_number(s: Stop) -> u8
    ensures { result ≡ stop_number s }
{
    rules_run::stop_number(s)
}

// The words of a stop's number, for people. The answer is their whole length, also where `text` is shorter; as many of their bytes as fit
// are written at the front of `text`, and the rest of it stays as it was. A number that is no stop has no words: the answer is 0.
pub fn words(stop: u64, text: &mut [u8]) -> usize
    ensures { ◌≡◌ {A = Said} (record { size = result; text = text.new }) (said_of stop text.old) }
{
    stop_words::words(stop, text)
}
