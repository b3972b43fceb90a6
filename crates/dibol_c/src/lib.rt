// The public face of Boxlever for C: `dibol` in numbers and slices. A slice is a pointer and a length in C; include/dibol.h has the prototypes.
// A library exports nothing, so the static library `dibol_c_c` exports each of the functions for C.
// Any bytes and any numbers may be given, of any length, and every call answers.
#![tactic(auto)]

ghost use Rattle.std.specs.Prelude.{◌≡◌, [], ◌∷◌, ◌-◌};
ghost use Rattle.rules_unit.specs.Checks.{check_of};
ghost use Rattle.rules_unit.specs.Literals.{stretch_of};
ghost use Rattle.rules_unit.specs.Codes.{rule_of};
ghost use Rattle.rules_fence.specs.Breaches.{breach_number, fence_of, breach_in};
ghost use Rattle.rules_fence.specs.Listed.{breaches_of, Listed, listed};
ghost use Rattle.rules_fence.specs.Validity.{validity_of};
ghost use Rattle.rules_host.specs.Laid.{laid};
ghost use Rattle.rules_host.specs.Words.{Said, said_of, breach_said};
ghost use Rattle.rules_host.specs.Calls.{Told, told, check_told, fence_told, literal_told, entry_of, parts_told, kind_number, strict_number, field_told, start_in, invalid_told, Handed, refusedb, handed_of};

use rules_fence::{Validity, Verdict};
use rules_unit::{Field, Kind, Rule};

// ---- answers

// Puts three numbers at the front of an answer, as many as fit.
fn put_three(answer: &mut [u64], a: u64, b: u64, c: u64)
    ensures { answer.new ≡ laid (a ∷ b ∷ c ∷ []) answer.old }
{
    rules_host::lay(&[a, b, c], answer)
}

// Whether a stop's number is one of 1 to 7, which refuse a call.
fn refuses(stop: u64) -> bool
    ensures { result ≡ refusedb stop }
{
    if stop < 1 {
        return false;
    }
    stop <= 7
}

// The number of a field's kind.
fn kind_number(kind: Kind) -> u64
    ensures { result ≡ kind_number kind }
{
    match kind {
        Kind::Alpha => 0,
        Kind::Decimal => 1,
        Kind::Record => 2,
        Kind::Bad => 3,
    }
}

// 1 for a strict field, else 0.
fn strict_number(rule: Rule) -> u64
    ensures { result ≡ strict_number rule }
{
    match rule {
        Rule::Loose => 0,
        Rule::Strict => 1,
    }
}

// Puts the numbers of a field entry that there is.
fn put_field(answer: &mut [u64], f: Field) -> u64
    ensures { ◌≡◌ {A = Told} (record { value = result; answer = answer.new }) (told 1 (kind_number f.kind ∷ f.offset ∷ f.size ∷ f.count ∷ strict_number (rule_of f) ∷ []) answer.old) }
{
    let kind = f.kind;
    let numbers = [
        kind_number(kind),
        f.offset as u64,
        f.size as u64,
        f.count as u64,
        strict_number(run_spans::rule_of(f)),
    ];
    rules_host::lay(&numbers, answer);
    1
}

// One less, or 0.
fn before(k: u16) -> u64
    ensures { result ≡ k - 1 }
{
    if k == 0 { 0 } else { (k - 1) as u64 }
}

// Where an element, from 1, of a field starts in the data.
fn start_in(entry: Option<Field>, k: u16) -> u64
    ensures { result ≡ start_in entry k }
{
    match entry {
        None => 0,
        Some(f) => f.offset as u64 + before(k) * f.size as u64,
    }
}

// Puts four numbers at the front of an answer, as many as fit.
fn put_four(answer: &mut [u64], a: u64, b: u64, c: u64, d: u64)
    ensures { answer.new ≡ laid (a ∷ b ∷ c ∷ d ∷ []) answer.old }
{
    let numbers = [a, b, c, d];
    rules_host::lay(&numbers, answer);
}

// ---- the functions for C

// Runs a unit over a data buffer, as `dibol::run` does, from the resume state in `state` and for at most `allowance` statements. The
// answer is the stop's number; `answer` is given the stop, the place and the count, as many as fit. `state` has `dibol_state_len` numbers,
// all zero at the start: the statement, the open calls, the 50 return numbers, the open loops, and the entry, the limit and the step of each
// of 16 slots. It is rewritten with the next state. A `state` of another length, or with a number that stands for nothing at its place, is 7,
// after 1 to 6: a statement, a count or an entry is at most 65,535, and a limit or a step is a value, held as C holds a number with a sign in
// one without. After 1 to 7 `bytes` and `state` are as they were.
pub fn dibol_run(
    unit: &[u8],
    bytes: &mut [u8],
    state: &mut [u64],
    allowance: u64,
    answer: &mut [u64],
) -> u64
    ensures { ◌≡◌ {A = Handed} (record { stop = result; bytes = bytes.new; state = state.new; answer = answer.new }) (handed_of unit.now bytes.old state.old allowance answer.old) }
{
    let from = run_state::read_state(state);
    let ended = dibol::run(unit, bytes, from, allowance);
    let stop = ended.stop;
    let number = dibol::stop_number(stop) as u64;
    put_three(answer, number, ended.place as u64, ended.count);
    if refuses(number) {
        return number;
    }
    let next = ended.state;
    run_state::write_state(state, next);
    number
}

// Checks a unit by the rules 1 to 5, as `dibol::check` does. The answer is the stop's number, 0 where the unit passes; `answer` is given
// the stop, the place and D, as many as fit. The place of a unit that passes is 0, and so is the D of one that is refused.
pub fn dibol_check(unit: &[u8], answer: &mut [u64]) -> u64
    ensures { ◌≡◌ {A = Told} (record { value = result; answer = answer.new }) (check_told (check_of unit.now) answer.old) }
{
    let checked = dibol::check(unit);
    match checked {
        Ok(parts) => {
            put_three(answer, 0, 0, parts.d as u64);
            0
        }
        Err(r) => {
            let number = rules_unit::refusal_number(r) as u64;
            put_three(answer, number, rules_unit::refusal_place(r) as u64, 0);
            number
        }
    }
}

// The lengths of a unit's parts. The answer is the stop's number, as of `dibol_check`; `answer` is given D, F, E, P, N and the most digits that a decimal has in the
// unit's dialect, as many as fit, or zeros where the unit is refused.
pub fn dibol_parts(unit: &[u8], answer: &mut [u64]) -> u64
    ensures { ◌≡◌ {A = Told} (record { value = result; answer = answer.new }) (parts_told (check_of unit.now) answer.old) }
{
    let checked = dibol::check(unit);
    match checked {
        Ok(parts) => {
            let digits = parts.dialect.limit as u64;
            let numbers = [
                parts.d as u64,
                parts.f as u64,
                parts.e as u64,
                parts.p as u64,
                parts.n as u64,
                digits,
            ];
            rules_host::lay(&numbers, answer);
            0
        }
        Err(r) => {
            let zeros = [0u64; 6];
            rules_host::lay(&zeros, answer);
            rules_unit::refusal_number(r) as u64
        }
    }
}

// The field entry of a unit by its number, from 0, as `dibol::field` gives it: 1 where there is one, else 0. `answer` is given its kind (0 alpha, 1 decimal, 2
// record), its offset, its size, its count, and 1 where it is strict, as many as fit; zeros where there is none.
pub fn dibol_field(unit: &[u8], i: usize, answer: &mut [u64]) -> u64
    ensures { ◌≡◌ {A = Told} (record { value = result; answer = answer.new }) (field_told (entry_of unit.now i) answer.old) }
{
    match dibol::field(unit, i) {
        None => {
            let zeros = [0u64; 5];
            rules_host::lay(&zeros, answer);
            0
        }
        Some(f) => put_field(answer, f),
    }
}

// Whether the decimals of a data buffer are all valid, as `dibol::invalid`: 0 where they are, 1 to 6 where the unit or the size of the buffer is refused, 22 where one
// is not. `answer` is given that number, the field, the element from 1 and where it starts in the data, as many as fit; the last three are 0 but for 22.
pub fn dibol_invalid(unit: &[u8], bytes: &[u8], answer: &mut [u64]) -> u64
    ensures { ◌≡◌ {A = Told} (record { value = result; answer = answer.new }) (invalid_told unit.now (validity_of unit.now bytes.now) answer.old) }
{
    let validity = dibol::invalid(unit, bytes);
    match validity {
        Validity::Refused(r) => {
            let number = rules_unit::refusal_number(r) as u64;
            put_four(answer, number, 0, 0, 0);
            number
        }
        Validity::WrongSize => {
            put_four(answer, 6, 0, 0, 0);
            6
        }
        Validity::AllValid => {
            put_four(answer, 0, 0, 0, 0);
            0
        }
        Validity::Invalid { field, element } => {
            let start = start_in(dibol::field(unit, field as usize), element);
            put_four(answer, 22, field as u64, element as u64, start);
            22
        }
    }
}

// The fence check, as `dibol::fence`: 0 for yes, 1 for no, 2 for a unit that is refused. `answer` is given two numbers, as many as fit:
// for no the first statement that breaks a rule and the number of its breach, for a refusal the stop and the place, for yes 0 and 0.
pub fn dibol_fence(unit: &[u8], answer: &mut [u64]) -> u64
    ensures { ◌≡◌ {A = Told} (record { value = result; answer = answer.new }) (fence_told unit.now (fence_of unit.now) answer.old) }
{
    let verdict = dibol::fence(unit);
    match verdict {
        Verdict::Yes => {
            run_state::put_two(answer, 0, 0);
            0
        }
        Verdict::No(i) => {
            run_state::put_two(answer, i as u64, dibol_breach(unit, i as usize));
            1
        }
        Verdict::Refused(r) => {
            let number = rules_unit::refusal_number(r) as u64;
            run_state::put_two(answer, number, rules_unit::refusal_place(r) as u64);
            2
        }
    }
}

// The number of the fence rule that a statement breaks first, as `dibol::breach` and `dibol::breach_number` give it; 0 for none.
pub fn dibol_breach(unit: &[u8], statement: usize) -> u64
    ensures { result ≡ breach_number (breach_in unit.now statement) }
{
    dibol::breach_number(dibol::breach(unit, statement)) as u64
}

// How many references of a unit break a fence rule, and rows of eight numbers of those from the number `skip` on, as `dibol::breaches` puts them.
pub fn dibol_breaches(unit: &[u8], skip: usize, rows: &mut [u64]) -> u64
    ensures { ◌≡◌ {A = Listed} (record { count = result; rows = rows.new }) (listed (breaches_of unit.now) skip rows.old) }
{
    dibol::breaches(unit, skip, rows) as u64
}

// The words of a fence rule's number, as `dibol::breach_words` gives them.
pub fn dibol_breach_words(rule: u64, text: &mut [u8]) -> u64
    ensures { ◌≡◌ {A = Said} (record { size = result; text = text.new }) (breach_said rule text.old) }
{
    dibol::breach_words(rule, text) as u64
}

// The length of a statement's alpha literal, 0 where there is none, as `dibol::stretch` finds it. `answer` is given where it starts in
// the unit and its length, as many as fit; both are 0 where there is none.
pub fn dibol_literal(unit: &[u8], statement: usize, answer: &mut [u64]) -> u64
    ensures { ◌≡◌ {A = Told} (record { value = result; answer = answer.new }) (literal_told (stretch_of unit.now statement) answer.old) }
{
    let found = dibol::stretch(unit, statement);
    let len = found.len as u64;
    run_state::put_two(answer, found.at as u64, len);
    len
}

// The words of a stop's number, as `dibol::words` gives them: the answer is their whole length, and as many of their bytes as fit are
// written at the front of `text`. No zero byte is put behind them.
pub fn dibol_words(stop: u64, text: &mut [u8]) -> u64
    ensures { ◌≡◌ {A = Said} (record { size = result; text = text.new }) (said_of stop text.old) }
{
    dibol::words(stop, text) as u64
}

// The version, ten thousand for its first number, a hundred for its second and one for its third: 400 is 0.4.0.
pub fn dibol_version() -> u64
    ensures { result ≡ 400 }
{
    400
}

// How many numbers a resume state has.
pub fn dibol_state_len() -> u64
    ensures { result ≡ 104 }
{
    104
}
