// Expressions, worked out over the data. What a passed check never lets arise is tested again and answered Malformed.
#![tactic(auto)]

ghost use Rattle.std.specs.Prelude.{◌≡◌, ◌<◌, length, Err};
ghost use Rattle.unit_decode.specs.Units.{code_in};
ghost use Rattle.rules.specs.declared.Fault.TheVariants as fault;
ghost use Rattle.rules_unit.specs.declared.Form.TheVariants as form;
ghost use Rattle.rules_unit.specs.declared.Item.TheVariants as item;
ghost use Rattle.rules_unit.specs.Decode.{SoundDialect, reference_at, number_at, text_at, item_by, item_at, items_at, code_of};
ghost use Rattle.rules_run.specs.Evaluation.{worked_of, number_of, Within, value_at};
ghost use Rattle.run_evaluate.specs.declared.Step.TheVariants as step;
ghost use Rattle.run_evaluate.specs.Steps.{held_on, form_of, loneb, Ready, Leads};

use rules::Fault;
use rules_run::Worked;
use rules_unit::{Form, Item, Op, Parts};
use unit_decode::Coded;

// ---- one item

// At most 16 values are held at once.
const MOST: usize = 16;

// What an item comes to: a value, held on top of the first of those that are kept, and the offset of the item after it; or what the expression comes to.
#[derive(Clone, Copy)]
pub enum Step {
    Hold {
        kept: usize,
        next: usize,
        value: i64,
    },
    Done(Result<Worked, Fault>),
}

// What a passed check never lets arise.
fn malformed() -> Step
    ensures { result ≡ step.Done (Err fault.Malformed) }
{
    Step::Done(Err(Fault::Malformed))
}

// A value that an item makes is held; its fault is the expression's.
fn held_on(kept: usize, next: usize, v: Result<i64, Fault>) -> Step
    ensures { result ≡ held_on kept next v }
{
    match v {
        Ok(value) => Step::Hold {
            kept: kept,
            next: next,
            value: value,
        },
        Err(e) => Step::Done(Err(e)),
    }
}

// The steps below are lent the same, since their contract is one: what an item has no use for is named for the contract alone.

// 00: one value is left.
fn end_step(coded: &Coded, bytes: &[u8], es: &[u8], i: usize, n: usize, held: &[i64; 17]) -> Step
    requires ready { Ready coded.now bytes.now es.now i held.now }
    requires i_value { item_at es.now i ≡ item.End }
    ensures { Leads (code_in coded.now) bytes.now es.now i n held.now result }
{
    if n == 1 {
        let only = held[0];
        return Step::Done(Ok(Worked::Number(only)));
    }
    malformed()
}

// A number literal.
fn number_step(coded: &Coded, bytes: &[u8], es: &[u8], i: usize, n: usize, held: &[i64; 17]) -> Step
    requires ready { Ready coded.now bytes.now es.now i held.now }
    requires i_value { item_at es.now i ≡ number_at es.now i }
    ensures { Leads (code_in coded.now) bytes.now es.now i n held.now result }
{
    if es.len() - i <= 3 {
        return malformed();
    }
    if MOST <= n {
        return malformed();
    }
    let place = unit_decode::word(es, i + 1);
    let len = unit_decode::wide(es[i + 3]);
    held_on(n, i + 4, run_items::literal_number(coded, place, len))
}

// A reference without bounds, a step of its own since most references are such.
fn field_step(coded: &Coded, bytes: &[u8], es: &[u8], i: usize, n: usize, held: &[i64; 17]) -> Step
    requires ready { Ready coded.now bytes.now es.now i held.now }
    requires i_value { item_at es.now i ≡ reference_at es.now i form.First }
    ensures { Leads (code_in coded.now) bytes.now es.now i n held.now result }
{
    if es.len() - i <= 2 {
        return malformed();
    }
    let field = unit_decode::word(es, i + 1);
    if run_items::ends(es, i + 3) {
        if n == 0 {
            return Step::Done(run_items::place_first(coded, bytes, field));
        }
        return malformed();
    }
    if MOST <= n {
        return malformed();
    }
    held_on(n, i + 3, run_items::read_first(coded, bytes, field))
}

// A reference: a place where it is last, and read where it is not.
fn reference_step(
    coded: &Coded,
    bytes: &[u8],
    es: &[u8],
    i: usize,
    n: usize,
    held: &[i64; 17],
    form: Form,
) -> Step
    requires ready { Ready coded.now bytes.now es.now i held.now }
    requires i_value { item_at es.now i ≡ reference_at es.now i form }
    ensures { Leads (code_in coded.now) bytes.now es.now i n held.now result }
{
    if es.len() - i <= 2 {
        return malformed();
    }
    let field = unit_decode::word(es, i + 1);
    if run_items::ends(es, i + 3) {
        let x = held[0];
        let y = held[1];
        return Step::Done(run_items::place_of(coded, bytes, form, field, n, x, y));
    }
    let taken = unit_decode::long(unit_decode::form_takes(form));
    if n < taken {
        return malformed();
    }
    let m = n - taken;
    if MOST <= m {
        return malformed();
    }
    let x = held[m];
    let y = held[m + 1];
    held_on(
        m,
        i + 3,
        run_items::read_reference(coded, bytes, form, field, x, y),
    )
}

// An alpha literal, which stands only last.
fn text_step(coded: &Coded, bytes: &[u8], es: &[u8], i: usize, n: usize, held: &[i64; 17]) -> Step
    requires ready { Ready coded.now bytes.now es.now i held.now }
    requires i_value { item_at es.now i ≡ text_at es.now i }
    ensures { Leads (code_in coded.now) bytes.now es.now i n held.now result }
{
    if es.len() - i <= 4 {
        return malformed();
    }
    if run_items::ends(es, i + 5) {
        let place = unit_decode::word(es, i + 1);
        let len = unit_decode::word(es, i + 3);
        return Step::Done(run_items::text_by(coded, place, len, n));
    }
    malformed()
}

// An operator.
fn operator_step(
    coded: &Coded,
    bytes: &[u8],
    es: &[u8],
    i: usize,
    n: usize,
    held: &[i64; 17],
    op: Op,
) -> Step
    requires ready { Ready coded.now bytes.now es.now i held.now }
    requires i_value { item_at es.now i ≡ item.Operator op }
    ensures { Leads (code_in coded.now) bytes.now es.now i n held.now result }
{
    let taken = unit_decode::long(unit_decode::op_takes(op));
    if n < taken {
        return malformed();
    }
    let m = n - taken;
    if MOST <= m {
        return malformed();
    }
    let x = held[m];
    let y = held[m + 1];
    held_on(
        m,
        i + 1,
        run_items::calculate(coded.parts.dialect.top, op, x, y),
    )
}

// The bounds of a reference by its code, 03 to 05.
fn form_of(code: u8) -> Form
    ensures { result ≡ form_of code }
{
    match code {
        0x03 => Form::Subscript,
        0x04 => Form::StartEnd,
        _ => Form::PosLength,
    }
}

// A reference with bounds, an operator, or a code that is none.
fn other_step(
    coded: &Coded,
    bytes: &[u8],
    es: &[u8],
    i: usize,
    n: usize,
    held: &[i64; 17],
    code: u8,
) -> Step
    requires ready { Ready coded.now bytes.now es.now i held.now }
    requires i_value { item_at es.now i ≡ item_by es.now i code }
    requires lt_code { (2 < code) × (code ≡ 6 → ⊥) }
    ensures { Leads (code_in coded.now) bytes.now es.now i n held.now result }
{
    if code < 6 {
        return reference_step(coded, bytes, es, i, n, held, form_of(code));
    }
    let item = unit_decode::operator_at(es, i, code);
    if let Item::Operator(op) = item {
        return operator_step(coded, bytes, es, i, n, held, op);
    }
    malformed()
}

// The item at the offset i, with n values held: its code is looked at once.
fn item_step(coded: &Coded, bytes: &[u8], es: &[u8], i: usize, n: usize, held: &[i64; 17]) -> Step
    requires { Ready coded.now bytes.now es.now i held.now }
    ensures { Leads (code_in coded.now) bytes.now es.now i n held.now result }
{
    let code = es[i];
    match code {
        0x00 => end_step(coded, bytes, es, i, n, held),
        0x01 => number_step(coded, bytes, es, i, n, held),
        0x02 => field_step(coded, bytes, es, i, n, held),
        0x06 => text_step(coded, bytes, es, i, n, held),
        _ => other_step(coded, bytes, es, i, n, held, code),
    }
}

// What the expression at an offset of the expressions es comes to.
fn worked_in(coded: &Coded, bytes: &[u8], es: &[u8], at: usize) -> Result<Worked, Fault>
    requires sound_dialect { SoundDialect coded.now.parts.dialect }
    requires bytes_len_bound { length bytes.now < 65536 }
    ensures { result ≡ worked_of (code_in coded.now) bytes.now (items_at es.now at) }
{
    // One more than is ever held, so that the second value of a pair has a place to be read from.
    let mut held = [0i64; 17];
    let mut n: usize = 0;
    let mut i = at;
    while i < es.len() {
        match item_step(coded, bytes, es, i, n, &held) {
            Step::Hold { kept, next, value } => {
                held[kept] = value;
                n = kept + 1;
                i = next;
            }
            Step::Done(w) => return w,
        }
    }
    Err(Fault::Malformed)
}

// What the expression at an offset comes to.
pub fn worked(coded: &Coded, bytes: &[u8], e: u16) -> Result<Worked, Fault>
    requires sound_dialect { SoundDialect coded.now.parts.dialect }
    requires bytes_len_bound { length bytes.now < 65536 }
    ensures { result ≡ worked_of (code_in coded.now) bytes.now ((code_in coded.now).items e) }
{
    worked_in(coded, bytes, coded.expressions(), unit_decode::long(e))
}

// Whether an expression is a reference without bounds alone.
fn lone(es: &[u8], at: usize) -> bool
    ensures { result ≡ loneb es.now at }
{
    if es.len() <= at {
        return false;
    }
    if es[at] == 2 {
        return run_items::ends(es, at + 3);
    }
    false
}

// What the expression of a place comes to. Most places are a field alone, which takes no loop.
pub fn place(coded: &Coded, bytes: &[u8], e: u16) -> Result<Worked, Fault>
    requires sound_dialect { SoundDialect coded.now.parts.dialect }
    requires bytes_len_bound { length bytes.now < 65536 }
    ensures { result ≡ worked_of (code_in coded.now) bytes.now ((code_in coded.now).items e) }
{
    let es = coded.expressions();
    let at = unit_decode::long(e);
    if lone(es, at) {
        let field = unit_decode::word(es, at + 1);
        return run_items::place_first(coded, bytes, field);
    }
    worked(coded, bytes, e)
}

// The number that an expression comes to: a decimal place is read. The unit is named for the contract alone. No `Coded` stands here, since it would ask that the
// parts fill the unit, and the function asks no such thing.
pub fn number_of(
    unit: &[u8],
    parts: Parts,
    bytes: &[u8],
    w: Result<Worked, Fault>,
) -> Result<i64, Fault>
    requires sound_dialect { SoundDialect parts.dialect }
    requires within { Within (code_of unit.now parts) (length bytes.now) w }
    ensures { result ≡ number_of (code_of unit.now parts) bytes.now w }
{
    match w? {
        Worked::Number(v) => Ok(v),
        Worked::Place {
            decimal,
            start,
            len,
        } => {
            if decimal {
                return run_items::read_at(parts, bytes, start, len);
            }
            Err(Fault::Malformed)
        }
        Worked::Text { place: _, len: _ } => Err(Fault::Malformed),
    }
}

// The number that the expression at an offset comes to. Those who work out one number among several call it, so that the compiler leaves it out of the
// loop of the run; the jumps on a number, which are worked out more often, have their own.
pub fn value_at(coded: &Coded, bytes: &[u8], e: u16) -> Result<i64, Fault>
    requires sound_dialect { SoundDialect coded.now.parts.dialect }
    requires bytes_len_bound { length bytes.now < 65536 }
    ensures { result ≡ value_at (code_in coded.now) bytes.now e }
{
    let w = worked(coded, bytes, e);
    number_of(coded.unit, coded.parts, bytes, w)
}
