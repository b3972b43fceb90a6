// What one item of an expression comes to: a literal's number, a reference read or found, an operator's result. What a passed check never lets arise is
// tested again and answered Malformed.
#![tactic(auto)]

ghost use Rattle.std.specs.Prelude.{◌≡◌, true, false, cond, ◌+◌, ◌^◌, ◌<◌, ◌≤◌, ltb, eqb, pos, length, get_or, take, drop, Err, Ok};
ghost use Rattle.unit_decode.specs.Units.{code_in};
ghost use Rattle.rules.specs.declared.Fault.TheVariants as fault;
ghost use Rattle.rules.specs.Tests.{◌and◌};
ghost use Rattle.rules.specs.Values.{Val, Top, read_of};
ghost use Rattle.rules_unit.specs.declared.Form.TheVariants as form;
ghost use Rattle.rules_unit.specs.Decode.{SoundDialect};
ghost use Rattle.rules_unit.specs.Expressions.{form_takes, textb};
ghost use Rattle.rules_run.specs.declared.Worked.TheVariants as worked;
ghost use Rattle.rules_run.specs.Evaluation.{calc, literal_number, reference, place_by};
ghost use Rattle.run_items.specs.Digits.{plain_from};

use rules::Fault;
use rules_run::Worked;
use rules_unit::{Form, Op, Parts};
use unit_decode::Coded;

// The number that plain digits make; Malformed where a character is none.
fn plain_number(s: &[u8]) -> Result<i64, Fault>
    requires { length s.now ≤ 18 }
    ensures { result ≡ plain_from 0 s.now }
{
    let mut acc: u64 = 0;
    for byte in s {
        let b = number::of_byte(*byte);
        if b < 48 || 57 < b {
            return Err(Fault::Malformed);
        }
        acc = acc * 10 + (b - 48);
    }
    Ok(number::with_sign(false, acc))
}

// A number literal's value.
pub fn literal_number(coded: &Coded, place: u16, len: u16) -> Result<i64, Fault>
    requires { SoundDialect coded.now.parts.dialect }
    ensures { result ≡ literal_number (code_in coded.now) place len }
{
    if len < 1 || coded.parts.dialect.limit < len {
        return Err(Fault::Malformed);
    }
    let start = unit_decode::long(place);
    let end = start + unit_decode::long(len);
    let literals = coded.literals();
    if literals.len() < end {
        return Err(Fault::Malformed);
    }
    plain_number(&literals[start..end])
}

// The number at len bytes of the data: the part that starts at the span's place is handed to the digit reader.
pub fn read_at(parts: Parts, bytes: &[u8], start: usize, len: usize) -> Result<i64, Fault>
    requires sound_dialect { SoundDialect parts.dialect }
    requires len_in_bounds { start + len ≤ length bytes.now }
    ensures { result ≡ read_of parts.dialect.limit parts.dialect.sign (take len (drop start bytes.now)) }
{
    let end = start + len;
    text::read(
        unit_decode::long(parts.dialect.limit),
        number::of_byte(parts.dialect.sign),
        &bytes[start..end],
    )
}

// A reference that is not last: found, and read where it stands.
pub fn read_reference(
    coded: &Coded,
    bytes: &[u8],
    form: Form,
    field: u16,
    x: i64,
    y: i64,
) -> Result<i64, Fault>
    requires sound_dialect { SoundDialect coded.now.parts.dialect }
    requires bytes_len_bound { length bytes.now < 65536 }
    requires val { Val (10 ^ 18) x }
    requires val_2 { Val (10 ^ 18) y }
    ensures { result ≡ reference (code_in coded.now) bytes.now form field x y }
{
    if coded.parts.f <= field {
        return Err(Fault::Malformed);
    }
    let entry = coded.field(field);
    if !unit_decode::is_decimal(entry.kind) {
        return Err(Fault::Malformed);
    }
    let rule = run_spans::rule_of(entry);
    match run_spans::span_by(rule, bytes.len(), entry, form, x, y) {
        Some(span) => read_at(coded.parts, bytes, span.start, span.len),
        None => Err(Fault::Outside),
    }
}

// A reference without bounds that is not last.
pub fn read_first(coded: &Coded, bytes: &[u8], field: u16) -> Result<i64, Fault>
    requires { SoundDialect coded.now.parts.dialect }
    ensures { result ≡ reference (code_in coded.now) bytes.now form.First field (pos 0) (pos 0) }
{
    if coded.parts.f <= field {
        return Err(Fault::Malformed);
    }
    let entry = coded.field(field);
    if !unit_decode::is_decimal(entry.kind) {
        return Err(Fault::Malformed);
    }
    match run_spans::first_span(bytes.len(), entry) {
        Some(span) => read_at(coded.parts, bytes, span.start, span.len),
        None => Err(Fault::Outside),
    }
}

// An operator on two values; negate and NOT take the first alone.
pub fn calculate(top: u64, op: Op, x: i64, y: i64) -> Result<i64, Fault>
    requires top { Top top }
    requires val { Val (10 ^ 18) x }
    requires val_2 { Val (10 ^ 18) y }
    ensures { result ≡ calc top op x y }
{
    match op {
        Op::Add => number::add(top, x, y),
        Op::Subtract => number::subtract(top, x, y),
        Op::Multiply => number::multiply(top, x, y),
        Op::Divide => number::divide(x, y),
        Op::Round => number::round(x, y),
        Op::Negate => Ok(number::negate(x)),
        Op::Eq => Ok(number::equal(x, y)),
        Op::Ne => Ok(number::differ(x, y)),
        Op::Gt => Ok(number::greater(x, y)),
        Op::Lt => Ok(number::less(x, y)),
        Op::Ge => Ok(number::at_least(x, y)),
        Op::Le => Ok(number::at_most(x, y)),
        Op::Not => Ok(number::not_of(x)),
        Op::And => Ok(number::and_of(x, y)),
        Op::Or => Ok(number::or_of(x, y)),
        Op::Xor => Ok(number::xor_of(x, y)),
    }
}

// The place of a span that was found.
fn place_at(most: usize, decimal: bool, start: usize, len: usize) -> Result<Worked, Fault>
    ensures { result ≡ cond decimal (cond (ltb most len) (Err fault.TooLong) (Ok (worked.Place true start len))) (Ok (worked.Place false start len)) }
{
    if decimal && most < len {
        return Err(Fault::TooLong);
    }
    Ok(Worked::Place {
        decimal,
        start,
        len,
    })
}

// A last reference: found, and not read. A decimal span over the digit limit is 20 all the same.
fn place_by(
    coded: &Coded,
    bytes: &[u8],
    form: Form,
    field: u16,
    x: i64,
    y: i64,
) -> Result<Worked, Fault>
    requires bytes_len_bound { length bytes.now < 65536 }
    requires val { Val (10 ^ 18) x }
    requires val_2 { Val (10 ^ 18) y }
    ensures { result ≡ place_by (code_in coded.now) bytes.now form field x y }
{
    if coded.parts.f <= field {
        return Err(Fault::Malformed);
    }
    let entry = coded.field(field);
    let decimal = unit_decode::is_decimal(entry.kind);
    let most = unit_decode::long(coded.parts.dialect.limit);
    let rule = run_spans::rule_of(entry);
    match run_spans::span_by(rule, bytes.len(), entry, form, x, y) {
        Some(span) => place_at(most, decimal, span.start, span.len),
        None => Err(Fault::Outside),
    }
}

// A last reference without bounds.
pub fn place_first(coded: &Coded, bytes: &[u8], field: u16) -> Result<Worked, Fault>
    ensures { result ≡ place_by (code_in coded.now) bytes.now form.First field (pos 0) (pos 0) }
{
    if coded.parts.f <= field {
        return Err(Fault::Malformed);
    }
    let entry = coded.field(field);
    let decimal = unit_decode::is_decimal(entry.kind);
    let most = unit_decode::long(coded.parts.dialect.limit);
    match run_spans::first_span(bytes.len(), entry) {
        Some(span) => place_at(most, decimal, span.start, span.len),
        None => Err(Fault::Outside),
    }
}

// A last reference takes all n values that are held as its bounds: x, which was held first, and y.
pub fn place_of(
    coded: &Coded,
    bytes: &[u8],
    form: Form,
    field: u16,
    n: usize,
    x: i64,
    y: i64,
) -> Result<Worked, Fault>
    requires bytes_len_bound { length bytes.now < 65536 }
    requires val { Val (10 ^ 18) x }
    requires val_2 { Val (10 ^ 18) y }
    ensures { result ≡ cond (eqb n (form_takes form)) (place_by (code_in coded.now) bytes.now form field x y) (Err fault.Malformed) }
{
    if n != unit_decode::long(unit_decode::form_takes(form)) {
        return Err(Fault::Malformed);
    }
    place_by(coded, bytes, form, field, x, y)
}

// A last alpha literal, which stands alone: no values are held.
pub fn text_by(coded: &Coded, place: u16, len: u16, n: usize) -> Result<Worked, Fault>
    ensures { result ≡ cond (eqb n 0) (cond (textb (code_in coded.now) place len) (Ok (worked.Text place len)) (Err fault.Malformed)) (Err fault.Malformed) }
{
    if n != 0 || !unit_sorts::text_good(coded, place, len) {
        return Err(Fault::Malformed);
    }
    Ok(Worked::Text { place, len })
}

// Whether the expression ends at an offset: 00 stands there.
pub fn ends(es: &[u8], at: usize) -> bool
    ensures { result ≡ (ltb at (length es.now) and eqb (get_or es.now at 0) 0) }
{
    at < es.len() && es[at] == 0
}
