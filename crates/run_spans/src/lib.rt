// Finding the bytes that a reference names.
#![tactic(auto)]

ghost use Rattle.std.specs.Prelude.{◌≡◌, ◌+◌, ◌*◌, ◌^◌, ◌<◌, ◌≤◌, pos, ◌-ℤ◌};
ghost use Rattle.rules.specs.Values.{Val};
ghost use Rattle.rules_unit.specs.declared.Rule.TheVariants as rule;
ghost use Rattle.rules_unit.specs.declared.Form.TheVariants as form;
ghost use Rattle.rules_unit.specs.Codes.{rule_of};
ghost use Rattle.rules_run.specs.Spans.{within, subscript_span, start_end_span, pos_length_span, span_of, held_to, span_by, span_at};

use rules_run::Span;
use rules_unit::{Field, Form, Rule};

// The n bytes from a, where they lie inside size bytes, and None otherwise.
fn inside(size: usize, a: usize, n: usize) -> Option<Span>
    ensures { result ≡ within size (pos a) n }
{
    if size < a || size - a < n {
        return None;
    }
    Some(Span { start: a, len: n })
}

// The element k + 1, of n bytes. A large k is told before it is multiplied.
fn forward(size: usize, offset: usize, n: usize, k: usize) -> Option<Span>
    requires { (size < 65536) × (offset < 65536) × (1 ≤ n) × (n < 65536) }
    ensures { result ≡ within size (pos (offset + k * n)) n }
{
    if size < k {
        return None;
    }
    inside(size, offset + k * n, n)
}

// The element of n bytes that starts k elements before the field. A large k is told before it is multiplied.
fn backward(size: usize, offset: usize, n: usize, k: usize) -> Option<Span>
    requires { (offset < 65536) × (1 ≤ n) × (n < 65536) }
    ensures { result ≡ within size (pos offset -ℤ pos (k * n)) n }
{
    if offset < k {
        return None;
    }
    inside(size, offset.checked_sub(k * n)?, n)
}

// The element s, of n bytes. One of no bytes is where the field starts, whatever s is.
fn subscript_span(size: usize, offset: usize, n: usize, s: i64) -> Option<Span>
    requires size_bound { (size < 65536) × (offset < 65536) × (n < 65536) }
    requires val { Val (10 ^ 18) s }
    ensures { result ≡ subscript_span size offset n s }
{
    if n == 0 {
        return inside(size, offset, n);
    }
    let k = number::magnitude(s) as usize;
    if number::is_neg(s) {
        return backward(size, offset, n, k + 1);
    }
    if k == 0 {
        return backward(size, offset, n, 1);
    }
    forward(size, offset, n, k - 1)
}

// The bytes from s to e.
fn start_end_span(size: usize, offset: usize, s: i64, e: i64) -> Option<Span>
    requires offset_bound { offset < 65536 }
    requires val { Val (10 ^ 18) s }
    requires val_2 { Val (10 ^ 18) e }
    ensures { result ≡ start_end_span size offset s e }
{
    if number::is_neg(s) || number::is_neg(e) {
        return None;
    }
    let a = number::magnitude(s) as usize;
    let b = number::magnitude(e) as usize;
    if a == 0 || b < a {
        return None;
    }
    inside(size, offset + (a - 1), b - a + 1)
}

// The n bytes from p on, or those that end at p where n is negative.
fn pos_length_span(size: usize, offset: usize, p: i64, n: i64) -> Option<Span>
    requires offset_bound { offset < 65536 }
    requires val { Val (10 ^ 18) p }
    requires val_2 { Val (10 ^ 18) n }
    ensures { result ≡ pos_length_span size offset p n }
{
    if number::is_neg(p) {
        return None;
    }
    let a = number::magnitude(p) as usize;
    let k = number::magnitude(n) as usize;
    if a == 0 || k == 0 {
        return None;
    }
    if number::is_neg(n) {
        return inside(size, (offset + a).checked_sub(k)?, k);
    }
    inside(size, offset + (a - 1), k)
}

// The span of a reference without bounds, the field's first element, inside size bytes: the same by either rule.
pub fn first_span(size: usize, field: Field) -> Option<Span>
    ensures { result ≡ span_of size field form.First (pos 0) (pos 0) }
{
    let offset = field.offset as usize;
    let n = field.size as usize;
    if size < offset + n {
        return None;
    }
    Some(Span {
        start: offset,
        len: n,
    })
}

// The span of a reference to a field with the bounds x and y, inside size bytes: it may leave its field.
pub fn span_of(size: usize, field: Field, form: Form, x: i64, y: i64) -> Option<Span>
    requires size_bound { size < 65536 }
    requires val { Val (10 ^ 18) x }
    requires val_2 { Val (10 ^ 18) y }
    ensures { result ≡ span_of size field form x y }
{
    let offset = field.offset as usize;
    let n = field.size as usize;
    match form {
        Form::First => inside(size, offset, n),
        Form::Subscript => subscript_span(size, offset, n, x),
        Form::StartEnd => start_end_span(size, offset, x, y),
        Form::PosLength => pos_length_span(size, offset, x, y),
    }
}

// ---- strict fields

// The rule that a field chooses by its zero byte.
pub fn rule_of(field: Field) -> Rule
    ensures { result ≡ rule_of field }
{
    if field.zero == 128 {
        return Rule::Strict;
    }
    Rule::Loose
}

// The len bytes from start, where they lie inside a strict field, and None otherwise.
fn held(field: Field, start: usize, len: usize) -> Option<Span>
    ensures { result ≡ held_to rule.Strict field (span_at start len) }
{
    let end = unit_decode::end_of(field);
    if start < unit_decode::long(field.offset) || end < start || end - start < len {
        return None;
    }
    Some(Span { start, len })
}

// What the strict rule makes of a span that was found.
fn held_to(field: Field, span: Option<Span>) -> Option<Span>
    ensures { result ≡ held_to rule.Strict field span }
{
    let span = span?;
    held(field, span.start, span.len)
}

// The span of a reference by the strict rule. It does not go by `span_of`: that has one caller in a run, `span_by`, so that the compiler puts it there.
fn strict_span(size: usize, field: Field, form: Form, x: i64, y: i64) -> Option<Span>
    requires size_bound { size < 65536 }
    requires val { Val (10 ^ 18) x }
    requires val_2 { Val (10 ^ 18) y }
    ensures { result ≡ span_by rule.Strict size field form x y }
{
    let offset = field.offset as usize;
    let n = field.size as usize;
    match form {
        Form::First => inside(size, offset, n),
        Form::Subscript => held_to(field, subscript_span(size, offset, n, x)),
        Form::StartEnd => held_to(field, start_end_span(size, offset, x, y)),
        Form::PosLength => held_to(field, pos_length_span(size, offset, x, y)),
    }
}

// The span of a reference to a field with the bounds x and y, by a rule, inside size bytes.
pub fn span_by(rule: Rule, size: usize, field: Field, form: Form, x: i64, y: i64) -> Option<Span>
    requires size_bound { size < 65536 }
    requires val { Val (10 ^ 18) x }
    requires val_2 { Val (10 ^ 18) y }
    ensures { result ≡ span_by rule size field form x y }
{
    match rule {
        Rule::Loose => span_of(size, field, form, x, y),
        Rule::Strict => strict_span(size, field, form, x, y),
    }
}
