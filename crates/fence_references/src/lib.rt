// What a reference of a unit breaks first of the fence rules: its bounds, then the bytes that they fix.
#![tactic(auto)]

ghost use Rattle.rules_run.specs.Spans.{span_at};
ghost use Rattle.unit_decode.specs.Units.{code_in};
ghost use Rattle.std.specs.Prelude.{◌≡◌, true, [], ◌+◌, ◌<◌, ◌≤◌};
ghost use Rattle.rules_unit.specs.Codes.{offset_of};
ghost use Rattle.rules_unit.specs.Expressions.{itemb};
ghost use Rattle.rules_fence.specs.Breaches.{end_breach, element_breach, alpha_breach, span_breach, reference_breach, item_breach};
ghost use Rattle.fence_bounds.specs.Asked.{Small};
ghost use Rattle.fence_decimals.specs.Ahead.{Ahead};

use rules_fence::{Breach, Seen};
use rules_unit::{Form, Item, Parts};
use unit_decode::Coded;

// ---- one span

// What a decimal span breaks that ends at `last`, where the element that it starts in ends at e.
fn end_breach(dest: bool, e: usize, last: usize) -> Breach
    ensures { result ≡ end_breach dest e last }
{
    if e < last {
        return Breach::OverElements;
    }
    if !dest || last == e {
        return Breach::None;
    }
    Breach::StopsMidElement
}

// What the n bytes from a on of a decimal field break, which start inside the field.
fn element_breach(coded: &Coded, dest: bool, field: u16, a: usize, n: usize) -> Breach
    requires field_lt_f { field < coded.now.parts.f }
    requires n_bound { a + n ≤ coded.now.parts.d }
    requires field_bound { offset_of (code_in coded.now) field ≤ a }
    ensures { result ≡ element_breach (code_in coded.now) dest field a n }
{
    let entry = coded.field(field);
    let offset = usize::from(entry.offset);
    let size = usize::from(entry.size);
    // Never true of a unit that passed its check: an element has at least one byte.
    if size == 0 {
        return end_breach(dest, offset, a + n);
    }
    let k = (a - offset) / size;
    end_breach(dest, offset + k * size + size, a + n)
}

// What the n bytes from a on of an alpha or record field break. `coded` is named for the contract alone.
fn alpha_breach(coded: &Coded, ahead: &[u16], dest: bool, a: usize, n: usize) -> Breach
    requires ahead { Ahead (code_in coded.now) ahead.now }
    requires n_bound { a + n ≤ coded.now.parts.d }
    ensures { result ≡ alpha_breach (code_in coded.now) dest a n }
{
    if !dest || fence_decimals::apart(ahead, a, n) {
        return Breach::None;
    }
    Breach::OnDecimal
}

// What the n bytes from a on break, which a reference to the field names.
fn span_breach(coded: &Coded, ahead: &[u16], dest: bool, field: u16, a: usize, n: usize) -> Breach
    requires ahead { Ahead (code_in coded.now) ahead.now }
    requires field_lt_f { field < coded.now.parts.f }
    requires n_bound { a + n ≤ coded.now.parts.d }
    ensures { result ≡ span_breach (code_in coded.now) dest field (span_at a n) }
{
    let entry = coded.field(field);
    let kind = entry.kind;
    if a < usize::from(entry.offset) || unit_decode::end_of(entry) < a + n {
        return Breach::LeavesField;
    }
    if unit_decode::is_decimal(kind) {
        return element_breach(coded, dest, field, a, n);
    }
    alpha_breach(coded, ahead, dest, a, n)
}

// ---- references and items

// What a reference breaks, before which the bounds s stand.
pub fn reference_breach(
    coded: &Coded,
    ahead: &[u16],
    dest: bool,
    form: Form,
    field: u16,
    s: Seen,
) -> Breach
    requires ahead { Ahead (code_in coded.now) ahead.now }
    requires field_lt_f { field < coded.now.parts.f }
    requires small { Small s }
    ensures { result ≡ reference_breach (code_in coded.now) dest form field s }
{
    if !fence_bounds::bounded(form, s) {
        return Breach::BoundNotLiteral;
    }
    match fence_bounds::fixed_span(coded, form, field, s) {
        Some(span) => span_breach(coded, ahead, dest, field, span.start, span.len),
        None => Breach::BoundsWrong,
    }
}

// What an item breaks, where `dest` says whether it is the last one of a place that is written.
pub fn item_breach(coded: &Coded, ahead: &[u16], dest: bool, s: Seen, item: Item) -> Breach
    requires ahead { Ahead (code_in coded.now) ahead.now }
    requires small { Small s }
    requires item_value { itemb (code_in coded.now) item ≡ true }
    ensures { result ≡ item_breach (code_in coded.now) dest s item [] }
{
    match item {
        Item::Reference { form, field } => reference_breach(coded, ahead, dest, form, field, s),
        Item::Number { .. } | Item::Text { .. } | Item::Operator(_) | Item::End | Item::Bad => {
            Breach::None
        }
    }
}
