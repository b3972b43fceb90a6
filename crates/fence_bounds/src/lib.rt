// The bounds that stand directly before an item of an expression, and the span that they fix.
#![tactic(auto)]

ghost use Rattle.std.specs.Prelude.{◌≡◌, true, ◌<◌, Ok};
ghost use Rattle.unit_decode.specs.Units.{code_in};
ghost use Rattle.rules_unit.specs.declared.Form.TheVariants as form;
ghost use Rattle.rules_unit.specs.Decode.{SoundDialect};
ghost use Rattle.rules_fence.specs.Bounds.{is_negate, seen_number, seen_negate, seen_after, boundedb, fixed_span};
ghost use Rattle.fence_bounds.specs.Asked.{first_bound, last_bound, start_bound, Small};

use rules::Fault;
use rules_fence::Seen;
use rules_run::Span;
use rules_unit::{Form, Item, Op, Parts};
use unit_decode::Coded;

// ---- after an item

// Whether an operator is negate.
fn is_negate(op: Op) -> bool
    ensures { result ≡ is_negate op }
{
    matches!(op, Op::Negate)
}

// The bounds after a literal of the value v.
fn seen_value(v: i64, s: Seen) -> Seen
    ensures { result ≡ seen_number (Ok v) s }
{
    match s {
        Seen::Nothing => Seen::One {
            last: v,
            plain: true,
        },
        Seen::One { last, .. } | Seen::Two { last, .. } => Seen::Two {
            first: last,
            last: v,
            plain: true,
        },
    }
}

// The bounds after a literal; a literal that is no number is no bound.
fn seen_number(n: Result<i64, Fault>, s: Seen) -> Seen
    ensures { result ≡ seen_number n s }
{
    match n {
        Ok(v) => seen_value(v, s),
        Err(_) => Seen::Nothing,
    }
}

// The bounds after a negate: it turns a plain literal, and a second negate leaves no bound.
fn seen_negate(s: Seen) -> Seen
    requires { Small s }
    ensures { result ≡ seen_negate s }
{
    match s {
        Seen::Nothing => Seen::Nothing,
        Seen::One { last, plain } => {
            if plain {
                return Seen::One {
                    last: number::negate(last),
                    plain: false, // A second negate is no part of a bound.
                };
            }
            Seen::Nothing
        }
        Seen::Two { first, last, plain } => {
            if plain {
                return Seen::Two {
                    first,
                    last: number::negate(last),
                    plain: false,
                };
            }
            Seen::Nothing
        }
    }
}

// The bounds after an item.
pub fn seen_after(coded: &Coded, s: Seen, item: Item) -> Seen
    requires sound_dialect { SoundDialect coded.now.parts.dialect }
    requires small { Small s }
    ensures { result ≡ seen_after (code_in coded.now) s item }
{
    match item {
        Item::Number { place, len } => {
            seen_number(run_items::literal_number(coded, place, len), s)
        }
        Item::Operator(op) => {
            if is_negate(op) {
                return seen_negate(s);
            }
            Seen::Nothing
        }
        Item::Reference { .. } | Item::Text { .. } | Item::End | Item::Bad => Seen::Nothing,
    }
}

// ---- what a reference takes of them

// Whether there is a bound.
pub fn has_one(s: Seen) -> bool
    ensures { result ≡ boundedb form.Subscript s }
{
    !matches!(s, Seen::Nothing)
}

// Whether there are two bounds.
fn has_two(s: Seen) -> bool
    ensures { result ≡ boundedb form.StartEnd s }
{
    matches!(s, Seen::Two { .. })
}

// Whether there are as many bounds as a reference takes.
pub fn bounded(form: Form, s: Seen) -> bool
    ensures { result ≡ boundedb form s }
{
    match form {
        Form::First => true,
        Form::Subscript => has_one(s),
        Form::StartEnd | Form::PosLength => has_two(s),
    }
}

// The bound before the last; 0 where there is none.
fn first_bound(s: Seen) -> i64
    ensures { result ≡ first_bound s }
{
    match s {
        Seen::Nothing | Seen::One { .. } => 0,
        Seen::Two { first, .. } => first,
    }
}

// The last bound; 0 where there is none.
fn last_bound(s: Seen) -> i64
    ensures { result ≡ last_bound s }
{
    match s {
        Seen::Nothing => 0,
        Seen::One { last, .. } | Seen::Two { last, .. } => last,
    }
}

// The bound that a reference starts from.
fn start_bound(form: Form, s: Seen) -> i64
    ensures { result ≡ start_bound form s }
{
    match form {
        Form::Subscript => last_bound(s),
        Form::First | Form::StartEnd | Form::PosLength => first_bound(s),
    }
}

// ---- the span

// The bytes that a reference names by its bounds, of a strict field too; none where the rule of document 01 gives 21.
pub fn fixed_span(coded: &Coded, form: Form, field: u16, s: Seen) -> Option<Span>
    requires field_lt_f { field < coded.now.parts.f }
    requires small { Small s }
    requires s_value { boundedb form s ≡ true }
    ensures { result ≡ fixed_span (code_in coded.now) form field s }
{
    let entry = coded.field(field);
    let most = usize::from(coded.parts.d);
    let x = start_bound(form, s);
    let y = last_bound(s);
    run_spans::span_of(most, entry, form, x, y)
}
