// Every reference of a unit that breaks a fence rule, as rows of eight numbers. Each function goes on from a count of those that were met before it, puts the rows
// that are asked for, and answers the count behind it.
#![tactic(auto)]

ghost use Rattle.std.specs.Prelude.{◌≡◌, true, [], ◌<◌, Ok};
ghost use Rattle.unit_decode.specs.Units.{code_in, RowsIn};
ghost use Rattle.rules_unit.specs.Decode.{SoundDialect, items_at};
ghost use Rattle.rules_unit.specs.Expressions.{itemb, useb};
ghost use Rattle.rules_unit.specs.Table.{uses_by};
ghost use Rattle.rules_unit.specs.Checks.{check_of};
ghost use Rattle.rules_fence.specs.declared.Seen.TheVariants as seen;
ghost use Rattle.rules_fence.specs.Bounds.{fixed_span};
ghost use Rattle.rules_fence.specs.Listed.{reference_broken, item_broken, broken_from, use_broken, uses_broken, broken_of, statements_broken, breaches_of, broken_in_by, broken_in, form_number, start_of, length_of, truth_of, row_of, Listed, listed};
ghost use Rattle.rules_host.specs.Laid.{laid};
ghost use Rattle.fence_bounds.specs.Asked.{Small};
ghost use Rattle.fence_decimals.specs.Ahead.{Ahead};
ghost use Rattle.fence_statements.specs.Asked.{AllKnown, AllGood};
ghost use Rattle.fence_list.specs.Gathered.{count_after, row_put, gathered};

use rules_fence::{Broken, Seen};
use rules_run::Span;
use rules_unit::{Form, Item, Parts, Row, Statement, Use};
use unit_decode::Coded;

// ---- one row

// The number of a form: the code of the item that has it.
fn form_number(form: Form) -> u64
    ensures { result ≡ form_number form }
{
    match form {
        Form::First => 2,
        Form::Subscript => 3,
        Form::StartEnd => 4,
        Form::PosLength => 5,
    }
}

// Where a span starts; 0 where there is none.
fn start_of(span: Option<Span>) -> usize
    ensures { result ≡ start_of span }
{
    span.map_or(0, |span| span.start)
}

// How long a span is; 0 where there is none.
fn length_of(span: Option<Span>) -> usize
    ensures { result ≡ length_of span }
{
    span.map_or(0, |span| span.len)
}

// 1 where something is so, else 0.
fn truth_of(so: bool) -> u64
    ensures { result ≡ truth_of so }
{
    u64::from(so)
}

// Puts the eight numbers of a breach at the front of a row, as many as fit.
fn put_broken(row: &mut [u64], b: Broken)
    ensures { row.new ≡ laid (row_of b) row.old }
{
    let rule = b.rule;
    let form = b.form;
    let span = b.span;
    let numbers = [
        u64::from(b.statement),
        u64::from(rules_fence::breach_number(rule)),
        truth_of(b.written),
        u64::from(b.field),
        form_number(form),
        start_of(span) as u64,
        length_of(span) as u64,
        b.at as u64,
    ];
    rules_host::lay(&numbers, row);
}

// Puts the row of a breach before which so many were met, if it is asked for and the whole row fits.
fn put_row(skip: usize, rows: &mut [u64], count: usize, b: Broken)
    ensures { rows.new ≡ row_put skip count b rows.old }
{
    if count < skip {
        return;
    }
    let k = count - skip;
    if rows.len() / 8 <= k {
        return;
    }
    let start = k * 8;
    let end = start + 8;
    put_broken(&mut rows[start..end], b);
}

// One more. A unit has far fewer references than a count may have.
fn count_after(count: usize) -> usize
    ensures { result ≡ count_after count }
{
    count.saturating_add(1)
}

// ---- references and items

// The bytes that a reference names by the bounds before it; none where they fix none.
fn span_by(coded: &Coded, form: Form, field: u16, s: Seen) -> Option<Span>
    requires field_lt_f { field < coded.now.parts.f }
    requires small { Small s }
    ensures { result ≡ fixed_span (code_in coded.now) form field s }
{
    if fence_bounds::bounded(form, s) {
        return fence_bounds::fixed_span(coded, form, field, s);
    }
    None
}

// A reference of the statement i at an offset of the expressions, before which the bounds s stand.
fn list_reference(
    coded: &Coded,
    ahead: &[u16],
    i: u16,
    dest: bool,
    s: Seen,
    at: usize,
    form: Form,
    field: u16,
    skip: usize,
    rows: &mut [u64],
    count: usize,
) -> usize
    requires ahead { Ahead (code_in coded.now) ahead.now }
    requires small { Small s }
    requires field_lt_f { field < coded.now.parts.f }
    ensures { ◌≡◌ {A = Listed} (record { count = result; rows = rows.new }) (gathered skip (reference_broken (code_in coded.now) i dest s at form field) (record { count = count; rows = rows.old })) }
{
    let rule = fence_references::reference_breach(coded, ahead, dest, form, field, s);
    if fence_statements::keeps(rule) {
        return count;
    }
    let span = span_by(coded, form, field, s);
    let b = Broken {
        statement: i,
        rule: rule,
        written: dest,
        field: field,
        form: form,
        span: span,
        at: at,
    };
    put_row(skip, rows, count, b);
    count_after(count)
}

// An item of the statement i at an offset of the expressions, where `dest` says whether it is the last one of a place that is written.
fn list_item(
    coded: &Coded,
    ahead: &[u16],
    i: u16,
    dest: bool,
    s: Seen,
    at: usize,
    item: Item,
    skip: usize,
    rows: &mut [u64],
    count: usize,
) -> usize
    requires ahead { Ahead (code_in coded.now) ahead.now }
    requires small { Small s }
    requires item_value { itemb (code_in coded.now) item ≡ true }
    ensures { ◌≡◌ {A = Listed} (record { count = result; rows = rows.new }) (gathered skip (item_broken (code_in coded.now) i dest s at item []) (record { count = count; rows = rows.old })) }
{
    match item {
        Item::Number { .. } => count,
        Item::Reference { form, field } => list_reference(
            coded, ahead, i, dest, s, at, form, field, skip, rows, count,
        ),
        Item::Text { .. } => count,
        Item::Operator(_) => count,
        Item::End => count,
        Item::Bad => count,
    }
}

// ---- expressions and statements

// The expression at an offset of the expressions es.
fn list_items(
    coded: &Coded,
    ahead: &[u16],
    i: u16,
    dest: bool,
    es: &[u8],
    from: usize,
    skip: usize,
    rows: &mut [u64],
    count: usize,
) -> usize
    requires sound_dialect { SoundDialect coded.now.parts.dialect }
    requires ahead { Ahead (code_in coded.now) ahead.now }
    requires all_known { AllKnown (code_in coded.now) (items_at es.now from) }
    ensures { ◌≡◌ {A = Listed} (record { count = result; rows = rows.new }) (gathered skip (broken_from (code_in coded.now) i dest seen.Nothing from (items_at es.now from)) (record { count = count; rows = rows.old })) }
{
    let mut s = Seen::Nothing;
    let mut at = from;
    let mut n = count;
    // The next offset depends on the item that was read: no range steps so.
    while at < es.len() {
        let item = unit_decode::item_at(es, at);
        if unit_decode::closes(item) {
            return n;
        }
        let next = at + unit_decode::width_of(item);
        let aim = fence_statements::aimed(dest, es, next);
        n = list_item(coded, ahead, i, aim, s, at, item, skip, rows, n);
        s = fence_bounds::seen_after(coded, s, item);
        at = next;
    }
    n
}

// The expression at an offset.
fn list_at(
    coded: &Coded,
    ahead: &[u16],
    i: u16,
    dest: bool,
    e: u16,
    skip: usize,
    rows: &mut [u64],
    count: usize,
) -> usize
    requires sound_dialect { SoundDialect coded.now.parts.dialect }
    requires ahead { Ahead (code_in coded.now) ahead.now }
    requires all_known { AllKnown (code_in coded.now) ((code_in coded.now).items e) }
    ensures { ◌≡◌ {A = Listed} (record { count = result; rows = rows.new }) (gathered skip (broken_from (code_in coded.now) i dest seen.Nothing e ((code_in coded.now).items e)) (record { count = count; rows = rows.old })) }
{
    list_items(
        coded,
        ahead,
        i,
        dest,
        coded.expressions(),
        unit_decode::long(e),
        skip,
        rows,
        count,
    )
}

// A use of an expression.
fn list_use(
    coded: &Coded,
    ahead: &[u16],
    i: u16,
    u: Option<Use>,
    skip: usize,
    rows: &mut [u64],
    count: usize,
) -> usize
    requires sound_dialect { SoundDialect coded.now.parts.dialect }
    requires ahead { Ahead (code_in coded.now) ahead.now }
    requires u_value { useb (code_in coded.now) u ≡ true }
    ensures { ◌≡◌ {A = Listed} (record { count = result; rows = rows.new }) (gathered skip (use_broken (code_in coded.now) i u) (record { count = count; rows = rows.old })) }
{
    match u {
        None => count,
        Some(u) => list_at(coded, ahead, i, u.written, u.at, skip, rows, count),
    }
}

// The uses of the statement i, which is s, and whose row is given. Where expressions in a row start is noted.
fn list_uses(
    coded: &Coded,
    ahead: &[u16],
    noted: &mut [u16],
    i: u16,
    row: Row,
    s: Statement,
    skip: usize,
    rows: &mut [u64],
    count: usize,
) -> usize
    requires sound_dialect { SoundDialect coded.now.parts.dialect }
    requires ahead { Ahead (code_in coded.now) ahead.now }
    requires rows_of { RowsIn coded.now noted.old }
    requires all_good { AllGood (code_in coded.now) (uses_by (code_in coded.now) row s) }
    ensures fact { ◌≡◌ {A = Listed} (record { count = result; rows = rows.new }) (gathered skip (uses_broken (code_in coded.now) i (uses_by (code_in coded.now) row s)) (record { count = count; rows = rows.old })) }
    ensures rows_of_2 { RowsIn coded.now noted.new }
{
    let uses = unit_uses::count_of(coded.unit, coded.parts, row, s);
    let mut n = count;
    for k in 0..uses {
        let u = unit_uses::use_by(coded, noted, row, s, k);
        n = list_use(coded, ahead, i, u, skip, rows, n);
    }
    n
}

// The statement i of a unit that passed its check.
fn list_statement(
    coded: &Coded,
    ahead: &[u16],
    noted: &mut [u16],
    i: u16,
    skip: usize,
    rows: &mut [u64],
    count: usize,
) -> usize
    requires unit_value { check_of coded.now.unit.now ≡ Ok coded.now.parts }
    requires ahead { Ahead (code_in coded.now) ahead.now }
    requires rows_of { RowsIn coded.now noted.old }
    requires i_lt_n { i < coded.now.parts.n }
    ensures fact { ◌≡◌ {A = Listed} (record { count = result; rows = rows.new }) (gathered skip (broken_of (code_in coded.now) i) (record { count = count; rows = rows.old })) }
    ensures rows_of_2 { RowsIn coded.now noted.new }
{
    let s = coded.statement(i);
    let row = unit_decode::row_of(unit_decode::verb_of(s.code));
    list_uses(coded, ahead, noted, i, row, s, skip, rows, count)
}

// ---- the unit

// All statements of a unit that passed its check.
fn list_all(coded: &Coded, ahead: &[u16], noted: &mut [u16], skip: usize, rows: &mut [u64]) -> usize
    requires unit_value { check_of coded.now.unit.now ≡ Ok coded.now.parts }
    requires ahead { Ahead (code_in coded.now) ahead.now }
    requires rows_of { RowsIn coded.now noted.old }
    ensures { ◌≡◌ {A = Listed} (record { count = result; rows = rows.new }) (gathered skip (statements_broken (code_in coded.now) coded.now.parts.n 0) (record { count = 0; rows = rows.old })) }
{
    let mut n: usize = 0;
    for i in 0..coded.parts.n {
        n = list_statement(coded, ahead, noted, i, skip, rows, n);
    }
    n
}

// The same, where nothing is noted yet. The data of a unit and its expressions have at most 16,383 bytes each.
fn list_unit(coded: &Coded, skip: usize, rows: &mut [u64]) -> usize
    requires { check_of coded.now.unit.now ≡ Ok coded.now.parts }
    ensures { ◌≡◌ {A = Listed} (record { count = result; rows = rows.new }) (listed (statements_broken (code_in coded.now) coded.now.parts.n 0) skip rows.old) }
{
    let mut ahead = [65535u16; 16384];
    let mut noted = [0u16; 16384];
    fence_decimals::note_decimals(coded, &mut ahead);
    list_all(coded, &ahead, &mut noted, skip, rows)
}

// How many references of a unit break a fence rule; none of one that is refused. Whole rows of those from the number `skip` on, from 0, are put at the front of
// `rows`, as many as fit, and the rest of it stays as it was.
pub fn breaches(unit: &[u8], skip: usize, rows: &mut [u64]) -> usize
    ensures { ◌≡◌ {A = Listed} (record { count = result; rows = rows.new }) (listed (breaches_of unit.now) skip rows.old) }
{
    let answer = unit_check::check(unit);
    match answer {
        Ok(parts) => list_unit(
            &Coded {
                unit,
                parts,
                tail: unit_decode::tail_of(unit, parts),
            },
            skip,
            rows,
        ),
        Err(_) => 0,
    }
}

// The breaches of the statement i of a unit that passed its check. One statement needs no notes of others.
fn list_alone(coded: &Coded, i: u16, skip: usize, rows: &mut [u64]) -> usize
    requires unit_value { check_of coded.now.unit.now ≡ Ok coded.now.parts }
    requires i_lt_n { i < coded.now.parts.n }
    ensures { ◌≡◌ {A = Listed} (record { count = result; rows = rows.new }) (listed (broken_of (code_in coded.now) i) skip rows.old) }
{
    let mut ahead = [65535u16; 16384];
    let mut noted = [0u16; 1];
    fence_decimals::note_decimals(coded, &mut ahead);
    list_statement(coded, &ahead, &mut noted, i, skip, rows, 0)
}

// The same of any number; none where there is no such statement.
fn list_by(coded: &Coded, i: usize, skip: usize, rows: &mut [u64]) -> usize
    requires { check_of coded.now.unit.now ≡ Ok coded.now.parts }
    ensures { ◌≡◌ {A = Listed} (record { count = result; rows = rows.new }) (listed (broken_in_by coded.now.unit.now i (Ok coded.now.parts)) skip rows.old) }
{
    if unit_decode::long(coded.parts.n) <= i {
        return 0;
    }
    list_alone(coded, i as u16, skip, rows)
}

// How many references of the statement i break a fence rule, and rows of them, as `breaches` gives them; none where the unit is refused or has no such statement.
pub fn statement_breaches(unit: &[u8], i: usize, skip: usize, rows: &mut [u64]) -> usize
    ensures { ◌≡◌ {A = Listed} (record { count = result; rows = rows.new }) (listed (broken_in unit.now i) skip rows.old) }
{
    let answer = unit_check::check(unit);
    match answer {
        Ok(parts) => list_by(
            &Coded {
                unit,
                parts,
                tail: unit_decode::tail_of(unit, parts),
            },
            i,
            skip,
            rows,
        ),
        Err(_) => 0,
    }
}
