// Expressions: their form and their sort. What is found of the items to the end of an expression is noted, so that no two expressions that come
// to the same item walk on from it.
#![tactic(auto)]

ghost use Rattle.std.specs.Prelude.{◌≡◌, true, false, ◌+◌, ◌*◌, ◌<◌, ◌≤◌, set};
ghost use Rattle.unit_decode.specs.Units.{code_in};
ghost use Rattle.rules_unit.specs.Codes.{is_decimal};
ghost use Rattle.rules_unit.specs.Decode.{items_at};
ghost use Rattle.rules_unit.specs.Expressions.{digitsb, numberb, textb, itemb, place_sort, sort_of, goes_on, sort_from, sort_at};
ghost use Rattle.rules_unit.specs.declared.Sort.TheVariants as sort;
ghost use Rattle.unit_sorts.specs.Notes.{is_wrong, note_of, sort_by, noted_at, Noted, NotedIn};

use rules_unit::{Item, Parts, Sort};
use unit_decode::Coded;

// Whether all characters are 0 to 9.
#[tactic(auto, using(crate::proofs::Literals::digits_loop))]
fn digits(s: &[u8]) -> bool
    ensures { result ≡ digitsb s.now }
{
    for b in s {
        if *b < 48 || 57 < *b {
            return false;
        }
    }
    true
}

// Whether a number literal has 1 to the dialect's digits and lies inside the literals.
#[tactic(auto, using(crate::proofs::Literals::number_laws))]
fn number_good(coded: &Coded, place: u16, len: u16) -> bool
    ensures { result ≡ numberb (code_in coded.now) place len }
{
    let from = usize::from(place);
    let n = usize::from(len);
    if len < 1 || coded.parts.dialect.limit < len || usize::from(coded.parts.p) < from + n {
        return false;
    }
    let start = unit_decode::literals_offset(coded.parts) + from;
    let end = start + n;
    digits(&coded.unit[start..end])
}

// Whether an alpha literal has characters and lies inside the literals.
#[tactic(auto, using(crate::proofs::Literals::text_there), unfolding(rules_unit::specs::Expressions::textb))]
pub fn text_good(coded: &Coded, place: u16, len: u16) -> bool
    ensures { result ≡ textb (code_in coded.now) place len }
{
    1 <= len && usize::from(place) + usize::from(len) <= usize::from(coded.parts.p)
}

// Whether an item keeps its own rule.
fn item_good(coded: &Coded, item: Item) -> bool
    ensures { result ≡ itemb (code_in coded.now) item }
{
    match item {
        Item::Number { place, len } => number_good(coded, place, len),
        Item::Reference { form: _, field } => field < coded.parts.f,
        Item::Text { place, len } => text_good(coded, place, len),
        Item::Operator(_) => true,
        Item::End | Item::Bad => false,
    }
}

// The sort of a place, by whether its field is decimal.
fn place_sort(decimal: bool) -> Sort
    ensures { result ≡ place_sort decimal }
{
    if decimal { Sort::Decimal } else { Sort::Alpha }
}

// The sort of a reference to the field i.
fn field_sort(coded: &Coded, i: u16) -> Sort
    requires { i < coded.now.parts.f }
    ensures { result ≡ place_sort (is_decimal ((code_in coded.now).field i).kind) }
{
    place_sort(unit_decode::is_decimal(coded.field(i).kind))
}

// The sort that an item gives as the last one.
fn sort_of(coded: &Coded, item: Item) -> Sort
    requires { itemb (code_in coded.now) item ≡ true }
    ensures { result ≡ sort_of (code_in coded.now) item }
{
    match item {
        Item::Number { .. } | Item::Operator(_) => Sort::Number,
        Item::Reference { form: _, field } => field_sort(coded, field),
        Item::Text { .. } => Sort::Text,
        Item::End | Item::Bad => Sort::Wrong,
    }
}

// Whether another item may stand after one of this sort: 06 stands only last, and every reference but the last is to a decimal field.
fn goes_on(k: Sort) -> bool
    ensures { result ≡ goes_on k }
{
    matches!(k, Sort::Number | Sort::Decimal)
}

// ---- notes

// Whether a sort is Wrong.
fn is_wrong(k: Sort) -> bool
    ensures { result ≡ is_wrong k }
{
    matches!(k, Sort::Wrong)
}

// The note of a sort: 1 to 4, and 0 of Wrong, which is not noted.
fn note_of(k: Sort) -> u8
    ensures { (result ≡ note_of k) × (result < 8) }
{
    match k {
        Sort::Wrong => 0,
        Sort::Number => 1,
        Sort::Text => 2,
        Sort::Decimal => 3,
        Sort::Alpha => 4,
    }
}

// The sort of which m is the note; Wrong where it is that of none.
#[tactic(auto, unfolding(crate::specs::Notes::sort_by))]
fn sort_by(m: u8) -> Sort
    ensures { result ≡ sort_by m }
{
    match m {
        1 => Sort::Number,
        2 => Sort::Text,
        3 => Sort::Decimal,
        4 => Sort::Alpha,
        _ => Sort::Wrong,
    }
}

// The sort noted for the items from an offset on, where n values are held before them; Wrong where none is noted.
#[tactic(auto, using(crate::proofs::Notes::noted_out), unfolding(crate::specs::Notes::noted_at))]
fn noted(notes: &[u8], at: usize, n: u16) -> Sort
    ensures { result ≡ noted_at notes.now at n }
{
    match notes.get(at) {
        Some(b) if u16::from(*b / 8) == n => sort_by(*b % 8),
        _ => Sort::Wrong,
    }
}

// Notes the sort k for the items from an offset on, where n values are held before them. An offset outside the notes is not noted.
fn note(notes: &mut [u8], at: usize, n: u16, k: Sort)
    requires { n ≤ 16 }
    ensures { notes.new ≡ set notes.old at (n * 8 + note_of k) }
{
    if at < notes.len() {
        notes[at] = (n * 8) as u8 + note_of(k);
    }
}

// ---- expressions

// The sort of the expression at an offset of the expressions s.
#[tactic(auto, using(rules::proofs::Walk::seen_yes, rules_unit::proofs::Items::width_some, rules_unit::proofs::Items::width_most))]
fn sort_in(coded: &Coded, s: &[u8], notes: &[u8], at: usize) -> Sort
    requires { Noted (code_in coded.now) s.now notes.now }
    ensures { result ≡ sort_from (code_in coded.now) (items_at s.now at) 0 sort.Number }
{
    let mut k = Sort::Number;
    let mut n: u16 = 0;
    let mut i = at;
    // How far a turn steps is known only once it has read its item.
    while i < s.len() {
        let item = unit_decode::item_at(s, i);
        if let Item::End = item {
            if n == 1 {
                return k;
            }
            return Sort::Wrong;
        }
        if !goes_on(k) {
            return Sort::Wrong;
        }
        let known = noted(notes, i, n);
        if !is_wrong(known) {
            return known;
        }
        if !item_good(coded, item) {
            return Sort::Wrong;
        }
        let taken = unit_decode::takes_of(item);
        if n < taken || 16 < n - taken + 1 {
            return Sort::Wrong;
        }
        k = sort_of(coded, item);
        n = n - taken + 1;
        i += unit_decode::width_of(item);
    }
    Sort::Wrong
}

// Notes the sort k of the expression at an offset of the expressions s, for each of its items up to one for which it is noted.
#[tactic(auto, using(crate::proofs::Leads::lead_start, rules_unit::proofs::Items::width_some, rules_unit::proofs::Items::width_most))]
fn note_in(coded: &Coded, s: &[u8], notes: &mut [u8], at: usize, k: Sort)
    requires noted { Noted (code_in coded.now) s.now notes.old }
    requires k_value { is_wrong k ≡ false }
    requires k_value_2 { k ≡ sort_from (code_in coded.now) (items_at s.now at) 0 sort.Number }
    ensures { Noted (code_in coded.now) s.now notes.new }
{
    let mut n: u16 = 0;
    let mut i = at;
    // How far a turn steps is known only once it has read its item.
    while i < usize::from(coded.parts.e) {
        let item = unit_decode::item_at(s, i);
        if let Item::End = item {
            return;
        }
        if !is_wrong(noted(notes, i, n)) {
            return;
        }
        note(notes, i, n, k);
        n = n - unit_decode::takes_of(item) + 1;
        i += unit_decode::width_of(item);
    }
}

// The sort of the expression at an offset; Wrong where it is badly formed. What is found is noted, and what is noted is not looked for again.
pub fn sort_at(coded: &Coded, notes: &mut [u8], e: u16) -> Sort
    requires { NotedIn coded.now notes.old }
    ensures value { result ≡ sort_at (code_in coded.now) e }
    ensures noted_of_2 { NotedIn coded.now notes.new }
{
    let s = coded.expressions();
    let at = usize::from(e);
    let k = sort_in(coded, s, notes, at);
    if is_wrong(k) {
        return k;
    }
    note_in(coded, s, notes, at, k);
    k
}
