// The expressions of a statement: their uses, and whether each is of the sort that its use wants.
#![tactic(auto)]

ghost use Rattle.std.specs.Prelude.{◌≡◌, true, false, ◌<◌, length, get_or, None};
ghost use Rattle.unit_decode.specs.Units.{code_in, RowsIn};
ghost use Rattle.rules_unit.specs.declared.Role.TheVariants as role;
ghost use Rattle.rules_unit.specs.Decode.{code_of};
ghost use Rattle.rules_unit.specs.Expressions.{suits, useb, usesb};
ghost use Rattle.rules_unit.specs.Table.{use_of, more_of, uses_by, uses_of};
ghost use Rattle.unit_sorts.specs.Notes.{NotedIn};

use rules_unit::{Parts, Role, Row, Sort, Statement, Use, Want};
use unit_decode::Coded;

// The use of a number at an offset, which is read.
fn read_number(e: u16) -> Option<Use>
    ensures { result ≡ use_of role.Numbers e }
{
    Some(Use {
        want: Want::Number,
        at: e,
        written: false,
    })
}

// How a part of a statement uses an expression, by its role; None where it uses none.
fn use_of(role: Role, x: u16) -> Option<Use>
    ensures { result ≡ use_of role x }
{
    match role {
        Role::Written(want) => Some(Use {
            want,
            at: x,
            written: true,
        }),
        Role::Read(want) => Some(Use {
            want,
            at: x,
            written: false,
        }),
        Role::Numbers => read_number(x),
        Role::Unused | Role::Target | Role::Table | Role::End | Role::Never => None,
    }
}

// How many uses a statement has whose row is given, with those that are None: one for each part, and two more where b is the first of three numbers
// in a row. The unit and the statement are named for the contract alone; a `Coded` would ask that the parts fill the unit, and the function asks nothing.
pub fn count_of(unit: &[u8], parts: Parts, row: Row, s: Statement) -> usize
    ensures { result ≡ length (uses_by (code_of unit.now parts) row s) }
{
    if matches!(row.b, Role::Numbers) { 5 } else { 3 }
}

// The use k of the numbers behind the one at an offset, in a row with it; None where there is none. Where they start is noted.
#[tactic(auto, using(crate::proofs::Uses::behind_laws))]
fn number_behind(coded: &Coded, rows: &mut [u16], e: u16, k: usize) -> Option<Use>
    requires { RowsIn coded.now rows.old }
    ensures value { result ≡ get_or (more_of (code_in coded.now) role.Numbers e) k None }
    ensures rows_of_2 { RowsIn coded.now rows.new }
{
    let second = coded.next_noted(rows, e);
    match k {
        0 => read_number(second),
        1 => read_number(coded.next_noted(rows, second)),
        _ => None,
    }
}

// The use k of a statement whose row is given, from 0, in the order in which they are worked out. Where the numbers in a row start is noted.
#[tactic(auto, using(crate::proofs::Uses::use_laws))]
pub fn use_by(coded: &Coded, rows: &mut [u16], row: Row, s: Statement, k: usize) -> Option<Use>
    requires rows_of { RowsIn coded.now rows.old }
    requires k_in_bounds { k < length (uses_by (code_in coded.now) row s) }
    ensures value { result ≡ get_or (uses_by (code_in coded.now) row s) k None }
    ensures rows_of_2 { RowsIn coded.now rows.new }
{
    match k {
        0 => use_of(row.a, s.a),
        1 => use_of(row.b, s.b),
        2 => use_of(row.c, s.c),
        _ => number_behind(coded, rows, s.b, k - 3),
    }
}

// Whether an expression of the sort k is of the sort wanted.
fn suits(w: Want, k: Sort) -> bool
    ensures { result ≡ suits w k }
{
    match w {
        Want::Place => matches!(k, Sort::Decimal | Sort::Alpha),
        Want::DecimalPlace => matches!(k, Sort::Decimal),
        Want::AlphaPlace => matches!(k, Sort::Alpha),
        Want::Source => !matches!(k, Sort::Wrong),
        Want::Number => matches!(k, Sort::Number | Sort::Decimal), // An alpha literal is no number.
        Want::AlphaSource => matches!(k, Sort::Text | Sort::Alpha),
    }
}

// Whether the expression of a use is well formed and of the sort wanted. What is found of it is noted.
fn use_good(coded: &Coded, notes: &mut [u8], u: Option<Use>) -> bool
    requires { NotedIn coded.now notes.old }
    ensures value { result ≡ useb (code_in coded.now) u }
    ensures noted_of_2 { NotedIn coded.now notes.new }
{
    match u {
        None => true,
        Some(u) => suits(u.want, unit_sorts::sort_at(coded, notes, u.at)),
    }
}

// Whether the expressions of a statement whose row is given are well formed and of the sorts that it wants. What is found of them is noted.
#[tactic(auto, using(crate::proofs::Uses::loop_laws))]
fn uses_good_by(coded: &Coded, notes: &mut [u8], rows: &mut [u16], row: Row, s: Statement) -> bool
    requires noted_of { NotedIn coded.now notes.old }
    requires rows_of { RowsIn coded.now rows.old }
    ensures value { result ≡ usesb (code_in coded.now) (uses_by (code_in coded.now) row s) }
    ensures noted_of_2 { NotedIn coded.now notes.new }
    ensures rows_of_2 { RowsIn coded.now rows.new }
{
    let count = count_of(coded.unit, coded.parts, row, s);
    for k in 0..count {
        if !use_good(coded, notes, use_by(coded, rows, row, s, k)) {
            return false;
        }
    }
    true
}

// The same of a statement, whose row is looked up once.
#[tactic(auto, using(crate::proofs::Uses::uses_own))]
pub fn uses_good(coded: &Coded, notes: &mut [u8], rows: &mut [u16], s: Statement) -> bool
    requires noted_of { NotedIn coded.now notes.old }
    requires rows_of { RowsIn coded.now rows.old }
    ensures value { result ≡ usesb (code_in coded.now) (uses_of (code_in coded.now) s) }
    ensures noted_of_2 { NotedIn coded.now notes.new }
    ensures rows_of_2 { RowsIn coded.now rows.new }
{
    let row = unit_decode::row_of(unit_decode::verb_of(s.code));
    uses_good_by(coded, notes, rows, row, s)
}
