// The check of a coded unit (1 to 5).
#![tactic(auto)]

ghost use Rattle.std.specs.Prelude.{◌≡◌, ◌+◌, ◌<◌, ◌≤◌};
ghost use Rattle.unit_decode.specs.Units.{code_in, RowsIn};
ghost use Rattle.rules_unit.specs.Checks.{is_goto, gotosb, tableb, is_loop_end, endb, roleb, rowb, shapeb, found_of, statements_from, parts_check, check_of};
ghost use Rattle.unit_sorts.specs.Notes.{NotedIn};

use rules_unit::{Found, Parts, Refusal, Role, Row, Statement};
use unit_decode::Coded;

// ---- 5

// Whether a statement is a GOTO.
fn is_goto(s: Statement) -> bool
    ensures { result ≡ is_goto s }
{
    s.code == 7
}

// Whether the n statements from i on are GOTO statements.
#[tactic(auto, using(crate::proofs::Scans::goto_laws))]
fn gotos(coded: &Coded, i: u16, n: u16) -> bool
    requires { i + n ≤ coded.now.parts.n }
    ensures { result ≡ gotosb (code_in coded.now) n i }
{
    for j in i..i + n {
        if !is_goto(coded.statement(j)) {
            return false;
        }
    }
    true
}

// Whether n is a count for the computed GOTO at i, and as many GOTO statements stand behind it.
#[tactic(auto, unfolding(rules_unit::specs::Checks::tableb))]
fn table_good(coded: &Coded, i: u16, n: u16) -> bool
    requires { i < coded.now.parts.n }
    ensures { result ≡ tableb (code_in coded.now) i n }
{
    1 <= n
        && n <= 255
        && usize::from(i) + usize::from(n) < usize::from(coded.parts.n)
        && gotos(coded, i + 1, n)
}

// Whether a statement is a loop end.
fn is_loop_end(s: Statement) -> bool
    ensures { result ≡ is_loop_end s }
{
    s.code == 15
}

// Whether the statement `end` is the loop end of a FOR at i: it stands behind it, inside the unit.
#[tactic(auto, unfolding(rules_unit::specs::Checks::endb))]
fn end_good(coded: &Coded, i: u16, end: u16) -> bool
    ensures { result ≡ endb (code_in coded.now) i end }
{
    i < end && end < coded.parts.n && is_loop_end(coded.statement(end))
}

// Whether the part x of the statement at i is right, by its role.
fn role_good(coded: &Coded, i: u16, role: Role, x: u16) -> bool
    requires { i < coded.now.parts.n }
    ensures { result ≡ roleb (code_in coded.now) i role x }
{
    match role {
        Role::Unused => x == 0,
        Role::Written(_) | Role::Read(_) | Role::Numbers => true,
        Role::Target => x < coded.parts.n,
        Role::Table => table_good(coded, i, x),
        Role::End => end_good(coded, i, x),
        Role::Never => false,
    }
}

// Whether the three parts of the statement at i are right.
#[tactic(auto, unfolding(rules_unit::specs::Checks::rowb))]
fn row_good(coded: &Coded, i: u16, row: Row, s: Statement) -> bool
    requires { i < coded.now.parts.n }
    ensures { result ≡ rowb (code_in coded.now) i row s }
{
    role_good(coded, i, row.a, s.a)
        && role_good(coded, i, row.b, s.b)
        && role_good(coded, i, row.c, s.c)
}

// Check 5 of the statement i.
#[tactic(auto, unfolding(rules_unit::specs::Checks::shapeb))]
fn shape_good(coded: &Coded, i: u16) -> bool
    requires { i < coded.now.parts.n }
    ensures { result ≡ shapeb (code_in coded.now) i }
{
    let s = coded.statement(i);
    s.zero == 0
        && row_good(
            coded,
            i,
            unit_decode::row_of(unit_decode::verb_of(s.code)),
            s,
        )
}

// ---- the check

// What is found of the statement i: 5 before 4. What is found of its expressions is noted.
#[tactic(auto, unfolding(rules_unit::specs::Checks::found_of))]
fn found_of(coded: &Coded, notes: &mut [u8], rows: &mut [u16], i: u16) -> Found
    requires noted_of { NotedIn coded.now notes.old }
    requires rows_of { RowsIn coded.now rows.old }
    requires i_lt_n { i < coded.now.parts.n }
    ensures value { result ≡ found_of (code_in coded.now) i }
    ensures noted_of_2 { NotedIn coded.now notes.new }
    ensures rows_of_2 { RowsIn coded.now rows.new }
{
    let s = coded.statement(i);
    if !shape_good(coded, i) {
        return Found::BadShape;
    }
    if !unit_uses::uses_good(coded, notes, rows, s) {
        return Found::BadExpression;
    }
    Found::Good
}

// Checks 4 and 5, statement by statement, with notes of the sorts that are found, and of the rows.
fn statements_noted(coded: &Coded, notes: &mut [u8], rows: &mut [u16]) -> Result<Parts, Refusal>
    requires noted_of { NotedIn coded.now notes.old }
    requires rows_of { RowsIn coded.now rows.old }
    ensures { result ≡ statements_from coded.now.unit.now coded.now.parts coded.now.parts.n 0 }
{
    for i in 0..coded.parts.n {
        match found_of(coded, notes, rows, i) {
            Found::Good => {}
            Found::BadShape => return Err(Refusal::BadStatement(i)),
            Found::BadExpression => return Err(Refusal::BadExpression(i)),
        }
    }
    Ok(coded.parts)
}

// Whether a unit has a FOR; its answer decides only how much room there is for notes.
fn has_for(coded: &Coded) -> bool {
    (0..coded.parts.n).any(|i| coded.statement(i).code == 14)
}

// Checks 4 and 5 of a unit with a FOR. There are two notes for each offset of the expressions, and nothing is noted yet.
fn statements_rows(coded: &Coded) -> Result<Parts, Refusal>
    ensures { result ≡ statements_from coded.now.unit.now coded.now.parts coded.now.parts.n 0 }
{
    let mut notes = [0u8; 16384];
    let mut rows = [0u16; 16384];
    statements_noted(coded, &mut notes, &mut rows)
}

// Checks 4 and 5. Where there is no FOR, no rows are noted.
fn statements(coded: &Coded) -> Result<Parts, Refusal>
    ensures { result ≡ statements_from coded.now.unit.now coded.now.parts coded.now.parts.n 0 }
{
    if has_for(coded) {
        statements_rows(coded)
    } else {
        let mut notes = [0u8; 16384];
        let mut rows = [0u16; 1];
        statements_noted(coded, &mut notes, &mut rows)
    }
}

// Checks 2 to 5 of a unit that its parts fill.
#[tactic(auto, unfolding(rules_unit::specs::Checks::parts_check))]
fn parts_check(coded: &Coded) -> Result<Parts, Refusal>
    ensures { result ≡ parts_check coded.now.unit.now coded.now.parts }
{
    if !unit_fields::ranges(coded.parts) {
        return Err(Refusal::BadRange);
    }
    let good = unit_fields::good_fields(coded);
    if good < coded.parts.f {
        return Err(Refusal::BadField(good));
    }
    statements(coded)
}

// Checks 1 to 5.
pub fn check(unit: &[u8]) -> Result<Parts, Refusal>
    ensures { result ≡ check_of unit.now }
{
    if !unit_fields::filled(unit) {
        return Err(Refusal::NotFilled);
    }
    let parts = unit_decode::parts_of(unit);
    parts_check(&Coded {
        unit,
        parts,
        tail: unit_decode::tail_of(unit, parts),
    })
}
