// What a statement does at a place that is found: what SET moves there, what INCR and DECR count, what UPCASE and LOCASE change. Data is only read here.
#![tactic(auto)]

ghost use Rattle.std.specs.Prelude.{◌≡◌, ◌+◌, ◌^◌, ◌≤◌, length, Ok};
ghost use Rattle.unit_decode.specs.Units.{code_in};
ghost use Rattle.rules.specs.Values.{Val};
ghost use Rattle.rules_unit.specs.Decode.{SoundDialect, code_of};
ghost use Rattle.rules_run.specs.declared.Worked.TheVariants as worked;
ghost use Rattle.rules_run.specs.Evaluation.{Within};
ghost use Rattle.rules_run.specs.Turns.{move_number, move_worked, counted, count_at, case_at};

use rules::Fault;
use rules_run::{Turn, Worked, Write};
use rules_unit::Parts;
use unit_decode::Coded;

// ---- SET

// A number that moves: it is written to a decimal destination, and shown in an alpha one.
fn move_number(decimal: bool, start: usize, len: usize, v: i64) -> Result<Turn, Fault>
    ensures { result ≡ move_number decimal start len v }
{
    if decimal {
        return rules_run::stores(Write::Number {
            start,
            len,
            value: v,
        });
    }
    rules_run::stores(Write::Show {
        start,
        len,
        value: v,
    })
}

// Data that moves: a decimal place is read, an alpha place is read as a number for a decimal destination and moved for an alpha one.
fn move_place(
    coded: &Coded,
    bytes: &[u8],
    decimal: bool,
    start: usize,
    len: usize,
    number: bool,
    from: usize,
    count: usize,
) -> Result<Turn, Fault>
    requires sound_dialect { SoundDialect coded.now.parts.dialect }
    requires count_in_bounds { from + count ≤ length bytes.now }
    ensures { result ≡ move_worked (code_in coded.now) bytes.now decimal start len (Ok (worked.Place number from count)) }
{
    if number {
        let v = run_items::read_at(coded.parts, bytes, from, count)?;
        return move_number(decimal, start, len, v);
    }
    if decimal {
        let end = from + count;
        let v = text::from_alpha(coded.parts.dialect.top, &bytes[from..end])?;
        return move_number(true, start, len, v);
    }
    rules_run::stores(Write::Move {
        start,
        len,
        from,
        count,
    })
}

// An alpha literal that moves: it is read as a number for a decimal destination. The data is named for the contract alone.
fn move_literal(
    coded: &Coded,
    bytes: &[u8],
    decimal: bool,
    start: usize,
    len: usize,
    place: u16,
    count: u16,
) -> Result<Turn, Fault>
    requires sound_dialect { SoundDialect coded.now.parts.dialect }
    requires count_in_bounds { place + count ≤ length (code_in coded.now).literals }
    ensures { result ≡ move_worked (code_in coded.now) bytes.now decimal start len (Ok (worked.Text place count)) }
{
    if decimal {
        let from = unit_decode::long(place);
        let end = from + unit_decode::long(count);
        let v = text::from_alpha(coded.parts.dialect.top, &coded.literals()[from..end])?;
        return move_number(true, start, len, v);
    }
    rules_run::stores(Write::Literal {
        start,
        len,
        place,
        count,
    })
}

// The source of a SET, once the place is found.
pub fn move_worked(
    coded: &Coded,
    bytes: &[u8],
    decimal: bool,
    start: usize,
    len: usize,
    w: Result<Worked, Fault>,
) -> Result<Turn, Fault>
    requires sound_dialect { SoundDialect coded.now.parts.dialect }
    requires within { Within (code_in coded.now) (length bytes.now) w }
    ensures { result ≡ move_worked (code_in coded.now) bytes.now decimal start len w }
{
    match w? {
        Worked::Number(v) => move_number(decimal, start, len, v),
        Worked::Place {
            decimal: number,
            start: from,
            len: count,
        } => move_place(coded, bytes, decimal, start, len, number, from, count),
        Worked::Text { place, len: count } => move_literal(
            coded, bytes, decimal, start, len, place, count,
        ),
    }
}

// ---- INCR and DECR

// One more, or one less.
fn count_value(top: u64, up: bool, v: i64) -> Result<i64, Fault>
    requires { Val (10 ^ 18) v }
    ensures { result ≡ counted top up (Ok v) }
{
    if up {
        return number::add(top, v, 1);
    }
    number::subtract(top, v, 1)
}

// INCR or DECR of a place that was found: it is read before the sum. The unit is named for the contract alone; a `Coded` would ask that the parts fill the unit,
// and the function asks no such thing.
pub fn count_at(
    unit: &[u8],
    parts: Parts,
    bytes: &[u8],
    up: bool,
    decimal: bool,
    start: usize,
    len: usize,
) -> Result<Turn, Fault>
    requires sound_dialect { SoundDialect parts.dialect }
    requires len_in_bounds { start + len ≤ length bytes.now }
    ensures { result ≡ count_at (code_of unit.now parts) bytes.now up decimal start len }
{
    if !decimal {
        return Err(Fault::Malformed);
    }
    let v = run_items::read_at(parts, bytes, start, len)?;
    move_number(true, start, len, count_value(parts.dialect.top, up, v)?)
}

// ---- UPCASE and LOCASE

// UPCASE or LOCASE of a place that was found, which is alpha.
pub fn case_at(upper: bool, decimal: bool, start: usize, len: usize) -> Result<Turn, Fault>
    ensures { result ≡ case_at upper decimal start len }
{
    if decimal {
        return Err(Fault::Malformed);
    }
    rules_run::stores(Write::Case { start, len, upper })
}
