// The alpha literal of a statement.
#![tactic(auto)]

ghost use Rattle.std.specs.Prelude.{◌≡◌, ◌∷◌, ◌<◌, Ok};
ghost use Rattle.unit_decode.specs.Units.{code_in};
ghost use Rattle.rules_unit.specs.Decode.{literals_at, items_at};
ghost use Rattle.rules_unit.specs.Literals.{nowhere, lone_text, stretch_by, stretch_in, stretch_of, literal_of};
ghost use Rattle.rules_unit.specs.declared.Item.TheVariants as item;

use rules_unit::{Item, Parts, Statement, Stretch};
use unit_decode::Coded;

// No stretch: none of the unit.
fn empty_stretch() -> Stretch
    ensures { result ≡ nowhere }
{
    Stretch { at: 0, len: 0 }
}

// The stretch of an alpha literal whose item is followed by the end of the expression, which is looked for at the offset.
#[tactic(auto, using(crate::proofs::Stretches::last_laws))]
fn last_text(s: &[u8], at: usize, from: usize, place: u16, len: u16) -> Stretch
    requires { from < 1000000 }
    ensures { result ≡ lone_text from (item.Text place len ∷ items_at s.now at) }
{
    match unit_decode::item_at(s, at) {
        Item::End => Stretch {
            at: from + usize::from(place),
            len: usize::from(len),
        },
        _ => empty_stretch(),
    }
}

// The stretch of the expression at an offset, where that is a lone alpha literal; the literals start at `from`.
#[tactic(auto, using(crate::proofs::Stretches::lone_laws))]
fn lone_text(s: &[u8], at: usize, from: usize) -> Stretch
    requires { (at < 65536) × (from < 1000000) }
    ensures { result ≡ lone_text from (items_at s.now at) }
{
    match unit_decode::item_at(s, at) {
        Item::Text { place, len } => last_text(s, at + 5, from, place, len),
        _ => empty_stretch(),
    }
}

// The stretch of the expression at an offset of the unit's expressions.
fn source_text(coded: &Coded, source: u16) -> Stretch
    ensures { result ≡ lone_text (literals_at coded.now.parts) ((code_in coded.now).items source) }
{
    let from = unit_decode::literals_offset(coded.parts);
    lone_text(coded.expressions(), usize::from(source), from)
}

// The stretch of a statement: only a SET has one.
#[tactic(auto, using(crate::proofs::Stretches::by_none, crate::proofs::Stretches::by_set))]
fn stretch_by(coded: &Coded, s: Statement) -> Stretch
    ensures { result ≡ stretch_by (code_in coded.now) (literals_at coded.now.parts) s }
{
    if s.code == 1 {
        source_text(coded, s.b)
    } else {
        empty_stretch()
    }
}

// The stretch of the statement i of a unit that is checked.
#[tactic(auto, using(crate::proofs::Stretches::in_past, crate::proofs::Stretches::in_by))]
fn stretch_in(coded: &Coded, i: usize) -> Stretch
    ensures { result ≡ stretch_in coded.now.unit.now i (Ok coded.now.parts) }
{
    if i < usize::from(coded.parts.n) {
        stretch_by(coded, coded.statement(i as u16))
    } else {
        empty_stretch()
    }
}

// Where the alpha literal of the statement i lies in the unit; at 0, of no bytes, where there is none.
pub fn stretch(unit: &[u8], i: usize) -> Stretch
    ensures { result ≡ stretch_of unit.now i }
{
    match unit_check::check(unit) {
        Ok(parts) => stretch_in(
            &Coded {
                unit,
                parts,
                tail: unit_decode::tail_of(unit, parts),
            },
            i,
        ),
        Err(_) => empty_stretch(),
    }
}

// The alpha literal of the statement i: that stretch of the unit itself, and none of it where there is none.
pub fn literal(unit: &[u8], i: usize) -> &[u8]
    ensures { result.now ≡ literal_of unit.now i }
{
    let s = stretch(unit, i);
    let end = s.at + s.len;
    &unit[s.at..end]
}
