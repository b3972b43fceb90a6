// The checks of a coded unit that need no expression: its length, the ranges of its parts and its field entries (1 to 3).
#![tactic(auto)]

ghost use Rattle.std.specs.Prelude.{◌≡◌, ◌+◌, ◌<◌};
ghost use Rattle.unit_decode.specs.Units.{code_in};
ghost use Rattle.rules_unit.specs.Codes.{is_bad, is_record};
ghost use Rattle.rules_unit.specs.Decode.{wrong_mark};
ghost use Rattle.rules_unit.specs.Checks.{filledb, rangesb, choiceb, entryb, floor_after, good_fields};

use rules_unit::{Dialect, Kind, Parts};
use unit_decode::Coded;

// ---- 1 and 2

// Whether a mark is wrong.
fn wrong_mark(mark: Option<Dialect>) -> bool
    ensures { result ≡ wrong_mark mark }
{
    mark.is_none()
}

// Check 1.
#[tactic(auto, unfolding(rules_unit::specs::Checks::filledb))]
pub fn filled(u: &[u8]) -> bool
    ensures { result ≡ filledb u.now }
{
    let n = u.len();
    12 <= n
        && n <= 57353
        && !wrong_mark(unit_decode::mark_of(u))
        && unit_decode::full_length(unit_decode::parts_of(u)) == n
}

// Check 2.
#[tactic(auto, unfolding(rules_unit::specs::Checks::rangesb))]
pub fn ranges(p: Parts) -> bool
    ensures { result ≡ rangesb p }
{
    1 <= p.d && p.d <= 16383 && p.f <= 512 && p.e <= 16383 && p.p <= 4095 && 1 <= p.n && p.n <= 2048
}

// ---- 3

// Whether a field's kind is none of the three.
fn is_bad(kind: Kind) -> bool
    ensures { result ≡ is_bad kind }
{
    matches!(kind, Kind::Bad)
}

// Whether a field's kind is record.
fn is_record(kind: Kind) -> bool
    ensures { result ≡ is_record kind }
{
    matches!(kind, Kind::Record)
}

// Whether a field's zero byte is a choice: loose or strict.
#[tactic(auto, unfolding(rules_unit::specs::Checks::choiceb))]
fn is_choice(zero: u8) -> bool
    ensures { result ≡ choiceb zero }
{
    zero == 0 || zero == 128
}

// Whether the field entry i keeps its rule. The floor is the end of the last alpha or decimal entry before it.
#[tactic(auto, unfolding(rules_unit::specs::Checks::entryb, rules_unit::specs::Checks::choiceb))]
fn entry_good(coded: &Coded, i: u16, floor: usize) -> bool
    requires { i < coded.now.parts.f }
    ensures { result ≡ entryb (code_in coded.now) i floor }
{
    let field = coded.field(i);
    let kind = field.kind;
    !is_bad(kind)
        && is_choice(field.zero)
        && 1 <= field.size
        && 1 <= field.count
        && unit_decode::end_of(field) <= usize::from(coded.parts.d)
        && if is_record(kind) {
            field.count == 1
        } else {
            // The offset rises, and no byte is shared.
            floor <= usize::from(field.offset)
                && (!unit_decode::is_decimal(kind) || field.size <= coded.parts.dialect.limit)
        }
}

// The floor of the entry after i.
fn floor_after(coded: &Coded, i: u16, floor: usize) -> usize
    requires { i < coded.now.parts.f }
    ensures { result ≡ floor_after (code_in coded.now) i floor }
{
    let field = coded.field(i);
    if is_record(field.kind) {
        floor
    } else {
        unit_decode::end_of(field)
    }
}

// The first field entry that breaks its rule; the number of entries where none does.
#[tactic(auto, using(crate::proofs::Entries::fields_loop))]
pub fn good_fields(coded: &Coded) -> u16
    ensures { result ≡ good_fields (code_in coded.now) coded.now.parts.f 0 0 }
{
    let mut floor: usize = 0;
    for i in 0..coded.parts.f {
        if !entry_good(coded, i, floor) {
            return i;
        }
        floor = floor_after(coded, i, floor);
    }
    coded.parts.f
}
