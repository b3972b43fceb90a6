// What a statement of a unit that passed its check breaks first of the fence rules: its uses in order, their references left to right. Items that
// keep the rules to the end of their expression are noted, once as read and once as of a place that is written, so that no two expressions that
// come to the same item walk on from it.
#![tactic(auto)]

ghost use Rattle.std.specs.Prelude.{◌≡◌, true, ◌<◌, Ok};
ghost use Rattle.unit_decode.specs.Units.{code_in, RowsIn, expressions_in};
ghost use Rattle.rules_unit.specs.Decode.{SoundDialect, items_at};
ghost use Rattle.rules_unit.specs.Expressions.{useb};
ghost use Rattle.rules_unit.specs.Table.{uses_by};
ghost use Rattle.rules_unit.specs.Checks.{check_of};
ghost use Rattle.rules_fence.specs.declared.Seen.TheVariants as seen;
ghost use Rattle.rules_fence.specs.Fence.{destb};
ghost use Rattle.rules_fence.specs.Breaches.{keepsb, breach_from, use_breach, uses_breach, breach_of};
ghost use Rattle.unit_decode.specs.Units.{expressions_in};
ghost use Rattle.fence_decimals.specs.Ahead.{Ahead};
ghost use Rattle.fence_statements.specs.Asked.{AllKnown, AllGood};
ghost use Rattle.fence_statements.specs.Notes.{notedb, note_at, Kept, KeptIf, Both, BothIf};

use rules_fence::{Breach, Seen};
use rules_unit::{Parts, Row, Statement, Use};
use unit_decode::Coded;

// Whether no rule is broken.
pub fn keeps(b: Breach) -> bool
    ensures { result ≡ keepsb b }
{
    matches!(b, Breach::None)
}

// Whether a reference that ends before the offset `next` is a destination: the last item of a place that is written.
pub fn aimed(dest: bool, es: &[u8], next: usize) -> bool
    ensures { result ≡ destb dest (items_at es.now next) }
{
    dest && run_items::ends(es, next)
}

// ---- notes

// Whether the items from an offset on are noted, where the bounds s stand before them. Past the end of the list none are.
fn noted(notes: &[u8], at: usize, s: Seen) -> bool
    ensures { result ≡ notedb notes.now at s }
{
    // What is noted is of items before which no bounds stand.
    !fence_bounds::has_one(s) && at < notes.len() && 0 < notes[at]
}

// Notes the items from an offset on, where no bounds stand before them. Past the end of the list nothing is noted.
fn note(notes: &mut [u8], at: usize, s: Seen)
    ensures { notes.new ≡ note_at notes.old at s }
{
    if !fence_bounds::has_one(s) && at < notes.len() {
        notes[at] = 1;
    }
}

// ---- expressions and statements

// What the expression at an offset of the expressions es breaks first. The items that it comes to are noted; if it breaks a rule, what is noted
// is of no use.
fn breach_in(
    coded: &Coded,
    ahead: &[u16],
    dest: bool,
    es: &[u8],
    notes: &mut [u8],
    at: usize,
) -> Breach
    requires sound_dialect { SoundDialect coded.now.parts.dialect }
    requires ahead { Ahead (code_in coded.now) ahead.now }
    requires all_known { AllKnown (code_in coded.now) (items_at es.now at) }
    requires kept { Kept (code_in coded.now) dest es.now notes.old }
    ensures value { result ≡ breach_from (code_in coded.now) dest seen.Nothing (items_at es.now at) }
    ensures kept_if { KeptIf result (code_in coded.now) dest es.now notes.new }
{
    let mut s = Seen::Nothing;
    let mut i = at;
    // The next offset depends on the item that was read: no range steps so.
    while i < es.len() {
        if noted(notes, i, s) {
            return Breach::None;
        }
        let item = unit_decode::item_at(es, i);
        if unit_decode::closes(item) {
            return Breach::None;
        }
        let next = i + unit_decode::width_of(item);
        let b = fence_references::item_breach(coded, ahead, aimed(dest, es, next), s, item);
        if !keeps(b) {
            return b;
        }
        note(notes, i, s);
        s = fence_bounds::seen_after(coded, s, item);
        i = next;
    }
    Breach::None
}

// What the expression at an offset breaks first.
fn breach_at(coded: &Coded, ahead: &[u16], dest: bool, notes: &mut [u8], e: u16) -> Breach
    requires sound_dialect { SoundDialect coded.now.parts.dialect }
    requires ahead { Ahead (code_in coded.now) ahead.now }
    requires all_known { AllKnown (code_in coded.now) ((code_in coded.now).items e) }
    requires kept { Kept (code_in coded.now) dest (expressions_in coded.now) notes.old }
    ensures value { result ≡ breach_from (code_in coded.now) dest seen.Nothing ((code_in coded.now).items e) }
    ensures kept_if { KeptIf result (code_in coded.now) dest (expressions_in coded.now) notes.new }
{
    breach_in(
        coded,
        ahead,
        dest,
        coded.expressions(),
        notes,
        usize::from(e),
    )
}

// What the expression at an offset breaks first, as a place that is written or as one that is read.
fn breach_as(
    coded: &Coded,
    ahead: &[u16],
    reads: &mut [u8],
    writes: &mut [u8],
    written: bool,
    e: u16,
) -> Breach
    requires sound_dialect { SoundDialect coded.now.parts.dialect }
    requires ahead { Ahead (code_in coded.now) ahead.now }
    requires all_known { AllKnown (code_in coded.now) ((code_in coded.now).items e) }
    requires both { Both coded.now reads.old writes.old }
    ensures value { result ≡ breach_from (code_in coded.now) written seen.Nothing ((code_in coded.now).items e) }
    ensures both_if { BothIf result coded.now reads.new writes.new }
{
    if written {
        return breach_at(coded, ahead, true, writes, e);
    }
    breach_at(coded, ahead, false, reads, e)
}

// What a use of an expression breaks first.
fn use_breach(
    coded: &Coded,
    ahead: &[u16],
    reads: &mut [u8],
    writes: &mut [u8],
    u: Option<Use>,
) -> Breach
    requires sound_dialect { SoundDialect coded.now.parts.dialect }
    requires ahead { Ahead (code_in coded.now) ahead.now }
    requires u_value { useb (code_in coded.now) u ≡ true }
    requires both { Both coded.now reads.old writes.old }
    ensures value { result ≡ use_breach (code_in coded.now) u }
    ensures both_if { BothIf result coded.now reads.new writes.new }
{
    match u {
        None => Breach::None,
        Some(u) => breach_as(coded, ahead, reads, writes, u.written, u.at),
    }
}

// What the uses of a statement whose row is given break first.
fn breach_by(
    coded: &Coded,
    ahead: &[u16],
    reads: &mut [u8],
    writes: &mut [u8],
    rows: &mut [u16],
    row: Row,
    s: Statement,
) -> Breach
    requires sound_dialect { SoundDialect coded.now.parts.dialect }
    requires ahead { Ahead (code_in coded.now) ahead.now }
    requires all_good { AllGood (code_in coded.now) (uses_by (code_in coded.now) row s) }
    requires both { Both coded.now reads.old writes.old }
    requires rows_of { RowsIn coded.now rows.old }
    ensures value { result ≡ uses_breach (code_in coded.now) (uses_by (code_in coded.now) row s) }
    ensures both_if { BothIf result coded.now reads.new writes.new }
    ensures rows_of_2 { RowsIn coded.now rows.new }
{
    let count = unit_uses::count_of(coded.unit, coded.parts, row, s);
    for k in 0..count {
        let u = unit_uses::use_by(coded, rows, row, s, k);
        let b = use_breach(coded, ahead, reads, writes, u);
        if !keeps(b) {
            return b;
        }
    }
    Breach::None
}

// What the statement i of a unit that passed its check breaks first: its uses in order, their references left to right.
pub fn breach_of(
    coded: &Coded,
    ahead: &[u16],
    reads: &mut [u8],
    writes: &mut [u8],
    rows: &mut [u16],
    i: u16,
) -> Breach
    requires unit_value { check_of coded.now.unit.now ≡ Ok coded.now.parts }
    requires ahead { Ahead (code_in coded.now) ahead.now }
    requires i_lt_n { i < coded.now.parts.n }
    requires both { Both coded.now reads.old writes.old }
    requires rows_of { RowsIn coded.now rows.old }
    ensures value { result ≡ breach_of (code_in coded.now) i }
    ensures both_if { BothIf result coded.now reads.new writes.new }
    ensures rows_of_2 { RowsIn coded.now rows.new }
{
    let s = coded.statement(i);
    let row = unit_decode::row_of(unit_decode::verb_of(s.code));
    breach_by(coded, ahead, reads, writes, rows, row, s)
}
