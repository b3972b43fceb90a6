// The table of a unit's fields: a row for each with what its first elements hold, and where all is told further rows with the others.
ghost use Rattle.std.specs.Prelude.{◌<◌};

use crate::lines::{Line, part};
use crate::parts::Unit;
use crate::phrase::put_name;
use crate::say::Host;
use rules_unit::{Field, Kind, Rule};

// The columns of the table: where a field's kind and its bytes begin, where its size and its count end, where what is stored begins, and where its value in
// figures does.
#[derive(Clone, Copy)]
struct Columns {
    kind: usize,
    span: usize,
    size: usize,
    count: usize,
    stored: usize,
    value: usize,
}

// The table of a unit's fields over some data.
#[derive(Clone, Copy)]
struct Table<'a> {
    unit: Unit<'a>,
    data: &'a [u8],
    columns: Columns,
}

// The least column of the kinds, and how far behind it the bytes begin, without strict fields and with them.
const KIND: usize = 7;

const SPAN: usize = 9;

const STRICT_SPAN: usize = 16;

// The most columns that the stored characters of a decimal field take in a row, and those of another.
const DECIMAL_ROOM: usize = 28;

const ALPHA_ROOM: usize = 60;

// The least room of the stored characters, that of their head.
const STORED_ROOM: usize = 6;

// ---- elements

// How many of a field's elements a row has: those that fit a room, in quotes and with a space between two; one at the least.
fn on_row(field: Field) -> usize
    ensures { 0 < result }
{
    let kind = field.kind;
    let room = if unit_decode::is_decimal(kind) {
        DECIMAL_ROOM
    } else {
        ALPHA_ROOM
    };
    let cell = usize::from(field.size) + 3;
    let fit = (room + 1) / cell;
    fit.min(usize::from(field.count)).max(1)
}

// Where the element i of a field starts: where those before it end.
pub fn start_of(field: Field, i: usize) -> usize {
    let before = i.saturating_mul(usize::from(field.size));
    before.saturating_add(usize::from(field.offset))
}

// The element i of a field.
pub fn element_of(data: &[u8], field: Field, i: usize) -> &[u8] {
    part(data, start_of(field, i), usize::from(field.size))
}

// How many bytes a field has.
pub fn len_of(field: Field) -> usize {
    unit_decode::end_of(field).saturating_sub(usize::from(field.offset))
}

// Puts an element in quotes; of a longer one than the room only its first characters, and two dots.
fn put_element(l: &mut Line, s: &[u8]) {
    l.quoted(part(s, 0, ALPHA_ROOM));
    if ALPHA_ROOM < s.len() {
        l.text(b"..");
    }
}

// Puts a decimal in figures.
fn put_figures(l: &mut Line, unit: Unit<'_>, s: &[u8]) {
    match unit.number(s) {
        Some(v) => write!(l, "{v}"),
        None => l.text(b"no number"),
    }
}

// Puts the elements of a field that a row has from the element i on, each as it is put alone, with a space between two.
fn put_elements<F: Fn(&mut Line, &[u8])>(l: &mut Line, data: &[u8], field: Field, i: usize, put: F)
    requires { F.IsAlwaysCallable put }
{
    let start = start_of(field, i);
    let len = unit_decode::end_of(field).saturating_sub(start);
    let size = usize::from(field.size).max(1);
    for s in part(data, start, len).chunks(size).take(on_row(field)) {
        put(l, s);
        l.byte(b' ');
    }
    l.cut(l.len().saturating_sub(1));
}

// How many columns the stored characters of a decimal field take.
fn stored_width(unit: Unit<'_>, data: &[u8], field: Field) -> usize {
    let kind = field.kind;
    if !unit_decode::is_decimal(kind) {
        return 0;
    }
    let mut l = unit.line();
    put_elements(&mut l, data, field, 0, put_element);
    l.width()
}

// Whether a field is strict.
pub fn is_strict(field: Field) -> bool {
    matches!(run_spans::rule_of(field), Rule::Strict)
}

// How many columns the name of the field i takes.
fn name_width(unit: Unit<'_>, i: u16) -> usize {
    let mut l = Line::new();
    put_name(&mut l, unit, unit.field(i), i);
    l.width()
}

// The columns of a table whose kinds and bytes begin at the columns given, where stored characters take so many columns.
fn columns_from(kind: usize, span: usize, width: usize) -> Columns {
    let stored = span.saturating_add(26);
    Columns {
        kind,
        span,
        size: span.saturating_add(17),
        count: span.saturating_add(24),
        stored,
        value: stored.saturating_add(2).saturating_add(width),
    }
}

// The columns of a unit's table.
fn columns_of(unit: Unit<'_>, data: &[u8]) -> Columns {
    let fields = 0..unit.coded.parts.f;
    let widths = fields.map(|i| stored_width(unit, data, unit.field(i)));
    let width = widths.max().unwrap_or(0).max(STORED_ROOM);
    let names = (0..unit.coded.parts.f).map(|i| name_width(unit, i));
    let longest = names.max().unwrap_or(0);
    let kind = longest.saturating_add(2).max(KIND);
    let strict = (0..unit.coded.parts.f).any(|i| is_strict(unit.field(i)));
    let room = if strict { STRICT_SPAN } else { SPAN };
    columns_from(kind, kind.saturating_add(room), width)
}

// ---- the first row of a field

// The word of a kind.
fn kind_word(kind: Kind) -> &'static [u8] {
    match kind {
        Kind::Alpha => b"alpha",
        Kind::Decimal => b"decimal",
        Kind::Record => b"record",
        Kind::Bad => b"none",
    }
}

impl Table<'_> {
    // Puts a field's name and kind, and whether it is strict.
    fn put_entry(self, l: &mut Line, field: Field, i: u16) {
        put_name(l, self.unit, field, i);
        l.fill_to(self.columns.kind);
        l.text(kind_word(field.kind));
        if is_strict(field) {
            l.text(b" strict");
        }
        l.fill_to(self.columns.span);
    }

    // Puts a field's bytes, size and count.
    fn put_sizes(self, l: &mut Line, field: Field) {
        l.span(usize::from(field.offset), len_of(field));
        l.right(usize::from(field.size), self.columns.size);
        l.right(usize::from(field.count), self.columns.count);
        l.fill_to(self.columns.stored);
    }

    // Puts the elements of a field that a row has from the element i on: as they are stored, and decimals in figures too.
    fn put_held(self, l: &mut Line, field: Field, i: usize) {
        let kind = field.kind;
        put_elements(l, self.data, field, i, put_element);
        if unit_decode::is_decimal(kind) {
            l.text(b"  ");
            l.fill_to(self.columns.value);
            let unit = self.unit;
            put_elements(l, self.data, field, i, |l, s| put_figures(l, unit, s));
        }
    }
}

// Puts how many elements are not told.
fn put_more(l: &mut Line, field: Field) {
    let more = usize::from(field.count).saturating_sub(on_row(field));
    if 0 < more {
        write!(l, " and {more} more");
    }
}

// ---- further rows

impl Table<'_> {
    // The rows of an element's characters behind its first row.
    fn say_tail(self, host: &Host, s: &[u8]) {
        for at in (ALPHA_ROOM..s.len()).step_by(ALPHA_ROOM) {
            let mut l = self.unit.line();
            l.fill_to(self.columns.stored);
            put_element(&mut l, part(s, at, s.len()));
            host.say_line(l);
        }
    }

    // Puts the subscript of the element i into the column of the counts.
    fn put_subscript(self, l: &mut Line, i: usize) {
        let mut subscript = Line::new();
        write!(subscript, "({})", i.saturating_add(1));
        l.fill_to(self.columns.count.saturating_sub(subscript.len()));
        l.text(subscript.bytes());
        l.fill_to(self.columns.stored);
    }

    // The rows from the element i on: that of the element and those behind it, and those of its further characters.
    fn say_element(self, host: &Host, field: Field, i: usize) {
        let mut l = self.unit.line();
        self.put_subscript(&mut l, i);
        self.put_held(&mut l, field, i);
        host.say_line(l);
        self.say_tail(host, element_of(self.data, field, i));
    }

    // All rows of a field behind its first. A record has none, since it covers other fields.
    fn say_rest(self, host: &Host, field: Field) {
        if matches!(field.kind, Kind::Record) {
            return;
        }
        self.say_tail(host, element_of(self.data, field, 0));
        let k = on_row(field);
        for i in (k..usize::from(field.count)).step_by(k) {
            self.say_element(host, field, i);
        }
    }

    // ---- the table

    // The rows of the field i: all that it holds, or one with its first elements and how many more there are.
    fn say_field(self, host: &Host, i: u16, whole: bool) {
        let field = self.unit.field(i);
        let mut l = self.unit.line();
        self.put_entry(&mut l, field, i);
        self.put_sizes(&mut l, field);
        self.put_held(&mut l, field, 0);
        if whole {
            host.say_line(l);
            self.say_rest(host, field);
        } else {
            put_more(&mut l, field);
            host.say_line(l);
        }
    }

    // The head of the table, after a line with nothing in it.
    fn say_head(self, host: &Host) {
        host.say(b"\n");
        let mut l = Line::new();
        l.text(b"field");
        l.fill_to(self.columns.kind);
        l.text(b"kind");
        l.fill_to(self.columns.span);
        l.text(b"bytes        size  count  stored");
        l.fill_to(self.columns.value);
        l.text(b"value");
        host.say_line(l);
    }
}

// The fields of a unit, with what they hold in some data, the whole of it or its beginning. A unit without fields has no table.
pub fn say_fields(host: &Host, unit: Unit<'_>, data: &[u8], whole: bool) {
    if unit.coded.parts.f == 0 {
        return;
    }
    let columns = columns_of(unit, data);
    let table = Table {
        unit,
        data,
        columns,
    };
    table.say_head(host);
    for i in 0..unit.coded.parts.f {
        table.say_field(host, i, whole);
    }
}
