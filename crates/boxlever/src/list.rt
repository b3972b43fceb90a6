// `boxlever list FILE`: the parts of a unit, its fields with what they hold, and its statements as text.
use crate::fields::say_fields;
use crate::lines::Line;
use crate::parts::{Image, Unit, row_of};
use crate::phrase::with_statement;
use crate::say::Host;
use crate::valid::warn;
use crate::words::{Status, put_breach, put_refused};
use rules_fence::Verdict;
use rules_unit::{Parts, Refusal, Role, Statement};

// The columns of the tables.
const BYTES: usize = 13;

const ENTRIES: usize = 33;

// Where the numbers of the statements and those of their source lines end; and behind these where the offsets end, and where the bytes and the labels begin.
const NUMBER: usize = 4;

const SOURCE: usize = 12;

const OFFSET: usize = 7;

const CODED: usize = 9;

const LABEL: usize = 34;

// The least room of a label with its colon and a space.
const LABEL_ROOM: usize = 7;

// The column up to which a marked statement is told; the longest mark, of 59 bytes, has room behind it.
const UNMARKED: usize = 540;

// The most statements of a unit.
const STATEMENTS: usize = 2048;

// ---- the parts

// The row of a part, and where the next one starts. A part of entries has a row with their number.
fn say_part(host: &Host, name: &[u8], from: usize, len: usize, entries: u16) -> usize {
    let mut l = Line::new();
    l.text(name);
    l.fill_to(BYTES);
    if 0 < len {
        l.span(from, len);
    } else {
        l.text(b"none");
    }
    if 0 < entries {
        l.right(usize::from(entries), ENTRIES);
    }
    host.say_line(l);
    from.saturating_add(len)
}

// The row of a part that has entries of eight bytes.
fn say_entries(host: &Host, name: &[u8], from: usize, entries: u16) -> usize {
    say_part(host, name, from, usize::from(entries) * 8, entries)
}

// The rows of the parts that the trailer names, and where they end.
fn say_parts(host: &Host, parts: Parts) -> usize {
    host.say(b"part         bytes        entries\n");
    let mut at = say_part(host, b"data", 0, usize::from(parts.d), 0);
    at = say_entries(host, b"fields", at, parts.f);
    at = say_part(host, b"expressions", at, usize::from(parts.e), 0);
    at = say_part(host, b"literals", at, usize::from(parts.p), 0);
    at = say_entries(host, b"statements", at, parts.n);
    say_part(host, b"trailer", at, 12, 0)
}

// ---- the statements

// The statements of a unit: which of them are targets; where their numbers end, or those of their source lines if there are any; where their texts begin; and the
// first that breaks a rule.
#[derive(Drop)]
struct Table<'a> {
    unit: Unit<'a>,
    targets: &'a [bool],
    at: usize,
    reads: usize,
    first: Option<u16>,
}

// The statement that a statement goes to, or that is its loop end.
fn target_of(s: Statement) -> Option<u16> {
    match row_of(s).c {
        Role::Target | Role::End => Some(s.c),
        Role::Unused
        | Role::Written(_)
        | Role::Read(_)
        | Role::Table
        | Role::Numbers
        | Role::Never => None,
    }
}

// Marks each statement that one goes to, and each loop end of one.
fn mark_targets(unit: Unit<'_>, targets: &mut [bool]) {
    for i in 0..unit.coded.parts.n {
        if let Some(target) = target_of(unit.statement(i))
            && let Some(mark) = targets.get_mut(usize::from(target))
        {
            *mark = true;
        }
    }
}

// Puts the label of the statement i, if it has one or is a target.
fn put_label(l: &mut Line, unit: Unit<'_>, targets: &[bool], i: u16) {
    let is_target = targets.get(usize::from(i)) == Some(&true);
    if is_target || unit.names.label(i).is_some() {
        unit.names.put_label(l, i);
        l.byte(b':');
    }
}

// How many columns the label of the statement i takes, with its colon.
fn label_width(unit: Unit<'_>, targets: &[bool], i: u16) -> usize {
    let mut l = Line::new();
    put_label(&mut l, unit, targets, i);
    l.width()
}

// Puts the rule that the statement i breaks, if it breaks one.
fn put_broken(l: &mut Line, unit: Unit<'_>, i: u16) {
    let b = dibol::breach(unit.coded.unit, usize::from(i));
    if dibol::breach_number(b) == 0 {
        return;
    }
    l.cut_to(UNMARKED);
    l.text(b"  ! ");
    put_breach(l, b);
}

// Where the statement i stands in a unit.
fn offset_of(parts: Parts, i: u16) -> usize {
    let before = usize::from(parts.p) + usize::from(i) * 8;
    unit_decode::literals_offset(parts).saturating_add(before)
}

impl Table<'_> {
    // Puts the numbers, the offset, the bytes and the label of the statement i.
    fn put_place(&self, l: &mut Line, i: u16) {
        let offset = offset_of(self.unit.coded.parts, i);
        l.right(usize::from(i), NUMBER);
        if let Some(line) = self.unit.names.source_line(i) {
            l.right(line, self.at);
        }
        l.right(offset, self.at.saturating_add(OFFSET));
        l.fill_to(self.at.saturating_add(CODED));
        for b in self.unit.coded.unit.iter().skip(offset).take(8) {
            write!(l, "{b:02X} ");
        }
        l.fill_to(self.at.saturating_add(LABEL));
        put_label(l, self.unit, self.targets, i);
        l.fill_to(self.reads);
    }

    // The row of the statement i. Before the first that breaks a rule none is asked for.
    fn say_statement(&self, host: &Host, i: u16) {
        let mut l = self.unit.line();
        self.put_place(&mut l, i);
        l = with_statement(l, self.unit, i);
        if self.first.is_some_and(|first| first <= i) {
            put_broken(&mut l, self.unit, i);
        }
        host.say_line(l);
    }

    // The head of the statements, after a line with nothing in it.
    fn say_head(&self, host: &Host) {
        host.say(b"\n");
        let mut l = Line::new();
        l.text(b"stmt");
        if NUMBER < self.at {
            l.text(b"    line");
        }
        l.text(b"     at  coded");
        l.fill_to(self.reads);
        l.text(b"reads as");
        host.say_line(l);
    }
}

// The statements of a unit, of which the first that breaks a rule is given.
fn say_statements(host: &Host, unit: Unit<'_>, first: Option<u16>) {
    let mut targets = [false; STATEMENTS];
    mark_targets(unit, &mut targets);
    let widths = (0..unit.coded.parts.n).map(|i| label_width(unit, &targets, i));
    let longest = widths.max().unwrap_or(0);
    let at = if unit.names.has_lines() {
        SOURCE
    } else {
        NUMBER
    };
    let room = longest.saturating_add(2).max(LABEL_ROOM);
    let table = Table {
        unit,
        targets: &targets,
        at,
        reads: at.saturating_add(LABEL).saturating_add(room),
        first,
    };
    table.say_head(host);
    for i in 0..unit.coded.parts.n {
        table.say_statement(host, i);
    }
}

// ---- the whole

// Puts what the fence says.
fn put_verdict(l: &mut Line, v: Verdict) {
    match v {
        Verdict::Yes => l.text(b"; the fence says yes"),
        Verdict::No(i) => write!(l, "; the fence says no at {i}"),
        Verdict::Refused(_) => {}
    }
}

// The first statement that breaks a rule.
fn first_of(v: Verdict) -> Option<u16> {
    match v {
        Verdict::No(i) => Some(i),
        Verdict::Yes | Verdict::Refused(_) => None,
    }
}

// A unit that passes its check: what the fence says and whether its own data has an invalid decimal, its parts, its fields over that data, and its statements; and
// the exit status.
pub fn answer(host: &Host, unit: Unit<'_>, image: Image<'_>) -> Status {
    let v = dibol::fence(unit.coded.unit);
    let mut l = Line::new();
    write!(l, "unit of {} bytes", unit.coded.unit.len());
    put_verdict(&mut l, v);
    host.say_line(l);
    let status = warn(host, unit, image);
    host.say(b"\n");
    say_parts(host, unit.coded.parts);
    say_fields(host, unit, image.bytes, false);
    say_statements(host, unit, first_of(v));
    status
}

// The parts of a unit that is refused, where its trailer can be read; and where they do not end where the unit does, how many bytes they take.
fn say_trailer(host: &Host, unit: &[u8]) {
    let n = unit.len();
    if n < 12 || !unit.ends_with(b"DB") {
        return;
    }
    host.say(b"\n");
    let end = say_parts(host, unit_decode::parts_of(unit));
    if end != n {
        let mut l = Line::new();
        write!(l, "the parts take {end} bytes, the unit has {n}");
        host.say_line(l);
    }
}

// A unit that is refused: the refusal, and the parts where the trailer can be read.
pub fn say_refused(host: &Host, unit: &[u8], r: Refusal) {
    let mut l = Line::new();
    put_refused(&mut l, r);
    host.say_line(l);
    say_trailer(host, unit);
}
