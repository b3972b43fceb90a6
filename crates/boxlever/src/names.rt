// The names of a unit's fields and statements, from the names file beside it. Its first line is `boxlever names 1 LENGTH CRC SOURCE`, then a row
// `F i NAME` names the field i, and a row `S i LINE LABEL` tells the source line of the statement i, and its label if it has one. A file is
// checked whole against its unit. One that fits is handed on as it is, and an empty text for any other; a row is found by halving, since the
// rows rise. Names are shown and nothing more: no answer depends on one.
ghost use Rattle.std.specs.Prelude.{◌<◌, length};

use crate::lines::Line;
use crate::say::{Host, PATH, is_missing, is_number, number_in, read_full};
use arrayvec::ArrayVec;
use rules_unit::Parts;
use std::cmp::Ordering;
use std::fmt;
use std::fs::File;
use std::io::{Error, Read};

// The most bytes of a name, figures of a source line and of a unit's length, and the figures of a CRC.
const NAME_MOST: usize = 30;

const LINE_MOST: usize = 7;

const LENGTH_MOST: usize = 5;

const CRC_FIGURES: usize = 8;

// How many names of fields, and how many labels, are noted.
const SLOTS: usize = 4096;

// The longest name of a file.
const PATH_MOST: usize = PATH - 1;

// The text of a names file that fits its unit; empty where there is none.
#[derive(Clone, Copy)]
pub struct Names<'a>(&'a [u8]);

// What a row is of: the field i, or the statement i. Those of fields come first.
#[derive(Clone, Copy, PartialEq, Eq, PartialOrd, Ord)]
enum Key {
    Field(usize),
    Statement(usize),
}

// What may be wrong with a line.
#[derive(Clone, Copy)]
enum Fault {
    Form,
    Outside,
    Order,
    Twice,
    Unended,
}

impl fmt::Display for Fault {
    fn fmt<W: fmt::Write>(&self, f: &mut fmt::Formatter<W>) -> fmt::Result {
        f.write_str(match self {
            Fault::Form => "is not of the form that is wanted",
            Fault::Outside => "has a number that the unit has not",
            Fault::Order => "has a number that is not above the one before",
            Fault::Twice => "has a name that stands above already",
            Fault::Unended => "has no end",
        })
    }
}

// Why a names file does not fit its unit: it is another unit's, of which its first line has the length and the CRC; or a line has a fault.
#[derive(Clone, Copy)]
enum Misfit<'a> {
    Other(Head<'a>),
    Line(usize, Fault),
}

// ---- rows

fn is_space(b: &u8) -> bool {
    *b == b' '
}

fn is_line_end(b: &u8) -> bool {
    *b == b'\n'
}

// The key of a row; the first line has none.
fn key_of(row: &[u8]) -> Option<Key> {
    let mut words = row.split(is_space);
    match words.next()? {
        b"F" => Some(Key::Field(number_in(words.next()?))),
        b"S" => Some(Key::Statement(number_in(words.next()?))),
        _ => None,
    }
}

// The line in which the middle of some lines is, without its end; and the lines before it and behind it.
fn middle_of(lines: &[u8]) -> (&[u8], &[u8], &[u8])
    requires { 0 < length lines.now }
    ensures before { length result.0.now < length lines.now }
    ensures after { length result.2.now < length lines.now }
{
    let (head, _) = lines.split_at(lines.len() / 2);
    let start = head.iter().rposition(is_line_end).map_or(0, |i| i + 1);
    let (before, rest) = lines.split_at(start);
    let end = rest.iter().position(is_line_end).unwrap_or(rest.len());
    let (line, rest) = rest.split_at(end);
    (before, line, rest.get(1..).unwrap_or(b""))
}

impl<'a> Names<'a> {
    // The row of a key. The loop stays: where it goes on depends on the row that it has looked at.
    fn row(self, key: Key) -> Option<&'a [u8]> {
        let mut rows = self.0;
        while !rows.is_empty() {
            let (before, row, after) = middle_of(rows);
            match key_of(row).cmp(&Some(key)) {
                Ordering::Less => rows = after,
                Ordering::Equal => return Some(row),
                Ordering::Greater => rows = before,
            }
        }
        None
    }

    // ---- what the other words ask

    // The name of the field i.
    pub fn field(self, i: u16) -> Option<&'a [u8]> {
        let row = self.row(Key::Field(usize::from(i)))?;
        row.split(is_space).nth(2)
    }

    // The source line of the statement i.
    pub fn source_line(self, i: u16) -> Option<usize> {
        let row = self.row(Key::Statement(usize::from(i)))?;
        Some(number_in(row.split(is_space).nth(2)?))
    }

    // Whether any source line is known: the last row is a statement's where there is one.
    pub fn has_lines(self) -> bool {
        let last = self.0.split_inclusive(is_line_end).last();
        last.is_some_and(|row| row.first() == Some(&b'S'))
    }

    // The label of the statement i.
    pub fn label(self, i: u16) -> Option<&'a [u8]> {
        let row = self.row(Key::Statement(usize::from(i)))?;
        row.split(is_space).nth(3)
    }

    // Puts the label of the statement i, or its number with an L before it.
    pub fn put_label(self, l: &mut Line, i: u16) {
        match self.label(i) {
            Some(label) => l.text(label),
            None => write!(l, "L{i}"),
        }
    }
}

// ---- the CRC-32 of a unit, as zlib has it

// The divisor, its first bit left out and the others in reverse.
const DIVISOR: u32 = 0xEDB88320;

// The remainder after one bit more.
fn after_bit(crc: u32) -> u32 {
    if crc % 2 == 0 {
        crc / 2
    } else {
        crc / 2 ^ DIVISOR
    }
}

// The remainder after one byte more.
fn after_byte(crc: u32, b: u8) -> u32 {
    (0..8).fold(crc ^ u32::from(b), |crc, _| after_bit(crc))
}

// The CRC-32 of some bytes.
fn crc_of(s: &[u8]) -> u32 {
    !s.iter().fold(u32::MAX, |crc, b| after_byte(crc, *b))
}

// ---- the first line

// What the first line of a names file says of its unit.
#[derive(Clone, Copy)]
struct Head<'a> {
    length: &'a [u8],
    crc: &'a [u8],
}

// Whether a text is a CRC.
fn is_crc(s: &[u8]) -> bool {
    s.len() == CRC_FIGURES && s.iter().all(|b| matches!(b, b'0'..=b'9' | b'A'..=b'F'))
}

// Whether a text may be the name of a source: it has no control, and begins with something else than a space.
fn is_source(s: &[u8]) -> bool {
    s.first().is_some_and(|b| *b != b' ') && !s.iter().any(u8::is_ascii_control)
}

// What a first line says, if it is of the form of one.
fn head_of(line: &[u8]) -> Option<Head<'_>> {
    let rest = line.strip_prefix(b"boxlever names 1 ")?;
    let mut words = rest.splitn(3, is_space);
    let length = words.next()?;
    let crc = words.next()?;
    let source = words.next()?;
    let fits = length.len() <= LENGTH_MOST && is_number(length);
    (fits && is_crc(crc) && is_source(source)).then_some(Head { length, crc })
}

// Whether a first line has the length and the CRC of a unit, which is worked out only where the length fits.
fn is_of(head: Head<'_>, unit: &[u8]) -> bool {
    if number_in(head.length) != unit.len() {
        return false;
    }
    let mut l = Line::new();
    write!(l, "{:08X}", crc_of(unit));
    head.crc == l.bytes()
}

// ---- the rows of a names file

// Whether a text is a name.
fn is_name(s: &[u8]) -> bool {
    s.len() <= NAME_MOST
        && s.first().is_some_and(u8::is_ascii_alphabetic)
        && s.iter().all(|b| matches!(b, b'0'..=b'9' | b'A'..=b'Z' | b'a'..=b'z' | b'$' | b'_'))
}

// Whether a text is the number of a source line.
fn is_line(s: &[u8]) -> bool {
    s.len() <= LINE_MOST && s.first() != Some(&b'0') && is_number(s)
}

// The key of a row that is of the form of a field's or a statement's, and its name, which a statement need not have.
fn row_of(line: &[u8]) -> Option<(Key, Option<&[u8]>)> {
    let mut words = line.split(is_space);
    let kind = words.next()?;
    let number = words.next()?;
    let third = words.next()?;
    let fourth = words.next();
    if !is_number(number) || words.next().is_some() {
        return None;
    }
    match (kind, fourth) {
        (b"F", None) if is_name(third) => Some((Key::Field(number_in(number)), Some(third))),
        (b"S", label) if is_line(third) && label.is_none_or(is_name) => {
            Some((Key::Statement(number_in(number)), label))
        }
        _ => None,
    }
}

// Whether a unit has what a row is of.
fn is_inside(key: Key, parts: Parts) -> bool {
    match key {
        Key::Field(i) => i < usize::from(parts.f),
        Key::Statement(i) => i < usize::from(parts.n),
    }
}

// ---- no name twice

// A number for a text and a byte more, which is the same for the same text.
fn mixed(n: usize, b: u8) -> usize {
    n % 65536 * 31 + usize::from(b)
}

// Notes a name among those that stand above, each where a number for it says or behind that; and answers whether there is no other like it.
fn is_new<'a>(seen: &mut [Option<&'a [u8]>; SLOTS], name: &'a [u8]) -> bool {
    let n = name.iter().fold(0, |n, b| mixed(n, *b));
    for k in 0..SLOTS {
        let slot = n.saturating_add(k) % SLOTS;
        let Some(held) = seen[slot] else {
            seen[slot] = Some(name);
            return true;
        };
        if held == name {
            return false;
        }
    }
    false
}

// ---- a names file as a whole

// The key and the name of a row behind a row of another key, if nothing is wrong with them but that the name may stand above.
fn checked_row(
    line: &[u8],
    parts: Parts,
    last: Option<Key>,
) -> Result<(Key, Option<&[u8]>), Fault> {
    let ended = line.strip_suffix(b"\n");
    let (key, name) = row_of(ended.unwrap_or(line)).ok_or(Fault::Form)?;
    if !is_inside(key, parts) {
        return Err(Fault::Outside);
    }
    if Some(key) <= last {
        return Err(Fault::Order);
    }
    if ended.is_none() {
        return Err(Fault::Unended);
    }
    Ok((key, name))
}

// Checks the rows behind the first line, up to a fault. Labels take the places of the names of fields, which stand before them all: places of their own would
// take 64 KB more stack.
fn check_rows(names: &[u8], parts: Parts) -> Result<(), Misfit<'_>> {
    let mut seen = [None; SLOTS];
    let mut last = None;
    let lines = names.split_inclusive(is_line_end).enumerate();
    for (i, line) in lines.skip(1) {
        let number = i.saturating_add(1);
        let row = checked_row(line, parts, last);
        let (key, name) = row.map_err(|fault| Misfit::Line(number, fault))?;
        if matches!((last, key), (Some(Key::Field(_)), Key::Statement(_))) {
            seen.fill(None);
        }
        if name.is_some_and(|name| !is_new(&mut seen, name)) {
            return Err(Misfit::Line(number, Fault::Twice));
        }
        last = Some(key);
    }
    Ok(())
}

// Checks that a names file fits its unit.
fn check<'a>(names: &'a [u8], unit: &[u8], parts: Parts) -> Result<(), Misfit<'a>> {
    let line = names.split(is_line_end).next().unwrap_or(b"");
    let head = head_of(line).ok_or(Misfit::Line(1, Fault::Form))?;
    if !is_of(head, unit) {
        return Err(Misfit::Other(head));
    }
    if line.len() == names.len() {
        return Err(Misfit::Line(1, Fault::Unended));
    }
    check_rows(names, parts)
}

// ---- what is told of one that does not fit

// Begins a line that tells of a file.
fn told_of(path: &[u8]) -> Line {
    let mut l = Line::new();
    l.text(b"boxlever: ");
    l.given(path);
    l
}

// Ends a line that tells why names are not used.
fn tell_unused(host: &Host, mut l: Line) {
    l.text(b"; names are not used");
    host.tell_line(l);
}

// Tells why a names file does not fit.
fn tell_misfit(host: &Host, path: &[u8], misfit: Misfit<'_>) {
    let mut l = told_of(path);
    match misfit {
        Misfit::Other(head) => {
            l.text(b": is for another unit (");
            l.text(head.length);
            l.text(b" bytes, ");
            l.text(head.crc);
            l.text(b")");
        }
        Misfit::Line(line, fault) => write!(l, ": line {line} {fault}"),
    }
    tell_unused(host, l);
}

// Tells that a names file is longer than any.
fn tell_long(host: &Host, path: &[u8], most: usize) {
    let mut l = told_of(path);
    write!(l, ": has more than {most} bytes");
    tell_unused(host, l);
}

// Reports why a names file cannot be read. A missing file is not reported.
fn tell_unread(host: &Host, path: &[u8], e: Error) {
    if is_missing(e) {
        return;
    }
    let mut l = Line::new();
    l.text(b"boxlever: names are not used: ");
    l.given(path);
    host.fail(l, e);
}

// ---- its file

// Reads a file by its name into a buffer, and answers how many bytes were read, and whether it ends there.
fn read_whole(host: &Host, path: &[u8], buf: &mut [u8]) -> Result<(usize, bool), Error> {
    let mut file = host.open(path)?;
    let n = read_full(&mut file, buf)?;
    let mut space = [0u8; 1];
    Ok((n, file.read(&mut space)? == 0))
}

// The text of a names file; none where it does not fit its unit, which is told.
fn read_file<'a>(
    host: &Host,
    path: &[u8],
    unit: &[u8],
    parts: Parts,
    buf: &'a mut [u8],
) -> Option<&'a [u8]> {
    let most = buf.len();
    let names = match read_whole(host, path, buf) {
        Ok((n, true)) => &buf[..n.min(most)],
        Ok((_, false)) => {
            tell_long(host, path, most);
            return None;
        }
        Err(e) => {
            tell_unread(host, path, e);
            return None;
        }
    };
    match check(names, unit, parts) {
        Ok(()) => Some(names),
        Err(misfit) => {
            tell_misfit(host, path, misfit);
            None
        }
    }
}

// The names file of a unit by the unit's name. No file has a longer name than fits.
fn path_of(path: &[u8]) -> Option<ArrayVec<u8, PATH_MOST>> {
    let stem = path.strip_suffix(b".unit").unwrap_or(path);
    let mut beside = ArrayVec::new();
    beside.try_extend_from_slice(stem).ok()?;
    beside.try_extend_from_slice(b".names").ok()?;
    Some(beside)
}

// The names of a unit, read into a buffer: none where none are asked for, where the unit comes from standard input, and where its names file is missing or does not
// fit.
fn read_beside<'a>(
    host: &Host,
    path: &[u8],
    unit: &[u8],
    plain: bool,
    buf: &'a mut [u8],
) -> Option<&'a [u8]> {
    if plain || matches!(path, b"-") || unit.len() < 12 {
        return None;
    }
    let parts = unit_decode::parts_of(unit);
    if unit_decode::full_length(parts) != unit.len() {
        return None;
    }
    let beside = path_of(path)?;
    read_file(host, beside.as_slice(), unit, parts, buf)
}

// The same as names.
pub fn read<'a>(
    host: &Host,
    path: &[u8],
    unit: &[u8],
    plain: bool,
    buf: &'a mut [u8],
) -> Names<'a> {
    Names(read_beside(host, path, unit, plain, buf).unwrap_or(b""))
}
