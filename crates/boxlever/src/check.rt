// `boxlever check FILES..`: a row for each unit with the answer of the fence check, how many references break a rule and where the first does, and the reason;
// then a line of totals.
use crate::breaches::put_first;
use crate::lines::{Line, Show};
use crate::names::Names;
use crate::parts::{Image, Unit};
use crate::say::Host;
use crate::valid::{invalid_in, put_invalid, put_size, tell_size};
use crate::words::{Status, put_refusal};
use rules_fence::Verdict;
use rules_unit::Refusal;
use std::io::Error;

// The bytes of the longest unit, for the column of lengths alone: what is refused the library says.
const LONGEST: usize = 57353;

// The least columns of the names, and the most; a longer one shifts its row. Behind them stand the ends of the lengths, the answers, the ends of the counts of
// breaches and of the first statements, and the reasons.
const NAMES_LEAST: usize = 4;

const NAMES_MOST: usize = 40;

const LENGTH: usize = 7;

const ANSWER: usize = 9;

const BREACHES: usize = 26;

const FIRST: usize = 33;

const REASON: usize = 35;

// The table in the making: where it is written, how many columns the names take, whether fields have none, how names are shown, the data that each unit is asked
// over, which is its own where none is given, and what is counted.
#[derive(Drop)]
struct Table<'a> {
    host: &'a Host,
    width: usize,
    plain: bool,
    show: Show,
    data: Option<Image<'a>>,
    tally: Tally,
}

// A row in the making, and where the columns behind its name begin.
#[derive(Drop)]
struct Row {
    line: Line,
    from: usize,
}

// How many units the fence says yes and no of, are refused, have data of another size and could not be read; how many of the first have a warning, and how many
// references break a rule.
#[derive(Clone, Copy, Default)]
struct Tally {
    yes: usize,
    no: usize,
    refused: usize,
    unfit: usize,
    unread: usize,
    warned: usize,
    breaches: usize,
}

// Counts one more.
fn count(n: &mut usize) {
    *n = n.saturating_add(1);
}

// ---- rows

// Puts a number that ends before a column, or a dash.
fn put_cell(l: &mut Line, cell: Option<usize>, column: usize) {
    match cell {
        Some(n) => l.right(n, column),
        None => {
            l.fill_to(column.saturating_sub(1));
            l.byte(b'-');
        }
    }
}

impl Row {
    // Puts the answer, the count of breaches and the first statement.
    fn answer(&mut self, answer: &[u8], count: Option<usize>, first: Option<usize>) {
        let l = &mut self.line;
        l.fill_to(self.from.saturating_add(ANSWER));
        l.text(answer);
        put_cell(l, count, self.from.saturating_add(BREACHES));
        put_cell(l, first, self.from.saturating_add(FIRST));
    }

    // Puts the same, and goes on to the reason.
    fn reason(&mut self, answer: &[u8], count: Option<usize>, first: Option<usize>) -> &mut Line {
        self.answer(answer, count, first);
        self.line.fill_to(self.from.saturating_add(REASON));
        &mut self.line
    }
}

// ---- refused

// Puts the name of the field that is refused, or the source line of the statement, if it is known.
fn put_known(l: &mut Line, names: Names<'_>, r: Refusal) {
    match r {
        Refusal::NotFilled | Refusal::BadRange => {}
        Refusal::BadField(i) => {
            if let Some(name) = names.field(i) {
                l.text(b" at ");
                l.text(name);
            }
        }
        Refusal::BadExpression(i) | Refusal::BadStatement(i) => {
            if let Some(line) = names.source_line(i) {
                write!(l, " at line {line}");
            }
        }
    }
}

// The field or the statement that is refused, if the refusal names one.
fn place_of(r: Refusal) -> Option<usize> {
    match r {
        Refusal::NotFilled | Refusal::BadRange => None,
        Refusal::BadField(i) | Refusal::BadExpression(i) | Refusal::BadStatement(i) => {
            Some(usize::from(i))
        }
    }
}

// How many references of a unit break a rule.
fn count_of(unit: &[u8]) -> usize {
    dibol::breaches(unit, 0, &mut [0u64; 1])
}

// The reason that the system gives for an error, or another.
fn reason_of(e: Error) -> &'static [u8] {
    match e.raw_os_error() {
        Some(2) => b"No such file or directory",
        Some(5) => b"Input/output error",
        Some(9) => b"Bad file descriptor",
        Some(13) => b"Permission denied",
        Some(20) => b"Not a directory",
        Some(21) => b"A folder without a unit, or that cannot be read",
        Some(36) => b"File name too long",
        Some(40) => b"Too many levels of symbolic links",
        _ => b"It cannot be read",
    }
}

// ---- the row of a file

impl Table<'_> {
    // A row that begins with the name of a file.
    fn row(&self, path: &[u8]) -> Row {
        let mut line = Line::with_letters(self.show.letters);
        line.given(path);
        let from = line.width().max(self.width);
        Row { line, from }
    }

    // The row of a file of so many bytes. Of one that is longer than any unit no more is read than tells so.
    fn row_with(&self, path: &[u8], n: usize) -> Row {
        let mut row = self.row(path);
        let column = row.from.saturating_add(LENGTH);
        if LONGEST < n {
            row.line.fill_to(column.saturating_sub(6));
            write!(row.line, ">{LONGEST}");
        } else {
            row.line.right(n, column);
        }
        row
    }

    // The row of a unit that is refused.
    fn say_refused(&mut self, mut row: Row, names: Names<'_>, r: Refusal) {
        count(&mut self.tally.refused);
        let number = dibol::refusal_number(r);
        let l = row.reason(b"refused", None, place_of(r));
        write!(l, "{number}");
        put_known(l, names, r);
        l.text(b": ");
        put_refusal(l, r);
        self.host.say_line(row.line);
    }

    // The row of a unit with a yes.
    fn say_yes(&mut self, mut row: Row, unit: Unit<'_>, image: Image<'_>) {
        count(&mut self.tally.yes);
        if let Some(bad) = invalid_in(unit, image) {
            count(&mut self.tally.warned);
            let l = row.reason(b"yes!", Some(0), None);
            l.text(b"but ");
            put_invalid(l, unit, image, bad);
        } else {
            row.answer(b"yes", Some(0), None);
        }
        self.host.say_line(row.line);
    }

    // The row of a unit with a no at the statement i.
    fn say_no(&mut self, mut row: Row, unit: Unit<'_>, image: Image<'_>, i: u16) {
        let breaches = count_of(unit.coded.unit);
        count(&mut self.tally.no);
        self.tally.breaches = self.tally.breaches.saturating_add(breaches);
        let l = row.reason(b"no", Some(breaches), Some(usize::from(i)));
        put_first(l, unit, i);
        if let Some(bad) = invalid_in(unit, image) {
            l.text(b"; and ");
            put_invalid(l, unit, image, bad);
        }
        self.host.say_line(row.line);
    }

    // The row of a unit whose data has another size than that of a file.
    fn say_unfit(&mut self, mut row: Row, image: Image<'_>, d: u16) {
        count(&mut self.tally.unfit);
        let l = row.reason(b"wrong size", None, None);
        l.text(b"the file of the data ");
        put_size(l, image.bytes.len());
        write!(l, ", the unit wants {d}");
        self.host.say_line(row.line);
    }

    // The row of a unit that passes its check.
    fn say_passed(&mut self, path: &[u8], unit: Unit<'_>) {
        let row = self.row_with(path, unit.coded.unit.len());
        let image = self.data.unwrap_or(unit.image());
        let d = unit.coded.parts.d;
        if image.bytes.len() != usize::from(d) {
            let file = image.file.unwrap_or(b"");
            tell_size(self.host, path, image.bytes.len(), file, d);
            self.say_unfit(row, image, d);
            return;
        }
        match dibol::fence(unit.coded.unit) {
            Verdict::Yes => self.say_yes(row, unit, image),
            Verdict::No(i) => self.say_no(row, unit, image, i),
            Verdict::Refused(_) => {} // Never so: the unit passed its check.
        }
    }

    // The row of a unit whose names are read.
    fn say_unit(&mut self, path: &[u8], bytes: &[u8], names: Names<'_>) {
        match Unit::new(bytes, names, self.show) {
            Ok(unit) => self.say_passed(path, unit),
            Err(r) => {
                let row = self.row_with(path, bytes.len());
                self.say_refused(row, names, r);
            }
        }
    }

    // The row of a unit by its bytes.
    fn say_bytes(&mut self, path: &[u8], bytes: &[u8]) {
        let mut space = io::large_buffer();
        let names = crate::names::read(self.host, path, bytes, self.plain, &mut space);
        self.say_unit(path, bytes, names);
    }

    // The row of a file that cannot be read, with the reason.
    fn say_unread(&mut self, path: &[u8], e: Error) {
        count(&mut self.tally.unread);
        let mut row = self.row(path);
        let column = row.from.saturating_add(LENGTH);
        put_cell(&mut row.line, None, column);
        row.reason(b"unreadable", None, None).text(reason_of(e));
        self.host.say_line(row.line);
    }

    // The row of the file that the argument i names.
    fn say_argument(&mut self, i: usize) {
        let mut name = io::buffer();
        let mut space = io::large_buffer();
        let path = self.host.argument(i, &mut name);
        match self.host.read_file(path, &mut space) {
            Ok(bytes) => self.say_bytes(path, bytes),
            Err(e) => self.say_unread(path, e),
        }
    }
}

// ---- totals

// Puts a count with the words behind it, if it is not 0.
fn put_some(l: &mut Line, n: usize, words: &str) {
    if n != 0 {
        write!(l, "; {n}{words}");
    }
}

impl Tally {
    // How many units there are an answer for.
    fn units(self) -> usize {
        let answers = self.yes.saturating_add(self.no);
        answers
            .saturating_add(self.refused)
            .saturating_add(self.unfit)
    }

    // The last line: how many units there are of each answer.
    fn say(self, host: &Host) {
        let mut l = Line::new();
        let units = self.units();
        let word = if units == 1 { "unit" } else { "units" };
        write!(l, "{units} {word}: {} yes, {} no", self.yes, self.no);
        write!(l, ", {} refused", self.refused);
        let breaches = if self.breaches == 1 {
            " breach"
        } else {
            " breaches"
        };
        put_some(&mut l, self.breaches, breaches);
        put_some(&mut l, self.warned, " yes with a warning");
        put_some(&mut l, self.unfit, " with data of another size");
        put_some(&mut l, self.unread, " not read");
        host.say_line(l);
    }

    // The exit status: the worst of the rows.
    fn status(self) -> Status {
        if 0 < self.unread || 0 < self.unfit {
            Status::Failed
        } else if 0 < self.refused {
            Status::Refused
        } else if 0 < self.no || 0 < self.warned {
            Status::Stopped
        } else {
            Status::Good
        }
    }
}

// ---- the table

// How many columns the name of the argument i takes.
fn width_of(host: &Host, i: usize, show: Show) -> usize {
    let mut space = io::buffer();
    let mut l = Line::with_letters(show.letters);
    l.given(host.argument(i, &mut space));
    l.width()
}

// How many columns the names take: the longest of the arguments from one on, up to the most.
fn widest(host: &Host, from: usize, show: Show) -> usize {
    let widths = (from..host.arg_count()).map(|i| width_of(host, i, show));
    widths.max().unwrap_or(0).max(NAMES_LEAST).min(NAMES_MOST)
}

// The head of the table.
fn say_head(host: &Host, width: usize) {
    let mut l = Line::new();
    l.text(b"unit");
    l.fill_to(width.saturating_add(2));
    l.text(b"bytes  answer   breaches  first  reason");
    host.say_line(l);
}

// The rows of the files that the arguments from one on name, and their totals; and the exit status. Each unit is asked over the data given, or its own.
pub fn check_files(
    host: &Host,
    from: usize,
    plain: bool,
    show: Show,
    data: Option<Image<'_>>,
) -> Status {
    let width = widest(host, from, show);
    let mut table = Table {
        host,
        width,
        plain,
        show,
        data,
        tally: Tally::default(),
    };
    say_head(host, width);
    for i in from..host.arg_count() {
        table.say_argument(i);
        if host.is_unheard() {
            return table.tally.status();
        }
    }
    table.tally.say(host);
    table.tally.status()
}
