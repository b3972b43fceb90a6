// A picture of the bytes that a reference is about, in four lines: offsets, the bytes themselves, the names of their fields, and marks below those that the
// reference names (^), that break the rule (!) and that it may reach (?). A cell is an element of an alpha or decimal field, or what lies between two fields.
// Not all cells have room: those at the ends of the bytes named and of the field go before the others, and two dots stand for what is left out.
use crate::bounds::Aim;
use crate::breaches::{Breaking, FenceRule};
use crate::fields::{is_strict, start_of};
use crate::lines::{Line, part};
use crate::parts::Unit;
use crate::phrase::put_name;
use crate::say::Host;
use arrayvec::ArrayVec;
use rules_unit::{Field, Kind};

// The columns that the cells of a picture have room in, and the column of their first bar.
const COLUMNS: usize = 70;

const INDENT: usize = 4;

// The most cells of a picture; each takes two columns or more.
const CELLS: usize = 36;

// The most columns of a cell, and how many bytes are shown at either end of a longer one, with two dots between.
const CELL: usize = 18;

const CELL_END: usize = 8;

// What a picture is of: the rule that is broken, the bytes named, those of the field, where the element ends in which the bytes start, and whether the
// field is strict. An end is one past the last byte.
#[derive(Clone, Copy)]
pub struct Frame {
    rule: FenceRule,
    from: usize,
    end: usize,
    own: usize,
    own_end: usize,
    element_end: usize,
    strict: bool,
}

// An element of a field, by its number from 0.
#[derive(Clone, Copy)]
struct Element {
    field: u16,
    number: usize,
}

// A cell: where it starts, how many bytes it has, and which element it is, if it is one.
#[derive(Clone, Copy, Default)]
struct Cell {
    from: usize,
    len: usize,
    element: Option<Element>,
}

// A picture of a unit's bytes: what it is of, and the cells chosen, in the order in which they stand.
#[derive(Drop)]
struct Picture<'a> {
    unit: Unit<'a>,
    frame: Frame,
    cells: ArrayVec<Cell, CELLS>,
}

// What lies around a byte: where the field before it ends and the one behind it starts, and the field that it is in.
#[derive(Clone, Copy)]
struct Around {
    from: usize,
    end: usize,
    field: Option<u16>,
}

// ---- cells

impl Cell {
    // Where it ends.
    fn end(self) -> usize {
        self.from.saturating_add(self.len)
    }

    // How many columns it takes.
    fn columns(self) -> usize {
        self.len.min(CELL)
    }

    // Its bytes.
    fn bytes(self, data: &[u8]) -> &[u8] {
        part(data, self.from, self.len)
    }
}

impl Around {
    // What lies around a byte, after one more look at a field.
    fn look(&mut self, field: Field, i: u16, at: usize) {
        let offset = usize::from(field.offset);
        let end = unit_decode::end_of(field);
        if matches!(field.kind, Kind::Record) {
            return;
        }
        if end <= at {
            self.from = self.from.max(end);
        } else if at < offset {
            self.end = self.end.min(offset);
        } else {
            self.field = Some(i);
        }
    }
}

// What lies around a byte.
fn around_of(unit: Unit<'_>, at: usize) -> Around {
    let mut around = Around {
        from: 0,
        end: usize::from(unit.coded.parts.d),
        field: None,
    };
    for i in 0..unit.coded.parts.f {
        around.look(unit.field(i), i, at);
    }
    around
}

// Which element of a field a byte is in, from 0. An element has a byte.
fn element_at(field: Field, at: usize) -> usize {
    let before = at.saturating_sub(usize::from(field.offset));
    before / usize::from(field.size).max(1)
}

// The cell that a byte is in.
fn cell_at(unit: Unit<'_>, at: usize) -> Cell {
    let around = around_of(unit, at);
    let Some(i) = around.field else {
        return Cell {
            from: around.from,
            len: around.end.saturating_sub(around.from),
            element: None,
        };
    };
    let field = unit.field(i);
    let number = element_at(field, at);
    Cell {
        from: start_of(field, number),
        len: usize::from(field.size),
        element: Some(Element { field: i, number }),
    }
}

// ---- the cells chosen

// How many columns stand before a cell's first byte and behind the cell before, which ends at an offset: a bar, and two dots where cells are left out.
fn columns_before(from: usize, at: usize) -> usize {
    bar_between(from, at).len()
}

// What stands there.
fn bar_between(from: usize, at: usize) -> &'static [u8] {
    if from == at {
        b"|"
    } else if at == 0 {
        b"..|"
    } else {
        b"|..|"
    }
}

// Whether a field is decimal and shares a byte with some bytes.
pub fn is_hit(field: Field, from: usize, end: usize) -> bool {
    let kind = field.kind;
    unit_decode::is_decimal(kind)
        && usize::from(field.offset) < end
        && from < unit_decode::end_of(field)
}

impl<'a> Picture<'a> {
    // The picture of a frame: the cells at ends, their neighbours, and as many of those between as there is room for.
    fn new(unit: Unit<'a>, frame: Frame) -> Picture<'a> {
        let mut picture = Picture {
            unit,
            frame,
            cells: ArrayVec::new(),
        };
        picture.choose_ends();
        picture.choose_neighbours();
        picture.choose_bytes(frame.from, frame.end);
        let (from, end) = picture.span();
        picture.choose_bytes(from, end);
        picture
    }

    // How many columns the cells take, with their last bar and two dots.
    fn columns(&self) -> usize {
        let mut columns = 3usize;
        let mut at = 0;
        for cell in self.cells.as_slice() {
            let before = columns_before(cell.from, at);
            columns = columns
                .saturating_add(before)
                .saturating_add(cell.columns());
            at = cell.end();
        }
        columns
    }

    // Chooses a cell, if it is not chosen yet and there is room for it.
    fn choose(&mut self, cell: Cell) {
        let place = self
            .cells
            .as_slice()
            .partition_point(|c| c.from < cell.from);
        let next = self.cells.as_slice().get(place);
        if next.is_some_and(|c| c.from == cell.from) {
            return;
        }
        let is_in = self.cells.try_insert(place, cell).is_ok();
        if is_in && COLUMNS < self.columns() {
            self.cells.pop_at(place);
        }
    }

    // Chooses the cell that a byte is in, if there is such a byte.
    fn choose_byte(&mut self, at: usize) {
        if at < usize::from(self.unit.coded.parts.d) {
            self.choose(cell_at(self.unit, at));
        }
    }

    // Chooses the cells of some bytes, from the first of them on.
    fn choose_bytes(&mut self, from: usize, end: usize) {
        let mut at = from;
        for _ in 0..CELLS {
            if end <= at {
                break;
            }
            self.choose_byte(at);
            at = cell_at(self.unit, at).end();
        }
    }

    // Chooses the first cell of each field that is hit.
    fn choose_hits(&mut self) {
        let Frame { from, end, .. } = self.frame;
        for i in 0..self.unit.coded.parts.f {
            let field = self.unit.field(i);
            if is_hit(field, from, end) {
                self.choose_byte(from.max(usize::from(field.offset)));
            }
        }
    }

    // Chooses the cells at the ends of the bytes named; where an alpha destination is on decimal fields, the first cells of those; and the cells at the ends of the
    // field.
    fn choose_ends(&mut self) {
        let frame = self.frame;
        self.choose_byte(frame.from);
        self.choose_byte(frame.end.saturating_sub(1));
        if frame.rule == FenceRule::OnDecimal {
            self.choose_hits();
        } else {
            self.choose_byte(frame.own_end.saturating_sub(1));
            self.choose_byte(frame.own);
        }
    }

    // Where the first of the cells starts, and where the last ends.
    fn span(&self) -> (usize, usize) {
        let from = self.cells.as_slice().first().map_or(0, |c| c.from);
        let end = self.cells.as_slice().last().map_or(0, |c| c.end());
        (from, end)
    }

    // Chooses a neighbour on each side.
    fn choose_neighbours(&mut self) {
        let (from, end) = self.span();
        self.choose_byte(end);
        if let Some(before) = from.checked_sub(1) {
            self.choose_byte(before);
        }
    }
}

// ---- marks

// What a byte is marked as, a stronger mark behind a weaker one: it is not named; the reference may reach it; it is named; it breaks the rule.
#[derive(Clone, Copy, PartialEq, Eq, PartialOrd, Ord)]
enum Mark {
    Outside,
    Reached,
    Named,
    Guilty,
}

impl Mark {
    fn byte(self) -> u8 {
        match self {
            Mark::Outside => b' ',
            Mark::Reached => b'?',
            Mark::Named => b'^',
            Mark::Guilty => b'!',
        }
    }
}

impl Frame {
    // The frame of a reference that breaks a rule, and names some bytes of a field.
    fn new(field: Field, rule: FenceRule, from: usize, end: usize) -> Frame {
        let next = element_at(field, from).saturating_add(1);
        Frame {
            rule,
            from,
            end,
            own: usize::from(field.offset),
            own_end: unit_decode::end_of(field),
            element_end: start_of(field, next),
            strict: is_strict(field),
        }
    }

    // Whether a byte that is named breaks the rule; of a decimal field's it is said.
    fn is_guilty(self, decimal: bool, at: usize) -> bool {
        match self.rule {
            FenceRule::OverElements => self.element_end <= at,
            FenceRule::StopsMidElement => at.saturating_add(1) == self.end,
            FenceRule::OnDecimal => decimal,
            FenceRule::BoundNotLiteral | FenceRule::BoundsWrong | FenceRule::LeavesField => {
                !(self.own..self.own_end).contains(&at)
            }
        }
    }

    // The mark of a byte that is not named: a reference that only the run finds may reach it, unless its field is strict.
    fn outside(self) -> Mark {
        if self.rule == FenceRule::BoundNotLiteral && !self.strict {
            Mark::Reached
        } else {
            Mark::Outside
        }
    }

    // The mark of a byte.
    fn mark_at(self, decimal: bool, at: usize) -> Mark {
        if !(self.from..self.end).contains(&at) {
            self.outside()
        } else if self.is_guilty(decimal, at) {
            Mark::Guilty
        } else {
            Mark::Named
        }
    }

    // The strongest mark of some bytes.
    fn mark_of(self, decimal: bool, from: usize, end: usize) -> Mark {
        let marks = (from..end).map(|at| self.mark_at(decimal, at));
        marks.fold(self.outside(), |a, b| a.max(b))
    }

    // The mark of the column j of a cell. Of a longer one those between its ends have the strongest mark of the bytes there.
    fn mark_in(self, decimal: bool, cell: Cell, j: usize) -> Mark {
        if cell.len <= CELL || j < CELL_END {
            return self.mark_at(decimal, cell.from.saturating_add(j));
        }
        let end = cell.end();
        if CELL - CELL_END <= j {
            let at = end.saturating_add(j).saturating_sub(CELL);
            return self.mark_at(decimal, at);
        }
        let from = cell.from.saturating_add(CELL_END);
        self.mark_of(decimal, from, end.saturating_sub(CELL_END))
    }
}

// Whether a cell is of a decimal field.
fn is_decimal(unit: Unit<'_>, cell: Cell) -> bool {
    cell.element.is_some_and(|e| {
        let kind = unit.field(e.field).kind;
        unit_decode::is_decimal(kind)
    })
}

// ---- bytes

// Puts bytes, a column for each.
fn put_columns(l: &mut Line, s: &[u8]) {
    for b in s {
        l.column(*b);
    }
}

// Puts the bytes of a cell.
fn put_cell(l: &mut Line, s: &[u8]) {
    if s.len() <= CELL {
        put_columns(l, s);
        return;
    }
    put_columns(l, part(s, 0, CELL_END));
    l.text(b"..");
    put_columns(l, part(s, s.len().saturating_sub(CELL_END), CELL_END));
}

impl Picture<'_> {
    // Puts the bytes of the cells in some data, from the column of the first bar on; and two dots behind the last bar where the data goes on.
    fn put_bytes(&self, l: &mut Line, data: &[u8]) {
        l.fill_to(INDENT);
        let mut at = 0;
        for cell in self.cells.as_slice() {
            l.text(bar_between(cell.from, at));
            put_cell(l, cell.bytes(data));
            at = cell.end();
        }
        l.byte(b'|');
        if at < usize::from(self.unit.coded.parts.d) {
            l.text(b"..");
        }
    }

    // The line of the marks.
    fn marks(&self) -> Line {
        let mut l = Line::new();
        l.fill_to(INDENT);
        let mut at = 0;
        for cell in self.cells.as_slice() {
            let column = l.width().saturating_add(columns_before(cell.from, at));
            l.fill_to(column);
            let decimal = is_decimal(self.unit, *cell);
            for j in 0..cell.columns() {
                l.byte(self.frame.mark_in(decimal, *cell, j).byte());
            }
            at = cell.end();
        }
        l
    }
}

// ---- names and offsets

// What a line of labels tells of the cells.
#[derive(Clone, Copy)]
enum Labels {
    Offsets,
    Names,
}

// Which labels go before others: those of cells that break the rule, then those of cells that are named or of the reference's own field.
#[derive(Clone, Copy, PartialEq, Eq)]
enum Turn {
    Guilty,
    Named,
    Other,
}

// Puts a label at a column, if that leaves a space on each side.
fn put_label(l: &mut Line, label: &Line, column: usize) {
    let end = column.saturating_add(label.len());
    let from = column.saturating_sub(1);
    let mut around = l.bytes().iter().take(end.saturating_add(1)).skip(from);
    if end <= INDENT + COLUMNS && around.all(|b| *b == b' ') {
        l.fill_to(end);
        l.cover(column, label.bytes());
    }
}

// Puts the name of the field i.
fn put_field(l: &mut Line, unit: Unit<'_>, i: u16) {
    put_name(l, unit, unit.field(i), i);
}

// The label of a cell, behind the end of the cell before: its offset; or its field's name, where that is not before it already.
fn label_of(unit: Unit<'_>, cell: Cell, at: usize, labels: Labels) -> Line {
    let mut l = Line::new();
    match (labels, cell.element) {
        (Labels::Offsets, _) => write!(l, "{}", cell.from),
        (Labels::Names, None) => {}
        (Labels::Names, Some(e)) if e.number == 0 => put_field(&mut l, unit, e.field),
        (Labels::Names, Some(_)) if cell.from == at => {}
        (Labels::Names, Some(e)) => {
            put_field(&mut l, unit, e.field);
            write!(l, "({})", e.number.saturating_add(1));
        }
    }
    l
}

impl Picture<'_> {
    // The turn of a cell's label.
    fn turn_of(&self, cell: Cell) -> Turn {
        let f = self.frame;
        let is_own = (f.own..f.own_end).contains(&cell.from);
        match f.mark_of(is_decimal(self.unit, cell), cell.from, cell.end()) {
            Mark::Guilty => Turn::Guilty,
            Mark::Named => Turn::Named,
            Mark::Outside | Mark::Reached if is_own => Turn::Named,
            Mark::Outside | Mark::Reached => Turn::Other,
        }
    }

    // Puts the labels of a turn.
    fn put_turn(&self, l: &mut Line, turn: Turn, labels: Labels) {
        let mut column = INDENT;
        let mut at = 0;
        for cell in self.cells.as_slice() {
            column = column.saturating_add(columns_before(cell.from, at));
            if self.turn_of(*cell) == turn {
                put_label(l, &label_of(self.unit, *cell, at, labels), column);
            }
            column = column.saturating_add(cell.columns());
            at = cell.end();
        }
    }

    // The line of the offsets or of the names.
    fn labels(&self, labels: Labels) -> Line {
        let mut l = Line::new();
        for turn in [Turn::Guilty, Turn::Named, Turn::Other] {
            self.put_turn(&mut l, turn, labels);
        }
        l
    }
}

// ---- what a picture is of

// The frame of a reference to a field: it has no bytes of its own where only the run finds them, and is drawn as its field then. One whose bounds are wrong is drawn
// where it would be, as far as that lies in the data; it has no frame too far off, or where it names no bytes.
pub fn frame_of(unit: Unit<'_>, field: Field, r: Breaking, aim: Aim) -> Option<Frame> {
    let (from, end) = match (r.rule, aim) {
        (FenceRule::BoundNotLiteral, _) => {
            (usize::from(field.offset), unit_decode::end_of(field))
        }
        (FenceRule::BoundsWrong, Aim::Near { from, back, len }) => {
            let end = from.saturating_add(len).saturating_sub(back);
            (
                from.saturating_sub(back),
                end.min(usize::from(unit.coded.parts.d)),
            )
        }
        (FenceRule::BoundsWrong, Aim::FarBefore | Aim::FarBehind | Aim::Nowhere(_)) => return None,
        _ => {
            let from = usize::from(r.start);
            (from, from + usize::from(r.len))
        }
    };
    (from < end).then_some(Frame::new(field, r.rule, from, end))
}

// ---- the whole

// Writes a line without the spaces at its end, if there is something in it.
fn say_row(host: &Host, mut l: Line) {
    l.trim();
    if 0 < l.len() {
        host.say_line(l);
    }
}

// The four lines of a picture.
pub fn say_picture(host: &Host, unit: Unit<'_>, data: &[u8], frame: Frame) {
    let picture = Picture::new(unit, frame);
    say_row(host, picture.labels(Labels::Offsets));
    let mut l = unit.line();
    picture.put_bytes(&mut l, data);
    host.say_line(l);
    say_row(host, picture.labels(Labels::Names));
    say_row(host, picture.marks());
}
