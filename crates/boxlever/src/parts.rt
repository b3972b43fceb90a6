// A unit that passed its check, read without a condition: where a number is past the last entry, what is answered is an empty entry, and no number where the
// dialect's are past their limits. Of the unit's own numbers none is so.
ghost use Rattle.std.specs.Iterator.{at_most};

use crate::lines::{Line, Show, part};
use crate::names::Names;
use rules_unit::{Field, Item, Kind, Refusal, Row, Statement};
use unit_decode::Coded;

// A unit that passed its check: its bytes and the parts that fill them, the names of its fields and statements, and how it is shown.
#[derive(Clone, Copy)]
pub struct Unit<'a> {
    pub coded: Coded<'a>,
    pub names: Names<'a>,
    pub show: Show,
}

// Some data of a unit: its bytes, and the file that has them; none where they are the unit's own.
#[derive(Clone, Copy)]
pub struct Image<'a> {
    pub bytes: &'a [u8],
    pub file: Option<&'a [u8]>,
}

// An empty entry: what is answered where there is no such field.
const NO_FIELD: Field = Field {
    kind: Kind::Bad,
    zero: 0,
    offset: 0,
    size: 0,
    count: 0,
};

// A statement of no code.
const NO_STATEMENT: Statement = Statement {
    code: 0,
    zero: 0,
    a: 0,
    b: 0,
    c: 0,
};

impl<'a> Unit<'a> {
    // The unit of some bytes with its names, if it passes its check.
    pub fn new(bytes: &'a [u8], names: Names<'a>, show: Show) -> Result<Unit<'a>, Refusal> {
        let parts = dibol::check(bytes)?;
        let coded = Coded {
            unit: bytes,
            parts,
            tail: unit_decode::tail_of(bytes, parts),
        };
        Ok(Unit { coded, names, show })
    }

    // A line for the unit.
    pub fn line(self) -> Line {
        Line::with_letters(self.show.letters)
    }

    // The unit's own data.
    pub fn image(self) -> Image<'a> {
        Image {
            bytes: part(self.coded.unit, 0, usize::from(self.coded.parts.d)),
            file: None,
        }
    }

    // The field i.
    pub fn field(self, i: u16) -> Field {
        if self.coded.parts.f <= i {
            return NO_FIELD;
        }
        self.coded.field(i)
    }

    // The statement i.
    pub fn statement(self, i: u16) -> Statement {
        if self.coded.parts.n <= i {
            return NO_STATEMENT;
        }
        self.coded.statement(i)
    }

    // Where the expressions of three numbers in a row start, of which the first is given.
    pub fn in_row(self, e: u16) -> [u16; 3] {
        let limit = self.coded.next_at(e);
        let step = self.coded.next_at(limit);
        [e, limit, step]
    }

    // The bytes of the expressions.
    pub fn expressions(&self) -> &[u8] {
        self.coded.expressions()
    }

    // The items of the expressions from an offset on.
    pub fn items(&self, at: usize) -> Items<'_> {
        let es = self.expressions();
        Items {
            es,
            at,
            left: es.len(),
        }
    }

    // The len bytes from a place of the literals on.
    pub fn literal(&self, place: u16, len: u16) -> &[u8] {
        part(self.coded.literals(), usize::from(place), usize::from(len))
    }

    // The value of a decimal, as the unit's dialect writes it.
    pub fn number(self, s: &[u8]) -> Option<i64> {
        let dialect = self.coded.parts.dialect;
        let limit = unit_decode::long(dialect.limit);
        let sign = dialect.sign as u64;
        if 18 < limit || sign < 58 || 246 < sign {
            return None;
        }
        text::read(limit, sign, s).ok()
    }
}

// What the parts of a statement are.
pub fn row_of(s: Statement) -> Row {
    unit_decode::row_of(unit_decode::verb_of(s.code))
}

// The items of some expressions from an offset on, each with its offset. There are at most as many as bytes.
#[derive(Drop)]
pub struct Items<'a> {
    es: &'a [u8],
    at: usize,
    left: usize,
}

impl<'a> Iterator for Items<'a> {
    type Item = (usize, Item);

    ghost remaining = { λ s. at_most s.left };

    fn next(&mut self) -> Option<(usize, Item)> {
        self.left = self.left.checked_sub(1)?;
        let at = self.at;
        let item = unit_decode::item_at(self.es, at);
        self.at = at.saturating_add(unit_decode::width_of(item));
        Some((at, item))
    }
}
