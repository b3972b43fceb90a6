// Statements and expressions as text, in the words of docs/DIBASM.md: a field and a target have their names where they have one, else a field is named by its
// kind and number, and a target by its number.
// An expression is coded in postfix order. Its values stand as texts one after the other in the line, and an operator joins the last ones.
use crate::lines::{Line, part};
use crate::parts::{Unit, row_of};
use arrayvec::ArrayVec;
use rules_unit::{Act, Field, Form, Item, Kind, Op, Role, Statement, Verb};

// How tightly a text binds that is no operation of two values.
const TIGHTEST: u8 = 7;

// The most values that a sound unit holds at once.
pub const HELD: usize = 17;

// The text of a value: where it ends in the line, and how tightly it binds.
#[derive(Clone, Copy, Default)]
struct Value {
    end: usize,
    level: u8,
}

// The values held: the line that ends with their texts, where the first of them starts, and each of them.
#[derive(Drop)]
pub struct Held {
    pub line: Line,
    start: usize,
    values: ArrayVec<Value, HELD>,
}

impl Held {
    // No value, behind a line.
    pub fn new(line: Line) -> Held {
        let start = line.len();
        Held {
            line,
            start,
            values: ArrayVec::new(),
        }
    }

    // The number of the first of the last k values.
    fn index(&self, k: usize) -> usize {
        self.values.len().saturating_sub(k)
    }

    // Where the text of the value i starts, or where the last text ends.
    fn start_at(&self, i: usize) -> usize {
        let before = i.checked_sub(1);
        let value = before.and_then(|i| self.values.as_slice().get(i));
        value.map_or(self.start, |v| v.end)
    }

    // How tightly the text of the first of the last k values binds.
    fn level(&self, k: usize) -> u8 {
        let value = self.values.as_slice().get(self.index(k));
        value.map_or(TIGHTEST, |v| v.level)
    }

    // The text of the first of the last k values, in brackets if it is asked.
    fn value(&self, k: usize, asked: bool) -> Line {
        let i = self.index(k);
        let start = self.start_at(i);
        let end = self.start_at(i.saturating_add(1));
        let text = part(self.line.bytes(), start, end.saturating_sub(start));
        let mut l = Line::new();
        if asked {
            l.byte(b'(');
            l.text(text);
            l.byte(b')');
        } else {
            l.text(text);
        }
        l
    }

    // Takes the texts of the last k values off the line.
    fn cut(&mut self, k: usize) {
        let start = self.start_at(self.index(k));
        self.line.cut(start);
    }

    // Makes the last k values one, whose text the line now ends with; one value more where k is 0. Past the seventeenth, which a sound unit never holds, none is kept.
    fn hold(&mut self, k: usize, level: u8) {
        let i = self.index(k);
        self.values.truncate(i);
        let end = self.line.len();
        let _ = self.values.try_push(Value { end, level });
    }

    // Whether an expression is not gone on with, since the line is full.
    pub fn is_full(&self) -> bool {
        crate::lines::ROOM <= self.start_at(self.values.len())
    }

    // ---- references

    // Takes the values held last as the bounds of a reference, as many as its form has.
    fn hold_reference(&mut self, unit: Unit<'_>, form: Form, i: u16) {
        let taken = usize::from(unit_decode::form_takes(form));
        let first = self.value(2, false);
        let last = self.value(1, false);
        self.cut(taken);
        put_name(&mut self.line, unit, unit.field(i), i);
        match form {
            Form::First => {}
            Form::Subscript => put_bounds(&mut self.line, b"", b"", last.bytes()),
            Form::StartEnd => put_bounds(&mut self.line, first.bytes(), b",", last.bytes()),
            Form::PosLength => put_bounds(&mut self.line, first.bytes(), b":", last.bytes()),
        }
        self.hold(taken, TIGHTEST);
    }

    // ---- operators

    // An operator of one value: its sign stands before.
    fn hold_alone(&mut self, op: Op) {
        let (sign, level) = sign_of(op);
        let value = self.value(1, self.level(1) < level);
        self.cut(1);
        self.line.text(sign);
        self.line.text(value.bytes());
        self.hold(1, level);
    }

    // An operator of two values: its sign stands between them. Where the first has no brackets, its text stands there already.
    fn hold_joined(&mut self, op: Op) {
        let (sign, level) = sign_of(op);
        let last = self.value(1, self.level(1) <= level);
        if self.level(2) < level {
            let first = self.value(2, true);
            self.cut(2);
            self.line.text(first.bytes());
        } else {
            self.cut(1);
        }
        self.line.text(sign);
        self.line.text(last.bytes());
        self.hold(2, level);
    }

    // ---- expressions

    // Holds an item, which takes the values held last.
    pub fn item(&mut self, unit: Unit<'_>, item: Item) {
        match item {
            Item::Number { place, len } => {
                self.line.text(unit.literal(place, len));
                self.hold(0, TIGHTEST);
            }
            Item::Text { place, len } => {
                self.line.quoted(unit.literal(place, len));
                self.hold(0, TIGHTEST);
            }
            Item::Reference { form, field } => self.hold_reference(unit, form, field),
            Item::Operator(op) if unit_decode::op_takes(op) == 1 => self.hold_alone(op),
            Item::Operator(op) => self.hold_joined(op),
            Item::End | Item::Bad => {}
        }
    }

    // The line of the values held. Where it was too short for the expression, two dots follow the first value.
    fn into_line(mut self) -> Line {
        if self.line.is_full() {
            let end = self.start_at(self.values.len().min(1));
            self.line.cut(end);
            self.line.text(b"..");
        }
        self.line
    }
}

// ---- names

// The letter by which a field of a kind is named.
fn kind_letter(kind: Kind) -> u8 {
    match kind {
        Kind::Alpha => b'A',
        Kind::Decimal => b'D',
        Kind::Record => b'R',
        Kind::Bad => b'F',
    }
}

// Puts the name of the field i.
pub fn put_name(l: &mut Line, unit: Unit<'_>, field: Field, i: u16) {
    match unit.names.field(i) {
        Some(name) => l.text(name),
        None => {
            l.byte(kind_letter(field.kind));
            write!(l, "{i}");
        }
    }
}

// Puts the bounds of a reference, with what stands between them.
fn put_bounds(l: &mut Line, first: &[u8], between: &[u8], last: &[u8]) {
    l.byte(b'(');
    l.text(first);
    l.text(between);
    l.text(last);
    l.byte(b')');
}

// The sign of an operator, and how tightly it binds, as tools/dibasm has it.
fn sign_of(op: Op) -> (&'static [u8], u8) {
    match op {
        Op::Add => (b" + ", 4),
        Op::Subtract => (b" - ", 4),
        Op::Multiply => (b" * ", 5),
        Op::Divide => (b" / ", 5),
        Op::Round => (b" # ", 6),
        Op::Negate => (b"-", 7),
        Op::Eq => (b" .EQ. ", 3),
        Op::Ne => (b" .NE. ", 3),
        Op::Gt => (b" .GT. ", 3),
        Op::Lt => (b" .LT. ", 3),
        Op::Ge => (b" .GE. ", 3),
        Op::Le => (b" .LE. ", 3),
        Op::Not => (b".NOT. ", 2),
        Op::And => (b" .AND. ", 1),
        Op::Or => (b" .OR. ", 0),
        Op::Xor => (b" .XOR. ", 0),
    }
}

// The line with the expression at an offset of the expressions behind it.
fn with_expression(l: Line, unit: Unit<'_>, e: u16) -> Line {
    let mut held = Held::new(l);
    for (_, item) in unit.items(usize::from(e)) {
        if unit_decode::closes(item) || held.is_full() {
            break;
        }
        held.item(unit, item);
    }
    held.into_line()
}

// ---- statements

// The line with the targets of the n statements behind the statement i.
fn put_targets(l: &mut Line, unit: Unit<'_>, i: u16, n: u16) {
    for k in 1..=n {
        let at = i.saturating_add(k);
        if unit.coded.parts.n < at {
            break;
        }
        unit.names.put_label(l, unit.statement(at).c);
        if k < n {
            l.byte(b',');
        }
    }
}

// The line with the three numbers in a row behind it, of which the first stands at an offset of the expressions.
fn with_numbers(l: Line, unit: Unit<'_>, e: u16) -> Line {
    let [start, limit, step] = unit.in_row(e);
    let mut next = with_expression(l, unit, start);
    next.text(b" THRU ");
    next = with_expression(next, unit, limit);
    next.text(b" BY ");
    with_expression(next, unit, step)
}

// The line with a part of the statement i behind it, by its role: an expression, three in a row, a target, the targets of the statements behind it, or its loop end.
fn with_part(mut l: Line, unit: Unit<'_>, i: u16, role: Role, x: u16) -> Line {
    match role {
        Role::Written(_) | Role::Read(_) => return with_expression(l, unit, x),
        Role::Numbers => return with_numbers(l, unit, x),
        Role::Target => unit.names.put_label(&mut l, x),
        Role::Table => put_targets(&mut l, unit, i, x),
        Role::End => {
            l.text(b", ends at ");
            unit.names.put_label(&mut l, x);
        }
        Role::Unused | Role::Never => {}
    }
    l
}

// The words of a statement that does something at its place.
fn act_words(act: Act) -> &'static [u8] {
    match act {
        Act::Set => b"a = b",
        Act::Clear => b"CLEAR a",
        Act::Count { up: true } => b"INCR a",
        Act::Count { up: false } => b"DECR a",
        Act::Case { upper: true } => b"UPCASE a",
        Act::Case { upper: false } => b"LOCASE a",
        Act::Edit => b"a = c, b",
    }
}

// The words of a statement as DIBOL writes it, in which the letters a, b and c stand for its parts.
// A test that is false is zero, so what goes on elsewhere at zero goes there where the test does not hold.
fn words_of(s: Statement) -> &'static [u8] {
    match unit_decode::verb_of(s.code) {
        Verb::At(act) => act_words(act),
        Verb::Goto => b"GOTO c",
        Verb::IfZero => b"IF .NOT. (b) GOTO c",
        Verb::Call => b"CALL c",
        Verb::Return => b"RETURN",
        Verb::Stop => b"STOP",
        Verb::Computed => b"GOTO (a), b",
        Verb::For => b"FOR a = bc",
        Verb::LoopEnd => b"LOOP END",
        Verb::ExitLoop => b"EXITLOOP",
        Verb::NextLoop => b"NEXTLOOP",
        Verb::OnError => b"ONERROR c",
        Verb::OffError => b"OFFERROR",
        Verb::Bad => b"none",
    }
}

// The line with the statement i behind it, as DIBOL writes it.
pub fn with_statement(l: Line, unit: Unit<'_>, i: u16) -> Line {
    let s = unit.statement(i);
    let row = row_of(s);
    let mut next = l;
    for letter in words_of(s) {
        next = match letter {
            b'a' => with_part(next, unit, i, row.a, s.a),
            b'b' => with_part(next, unit, i, row.b, s.b),
            b'c' => with_part(next, unit, i, row.c, s.c),
            _ => {
                next.byte(*letter);
                next
            }
        };
    }
    next
}

// The statement i as text, with its number, and its source line where that is known.
pub fn statement_line(unit: Unit<'_>, i: u16) -> Line {
    let mut l = unit.line();
    write!(l, "statement {i}");
    if let Some(line) = unit.names.source_line(i) {
        write!(l, ", line {line}");
    }
    l.text(b": ");
    with_statement(l, unit, i)
}
