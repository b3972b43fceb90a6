// The coded unit's bytes, decoded: words, the trailer, field entries and where they end, items and how many values they take, expressions in a row,
// statements; and the table of statements. Nothing is checked here.
#![tactic(auto)]

ghost use Rattle.std.specs.Prelude.{◌≡◌, ◌+◌, ◌*◌, ◌<◌, ◌≤◌, length, drop, get_or, set};
ghost use Rattle.unit_decode.specs.Units.{code_in, expressions_in, RowsIn};
ghost use Rattle.rules_unit.specs.declared.Verb.TheVariants as verb;
ghost use Rattle.rules_unit.specs.Codes.{is_decimal};
ghost use Rattle.rules_unit.specs.Expressions.{op_takes, form_takes, takes, closesb, extent_of, next_at};
ghost use Rattle.rules_unit.specs.Table.{verb_of, row_with, row_of};
ghost use Rattle.rules_unit.specs.Decode.{word_at, eighteen, mark_of, dialect_of, parts_of, kind_of, field_at, reference_at, number_at, text_at, item_by, item_at, width_of, statement_at, expressions_at, literals_at, statements_at, full_length, items_at, Fills};
ghost use Rattle.unit_decode.specs.Rows.{Rows};

use rules_unit::{
    Act, Dialect, Field, Form, Item, Kind, Op, Parts, Role, Row, Statement, Verb, Want,
};

mod filled;

pub use filled::Coded;

// A byte as a word.
pub fn wide(x: u8) -> u16
    ensures { (result ≡ x) × (result < 256) }
{
    u16::from(x)
}

// A word as an index.
pub fn long(x: u16) -> usize
    ensures { result ≡ x }
{
    usize::from(x)
}

// The number of two bytes at an offset, high byte first.
pub fn word(u: &[u8], at: usize) -> u16
    requires { at + 1 < length u.now }
    ensures { result ≡ word_at u.now at }
{
    wide(u[at]) * 256 + wide(u[at + 1])
}

// ---- the dialect

// The dialect of eighteen digits, whose sign letters are p to y.
fn eighteen() -> Dialect
    ensures { result ≡ eighteen }
{
    Dialect {
        limit: 18,
        sign: 0x70,
        top: 1000000000000000000,
    }
}

// What the mark says, which is the last two bytes of the unit.
#[tactic(auto, unfolding(rules_unit::specs::Decode::mark_of))]
pub fn mark_of(u: &[u8]) -> Option<Dialect>
    requires { 12 ≤ length u.now }
    ensures { result ≡ mark_of u.now }
{
    let n = u.len();
    if u[n - 2] != 0x44 {
        return None;
    }
    match u[n - 1] {
        0x42 => Some(eighteen()),
        _ => None,
    }
}

// The dialect that a mark names; any where it is wrong.
fn dialect_of(mark: Option<Dialect>) -> Dialect
    ensures { result ≡ dialect_of mark }
{
    match mark {
        Some(dialect) => dialect,
        None => eighteen(),
    }
}

// ---- the parts

// The parts that the trailer names, with the dialect that its mark names.
#[tactic(auto, unfolding(rules_unit::specs::Decode::parts_of))]
pub fn parts_of(u: &[u8]) -> Parts
    requires { 12 ≤ length u.now }
    ensures { result ≡ parts_of u.now }
{
    let t = u.len() - 12;
    Parts {
        d: word(u, t),
        f: word(u, t + 2),
        e: word(u, t + 4),
        p: word(u, t + 6),
        n: word(u, t + 8),
        dialect: dialect_of(mark_of(u)),
    }
}

// Where the expressions start in the unit.
pub fn expressions_offset(parts: Parts) -> usize
    ensures { result ≡ expressions_at parts }
{
    let d = long(parts.d);
    let f = long(parts.f);
    d + f * 8
}

// Where the literals start in the unit.
pub fn literals_offset(parts: Parts) -> usize
    ensures { result ≡ literals_at parts }
{
    expressions_offset(parts) + long(parts.e)
}

// Where the statements start in the unit.
fn statements_offset(parts: Parts) -> usize
    ensures { result ≡ statements_at parts }
{
    literals_offset(parts) + long(parts.p)
}

// The bytes of the unit from its first statement on.
pub fn tail_of(unit: &[u8], parts: Parts) -> &[u8]
    requires { Fills unit.now parts }
    ensures { result.now ≡ drop (statements_at parts) unit.now }
{
    &unit[statements_offset(parts)..]
}

// The length of the unit that the parts fill.
pub fn full_length(parts: Parts) -> usize
    ensures { result ≡ full_length parts }
{
    statements_offset(parts) + long(parts.n) * 8 + 12
}

// ---- fields

// The kind of a field, by its byte; Bad for a byte that is none.
#[tactic(auto, unfolding(rules_unit::specs::Decode::kind_of))]
fn kind_of(b: u8) -> Kind
    ensures { result ≡ kind_of b }
{
    match b {
        0 => Kind::Alpha,
        1 => Kind::Decimal,
        2 => Kind::Record,
        _ => Kind::Bad,
    }
}

// Whether a field's kind is decimal.
pub fn is_decimal(kind: Kind) -> bool
    ensures { result ≡ is_decimal kind }
{
    matches!(kind, Kind::Decimal)
}

// The field entry at an offset of the unit.
#[tactic(auto, unfolding(rules_unit::specs::Decode::field_at))]
fn field_at(u: &[u8], at: usize) -> Field
    requires { at + 8 ≤ length u.now }
    ensures { result ≡ field_at u.now at }
{
    Field {
        kind: kind_of(u[at]),
        zero: u[at + 1],
        offset: word(u, at + 2),
        size: word(u, at + 4),
        count: word(u, at + 6),
    }
}

// Where a field ends in the data, or would end; no sum or product of words is too large for an index.
pub fn end_of(field: Field) -> usize
    ensures { result ≡ field.offset + field.count * field.size }
{
    long(field.offset) + long(field.count) * long(field.size)
}

// ---- expressions

// The reference at an offset of the expressions s; Bad where their end cuts it.
#[tactic(auto, unfolding(rules_unit::specs::Decode::reference_at))]
fn reference_at(s: &[u8], at: usize, form: Form) -> Item
    requires { at < length s.now }
    ensures { result ≡ reference_at s.now at form }
{
    if 2 < s.len() - at {
        Item::Reference {
            form,
            field: word(s, at + 1),
        }
    } else {
        Item::Bad
    }
}

// The number literal at an offset of the expressions s; Bad where their end cuts it.
#[tactic(auto, unfolding(rules_unit::specs::Decode::number_at))]
fn number_at(s: &[u8], at: usize) -> Item
    requires { at < length s.now }
    ensures { result ≡ number_at s.now at }
{
    if 3 < s.len() - at {
        Item::Number {
            place: word(s, at + 1),
            len: wide(s[at + 3]),
        }
    } else {
        Item::Bad
    }
}

// The alpha literal at an offset of the expressions s; Bad where their end cuts it.
#[tactic(auto, unfolding(rules_unit::specs::Decode::text_at))]
fn text_at(s: &[u8], at: usize) -> Item
    requires { at < length s.now }
    ensures { result ≡ text_at s.now at }
{
    if 4 < s.len() - at {
        Item::Text {
            place: word(s, at + 1),
            len: word(s, at + 3),
        }
    } else {
        Item::Bad
    }
}

// The operator of a code above those of literals and references; Bad for a code that is none. The bytes are named for the contract alone.
#[tactic(auto, unfolding(rules_unit::specs::Decode::item_by))]
pub fn operator_at(s: &[u8], at: usize, code: u8) -> Item
    requires { 6 < code }
    ensures { result ≡ item_by s.now at code }
{
    match code {
        0x10 => Item::Operator(Op::Add),
        0x11 => Item::Operator(Op::Subtract),
        0x12 => Item::Operator(Op::Multiply),
        0x13 => Item::Operator(Op::Divide),
        0x14 => Item::Operator(Op::Round),
        0x15 => Item::Operator(Op::Negate),
        0x16 => Item::Operator(Op::Eq),
        0x17 => Item::Operator(Op::Ne),
        0x18 => Item::Operator(Op::Gt),
        0x19 => Item::Operator(Op::Lt),
        0x1a => Item::Operator(Op::Ge),
        0x1b => Item::Operator(Op::Le),
        0x1c => Item::Operator(Op::Not),
        0x1d => Item::Operator(Op::And),
        0x1e => Item::Operator(Op::Or),
        0x1f => Item::Operator(Op::Xor),
        _ => Item::Bad,
    }
}

// The item of the code given, which stands at the offset.
#[tactic(auto, unfolding(rules_unit::specs::Decode::item_by))]
fn item_by(s: &[u8], at: usize, code: u8) -> Item
    requires { at < length s.now }
    ensures { result ≡ item_by s.now at code }
{
    match code {
        0x00 => Item::End,
        0x01 => number_at(s, at),
        0x02 => reference_at(s, at, Form::First),
        0x03 => reference_at(s, at, Form::Subscript),
        0x04 => reference_at(s, at, Form::StartEnd),
        0x05 => reference_at(s, at, Form::PosLength),
        0x06 => text_at(s, at),
        _ => operator_at(s, at, code),
    }
}

// The item at an offset of the expressions s; Bad past their end.
#[tactic(auto, unfolding(rules_unit::specs::Decode::item_at))]
pub fn item_at(s: &[u8], at: usize) -> Item
    ensures { result ≡ item_at s.now at }
{
    if s.len() <= at {
        return Item::Bad;
    }
    item_by(s, at, s[at])
}

// How many bytes an item takes.
pub fn width_of(item: Item) -> usize
    ensures { result ≡ width_of item }
{
    match item {
        Item::Number { .. } => 4,
        Item::Reference { .. } => 3,
        Item::Text { .. } => 5,
        Item::Operator(_) | Item::End | Item::Bad => 1,
    }
}

// How many values an operator takes.
pub fn op_takes(op: Op) -> u16
    ensures { result ≡ op_takes op }
{
    match op {
        Op::Negate | Op::Not => 1,
        _ => 2,
    }
}

// How many values a reference takes, as its bounds.
pub fn form_takes(form: Form) -> u16
    ensures { result ≡ form_takes form }
{
    match form {
        Form::First => 0,
        Form::Subscript => 1,
        Form::StartEnd | Form::PosLength => 2,
    }
}

// How many values an item takes.
pub fn takes_of(item: Item) -> u16
    ensures { result ≡ takes item }
{
    match item {
        Item::Reference { form, .. } => form_takes(form),
        Item::Operator(op) => op_takes(op),
        _ => 0,
    }
}

// ---- expressions in a row

// Whether no item behind this one belongs to the expression.
pub fn closes(item: Item) -> bool
    ensures { result ≡ closesb item }
{
    matches!(item, Item::End | Item::Bad)
}

// Where the expression behind the one at an offset starts, as it is noted; 0 where nothing is.
fn noted_row(rows: &[u16], at: usize) -> u16
    ensures { result ≡ get_or rows.now at 0 }
{
    if rows.len() <= at {
        return 0;
    }
    rows[at]
}

// Notes for an offset where the expression behind the one there starts. An offset outside the notes is not noted.
fn note_row(rows: &mut [u16], at: usize, next: u16)
    ensures { rows.new ≡ set rows.old at next }
{
    if at < rows.len() {
        rows[at] = next;
    }
}

// Where the expression behind the one at an offset of the expressions s starts: behind its 00, or at what is no item.
fn next_in(s: &[u8], rows: &[u16], at: usize) -> usize
    requires { Rows s.now rows.now }
    ensures { result ≡ at + extent_of (items_at s.now at) }
{
    let mut i = at;
    while i < s.len() {
        let known = noted_row(rows, i);
        if 0 < known {
            return long(known);
        }
        let item = item_at(s, i);
        if let Item::End = item {
            return i + 1;
        }
        if closes(item) {
            return i;
        }
        i = i + width_of(item);
    }
    i
}

// Notes where the expression behind the one at an offset of the expressions s starts, for each of its items up to one for which it is noted.
fn note_rows(s: &[u8], rows: &mut [u16], at: usize, next: u16)
    requires rows { Rows s.now rows.old }
    requires next_value { next ≡ at + extent_of (items_at s.now at) }
    ensures { Rows s.now rows.new }
{
    let mut i = at;
    while i < s.len() {
        if 0 < noted_row(rows, i) {
            return;
        }
        let item = item_at(s, i);
        if closes(item) {
            return;
        }
        note_row(rows, i, next);
        i = i + width_of(item);
    }
}

// ---- statements

// What a statement of a code does; Bad for a code that is none.
#[tactic(auto, unfolding(rules_unit::specs::Table::verb_of))]
pub fn verb_of(code: u8) -> Verb
    ensures { result ≡ verb_of code }
{
    match code {
        1 => Verb::At(Act::Set),
        2 => Verb::At(Act::Clear),
        3 => Verb::At(Act::Count { up: true }),
        4 => Verb::At(Act::Count { up: false }),
        5 => Verb::At(Act::Case { upper: true }),
        6 => Verb::At(Act::Case { upper: false }),
        7 => Verb::Goto,
        8 => Verb::IfZero,
        9 => Verb::Call,
        10 => Verb::Return,
        11 => Verb::Stop,
        12 => Verb::Computed,
        13 => Verb::At(Act::Edit),
        14 => Verb::For,
        15 => Verb::LoopEnd,
        16 => Verb::ExitLoop,
        17 => Verb::NextLoop,
        18 => Verb::OnError,
        19 => Verb::OffError,
        _ => Verb::Bad,
    }
}

// The row with the three parts given.
fn row_with(a: Role, b: Role, c: Role) -> Row
    ensures { result ≡ row_with a b c }
{
    Row { a, b, c }
}

// What the parts of a statement with a place are, by what it does there.
fn act_row(act: Act) -> Row
    ensures { result ≡ row_of (verb.At act) }
{
    match act {
        Act::Set => row_with(
            Role::Written(Want::Place),
            Role::Read(Want::Source),
            Role::Unused,
        ),
        Act::Clear => row_with(Role::Written(Want::Place), Role::Unused, Role::Unused),
        Act::Count { up: _ } => row_with(
            Role::Written(Want::DecimalPlace),
            Role::Unused,
            Role::Unused,
        ),
        Act::Case { upper: _ } => row_with(
            Role::Written(Want::AlphaPlace),
            Role::Unused,
            Role::Unused,
        ),
        Act::Edit => row_with(
            Role::Written(Want::AlphaPlace),
            Role::Read(Want::AlphaSource),
            Role::Read(Want::Number),
        ),
    }
}

// What the parts of a statement are, by what it does: its row in the table of statements.
pub fn row_of(verb: Verb) -> Row
    ensures { result ≡ row_of verb }
{
    match verb {
        Verb::At(act) => act_row(act),
        Verb::Goto => row_with(Role::Unused, Role::Unused, Role::Target),
        Verb::IfZero => row_with(Role::Unused, Role::Read(Want::Number), Role::Target),
        Verb::Call => row_with(Role::Unused, Role::Unused, Role::Target),
        Verb::Return => row_with(Role::Unused, Role::Unused, Role::Unused),
        Verb::Stop => row_with(Role::Unused, Role::Unused, Role::Unused),
        Verb::Computed => row_with(Role::Table, Role::Read(Want::Number), Role::Unused),
        Verb::For => row_with(Role::Written(Want::DecimalPlace), Role::Numbers, Role::End),
        Verb::LoopEnd => row_with(Role::Unused, Role::Unused, Role::Unused),
        Verb::ExitLoop => row_with(Role::Unused, Role::Unused, Role::Unused),
        Verb::NextLoop => row_with(Role::Unused, Role::Unused, Role::Unused),
        Verb::OnError => row_with(Role::Unused, Role::Unused, Role::Target),
        Verb::OffError => row_with(Role::Unused, Role::Unused, Role::Unused),
        Verb::Bad => row_with(Role::Never, Role::Never, Role::Never),
    }
}

// The statement at an offset of the unit.
#[tactic(auto, unfolding(rules_unit::specs::Decode::statement_at))]
fn statement_at(u: &[u8], at: usize) -> Statement
    requires { at + 8 ≤ length u.now }
    ensures { result ≡ statement_at u.now at }
{
    Statement {
        code: u[at],
        zero: u[at + 1],
        a: word(u, at + 2),
        b: word(u, at + 4),
        c: word(u, at + 6),
    }
}

// ---- a unit that its parts fill

impl Coded<'_> {
    // Its expressions.
    pub fn expressions(&self) -> &[u8]
        ensures value { result.now ≡ expressions_in self.now }
        ensures size { length result.now < 65536 }
    {
        let start = expressions_offset(self.parts);
        let end = start + long(self.parts.e);
        &self.unit[start..end]
    }

    // Its literals.
    pub fn literals(&self) -> &[u8]
        ensures { result.now ≡ (code_in self.now).literals }
    {
        let start = literals_offset(self.parts);
        let end = start + long(self.parts.p);
        &self.unit[start..end]
    }

    // The field entry i.
    pub fn field(&self, i: u16) -> Field
        requires { i < self.now.parts.f }
        ensures { result ≡ (code_in self.now).field i }
    {
        let d = long(self.parts.d);
        field_at(self.unit, d + long(i) * 8)
    }

    // Where the expression behind the one at an offset starts. What is noted is not looked for.
    fn next_by(&self, rows: &[u16], e: u16) -> u16
        requires { RowsIn self.now rows.now }
        ensures { result ≡ next_at (code_in self.now) e }
    {
        next_in(self.expressions(), rows, long(e)) as u16
    }

    // The same, where nothing is noted.
    pub fn next_at(&self, e: u16) -> u16
        ensures { result ≡ next_at (code_in self.now) e }
    {
        let rows = [0u16; 1];
        self.next_by(&rows, e)
    }

    // The same, and what is found is noted.
    pub fn next_noted(&self, rows: &mut [u16], e: u16) -> u16
        requires { RowsIn self.now rows.old }
        ensures value { result ≡ next_at (code_in self.now) e }
        ensures rows_of_2 { RowsIn self.now rows.new }
    {
        let next = self.next_by(rows, e);
        note_rows(self.expressions(), rows, long(e), next);
        next
    }

    // The statement i.
    pub fn statement(&self, i: u16) -> Statement
        requires { i < self.now.parts.n }
        ensures { result ≡ (code_in self.now).statement i }
    {
        statement_at(self.tail, long(i) * 8)
    }
}
