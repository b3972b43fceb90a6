// The types of the coded unit (document 01, "The coded unit"). The rules themselves stand in specs/.
#![tactic(auto)]

ghost use Rattle.std.specs.Prelude.{◌≡◌};
ghost use Rattle.rules_unit.specs.Checks.{refusal_number, refusal_place};

// A dialect: which numbers there are, and how they are written.
#[derive(Clone, Copy)]
pub struct Dialect {
    // The most digits that a number may have.
    pub limit: u16,
    // The character that stands for a last digit 0 with a minus.
    pub sign: u8,
    // The first magnitude that has more digits: 10 to the limit.
    pub top: u64,
}

// The lengths of a unit's parts, as its trailer names them, and its dialect.
#[derive(Clone, Copy)]
pub struct Parts {
    // Bytes of data.
    pub d: u16,
    // Fields.
    pub f: u16,
    // Bytes of expressions.
    pub e: u16,
    // Bytes of literals.
    pub p: u16,
    // Statements.
    pub n: u16,
    pub dialect: Dialect,
}

// What a field holds.
#[derive(Clone, Copy)]
pub enum Kind {
    Alpha,
    Decimal,
    Record,
    Bad,
}

// The rule by which a reference with bounds is found. A span may leave a loose field, and not a strict one.
#[derive(Clone, Copy)]
pub enum Rule {
    Loose,
    Strict,
}

// A field entry. Its zero byte has the field's choice of a rule.
#[derive(Clone, Copy)]
pub struct Field {
    pub kind: Kind,
    pub zero: u8,
    pub offset: u16,
    pub size: u16,
    pub count: u16,
}

// The form of a reference: 02, which has no bounds and names the first element, 03, 04, 05.
#[derive(Clone, Copy)]
pub enum Form {
    First,
    Subscript,
    StartEnd,
    PosLength,
}

// The operators, 10 to 1F.
#[derive(Clone, Copy)]
pub enum Op {
    Add,
    Subtract,
    Multiply,
    Divide,
    Round,
    Negate,
    Eq,
    Ne,
    Gt,
    Lt,
    Ge,
    Le,
    Not,
    And,
    Or,
    Xor,
}

// An item of an expression. Bad is a code that is none, or an item that the end of the expressions cuts.
#[derive(Clone, Copy)]
pub enum Item {
    Number { place: u16, len: u16 },
    Reference { form: Form, field: u16 },
    Text { place: u16, len: u16 },
    Operator(Op),
    End,
    Bad,
}

// A statement as it is coded: its code, the zero byte and the three parts.
#[derive(Clone, Copy)]
pub struct Statement {
    pub code: u8,
    pub zero: u8,
    pub a: u16,
    pub b: u16,
    pub c: u16,
}

// What a statement does at its place a.
#[derive(Clone, Copy)]
pub enum Act {
    // SET from source b.
    Set,
    // CLEAR.
    Clear,
    // INCR, or DECR where it is not up.
    Count { up: bool },
    // UPCASE, or LOCASE where it is not upper.
    Case { upper: bool },
    // SET from number c with mask b.
    Edit,
}

// What a statement does, by its code: something at its place, where the run goes on, something about a loop or about the handler; Bad for a code that is none.
#[derive(Clone, Copy)]
pub enum Verb {
    At(Act),
    Goto,
    IfZero,
    Call,
    Return,
    Stop,
    Computed,
    // The entry of a loop.
    For,
    LoopEnd,
    ExitLoop,
    NextLoop,
    OnError,
    OffError,
    Bad,
}

// The sort of an expression, by its last item; Wrong where it is badly formed.
#[derive(Clone, Copy)]
pub enum Sort {
    Wrong,
    Number,
    Text,
    Decimal,
    Alpha,
}

// The sort that a use of an expression wants.
#[derive(Clone, Copy)]
pub enum Want {
    Place,
    DecimalPlace,
    AlphaPlace,
    Source,
    Number,
    AlphaSource,
}

// How a part of a statement uses an expression: the sort wanted, where it starts, and whether it is written.
#[derive(Clone, Copy)]
pub struct Use {
    pub want: Want,
    pub at: u16,
    pub written: bool,
}

// What a part of a statement is.
#[derive(Clone, Copy)]
pub enum Role {
    // Zero.
    Unused,
    // A place of the sort wanted, which is written.
    Written(Want),
    // An expression of the sort wanted, which is read.
    Read(Want),
    // The number of a statement.
    Target,
    // How many GOTO statements stand right after the statement.
    Table,
    // Three numbers in a row, which are read: where the first one starts.
    Numbers,
    // The number of the loop end of a FOR.
    End,
    // Wrong, whatever it is: the statement has no such code.
    Never,
}

// A row of the table of statements: what the three parts are.
#[derive(Clone, Copy)]
pub struct Row {
    pub a: Role,
    pub b: Role,
    pub c: Role,
}

// What is found of one statement: it stands, or 5, or 4.
#[derive(Clone, Copy)]
pub enum Found {
    Good,
    BadShape,
    BadExpression,
}

// Why a unit is refused, with the place.
#[derive(Clone, Copy)]
pub enum Refusal {
    NotFilled,
    BadRange,
    BadField(u16),
    BadExpression(u16),
    BadStatement(u16),
}

// A stretch of the unit: where it starts, and its length.
#[derive(Clone, Copy)]
pub struct Stretch {
    pub at: usize,
    pub len: usize,
}

// Document 01's number for a refusal.
pub fn refusal_number(r: Refusal) -> u8
    ensures { result ≡ refusal_number r }
{
    match r {
        Refusal::NotFilled => 1,
        Refusal::BadRange => 2,
        Refusal::BadField(_) => 3,
        Refusal::BadExpression(_) => 4,
        Refusal::BadStatement(_) => 5,
    }
}

// The place that document 01 names with a refusal.
pub fn refusal_place(r: Refusal) -> u16
    ensures { result ≡ refusal_place r }
{
    match r {
        Refusal::NotFilled | Refusal::BadRange => 0,
        Refusal::BadField(i) | Refusal::BadExpression(i) | Refusal::BadStatement(i) => i,
    }
}
