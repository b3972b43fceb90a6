// The types of a run: spans, what an expression comes to, one statement's turn, the resume state, the outcome. The rules themselves stand in specs/.
#![tactic(auto)]

ghost use Rattle.std.specs.Prelude.{◌≡◌, ◌+◌, ◌<◌, ◌≤◌};
ghost use Rattle.rules_run.specs.Turns.{stores, goes};
ghost use Rattle.rules_run.specs.States.{no_loop, gone, called, returned, entered, closed, armed, caught_by, look_of};
ghost use Rattle.rules_run.specs.Stops.{stop_number};

use rules::Fault;
use rules_unit::Refusal;

// The bytes that a reference names.
#[derive(Clone, Copy)]
pub struct Span {
    pub start: usize,
    pub len: usize,
}

// What an expression comes to where nothing fails. A last reference is found and not read.
#[derive(Clone, Copy)]
pub enum Worked {
    Number(i64),
    Place {
        decimal: bool,
        start: usize,
        len: usize,
    },
    Text {
        place: u16,
        len: u16,
    },
}

// What a statement stores. Each but Nothing names its span.
#[derive(Clone, Copy)]
pub enum Write {
    Nothing,
    // A number in a decimal span.
    Number {
        start: usize,
        len: usize,
        value: i64,
    },
    // A number in an alpha span.
    Show {
        start: usize,
        len: usize,
        value: i64,
    },
    // The count bytes of data that stand at from.
    Move {
        start: usize,
        len: usize,
        from: usize,
        count: usize,
    },
    // The count characters of the literals that stand at place.
    Literal {
        start: usize,
        len: usize,
        place: u16,
        count: u16,
    },
    // Zeros for decimal, spaces for alpha.
    Clear {
        start: usize,
        len: usize,
        decimal: bool,
    },
    // The span in the other case.
    Case {
        start: usize,
        len: usize,
        upper: bool,
    },
    // A number by a mask: the count bytes of data that stand at from.
    Edit {
        start: usize,
        len: usize,
        from: usize,
        count: usize,
        value: i64,
    },
    // A number by a mask: the count characters of the literals that stand at place.
    EditLiteral {
        start: usize,
        len: usize,
        place: usize,
        count: usize,
        value: i64,
    },
}

// Where the run goes on after a statement.
#[derive(Clone, Copy)]
pub enum Flow {
    Next,
    Goto(u16),
    Call(u16),
    Return,
    Stop,
    // A loop of this statement is opened, with its limit and its step.
    Enter { limit: i64, step: i64 },
    // The loop opened last is closed.
    Leave(u16),
    // The handler is this statement from here on.
    Arm(u16),
    // There is no handler from here on.
    Disarm,
}

// What a statement answers that gives no error: what it stores, and where the run goes on.
#[derive(Clone, Copy)]
pub struct Turn {
    pub write: Write,
    pub flow: Flow,
}

// A store, and on to the next statement.
pub fn stores(w: Write) -> Result<Turn, Fault>
    ensures { result ≡ stores w }
{
    Ok(Turn {
        write: w,
        flow: Flow::Next,
    })
}

// A statement that only goes on elsewhere.
pub fn goes(f: Flow) -> Result<Turn, Fault>
    ensures { result ≡ goes f }
{
    Ok(Turn {
        write: Write::Nothing,
        flow: f,
    })
}

// An open loop: its entry statement, its limit and its step.
#[derive(Clone, Copy)]
pub struct Loop {
    pub entry: u16,
    pub limit: i64,
    pub step: i64,
}

// A slot without a loop.
pub fn no_loop() -> Loop
    ensures { result ≡ no_loop }
{
    Loop {
        entry: 0,
        limit: 0,
        step: 0,
    }
}

// What a statement sees of the state: how many loops are open, and the one opened last.
#[derive(Clone, Copy)]
pub struct Look {
    pub opened: u16,
    pub last: Loop,
}

// An error that was trapped: its number and its statement.
#[derive(Clone, Copy)]
pub struct Caught {
    pub number: u8,
    pub statement: u16,
}

// What is known of errors: the handler, which is the statement where the run goes on after an error that is trapped, and the last error that was trapped.
#[derive(Clone, Copy)]
pub struct Trap {
    pub handler: Option<u16>,
    pub caught: Option<Caught>,
}

// The resume state: the statement to go on at, the calls still open with the numbers that they return to, the loops still open, the handler and the last
// error.
#[derive(Clone, Copy)]
pub struct State {
    pub at: u16,
    pub depth: u16,
    pub returns: [u16; 50],
    pub opened: u16,
    pub loops: [Loop; 16],
    pub trap: Trap,
}

impl State {
    // CALL: the number after this statement is stored, and the run goes on at to. The return numbers are changed in a copy of their own, here and in
    // `back`: changed where they stand, they have the compiler copy the whole state some times over, 663 instructions more for a CALL and its RETURN.
    pub fn call(mut self, to: u16) -> Self
        requires { (self.at < 65535) × (self.depth < 50) }
        ensures { result ≡ called self to }
    {
        let d = self.depth as usize;
        let mut returns = self.returns;
        returns[d] = self.at + 1;
        self.returns = returns;
        self.depth = self.depth + 1;
        self.at = to;
        self
    }

    // RETURN: the run goes on at the number stored last, whose entry becomes zero.
    pub fn back(mut self) -> Self
        requires { (0 < self.depth) × (self.depth ≤ 50) }
        ensures { result ≡ returned self }
    {
        let d = (self.depth - 1) as usize;
        let mut returns = self.returns;
        self.at = returns[d];
        returns[d] = 0;
        self.returns = returns;
        self.depth = self.depth - 1;
        self
    }

    // FOR: a loop of this statement is opened, and the run goes on at the next one.
    pub fn enter(mut self, limit: i64, step: i64) -> Self
        requires { (self.at < 65535) × (self.opened < 16) }
        ensures { result ≡ entered self limit step }
    {
        let i = self.opened as usize;
        self.loops[i] = Loop {
            entry: self.at,
            limit: limit,
            step: step,
        };
        self.opened = self.opened + 1;
        self.at = self.at + 1;
        self
    }

    // The loop opened last is closed, its slot becomes zero, and the run goes on at to.
    pub fn leave(mut self, to: u16) -> Self
        requires { (0 < self.opened) × (self.opened ≤ 16) }
        ensures { result ≡ closed self to }
    {
        let i = (self.opened - 1) as usize;
        self.loops[i] = no_loop();
        self.opened = self.opened - 1;
        self.at = to;
        self
    }

    // ONERROR and OFFERROR: the handler is h from here on, and the run goes on at the next statement.
    pub fn arm(mut self, h: Option<u16>) -> Self
        requires { self.at < 65535 }
        ensures { result ≡ armed self h }
    {
        self.trap.handler = h;
        self.at = self.at + 1;
        self
    }

    // The error of this statement is trapped: it is the last one, and the run goes on at to.
    pub fn trapped(mut self, number: u8, to: u16) -> Self
        ensures { result ≡ caught_by self number to }
    {
        let trap = self.trap;
        let handler = trap.handler;
        let next = Trap {
            handler: handler,
            caught: Some(Caught {
                number: number,
                statement: self.at,
            }),
        };
        self.trap = next;
        self.at = to;
        self
    }

    // What a statement sees.
    pub fn look(self) -> Look
        requires { self.opened ≤ 16 }
        ensures { result ≡ look_of self }
    {
        let opened = self.opened;
        if opened == 0 {
            return Look {
                opened: 0,
                last: no_loop(),
            };
        }
        let i = (opened - 1) as usize;
        Look {
            opened: opened,
            last: self.loops[i],
        }
    }

    // The run goes on at to.
    pub fn goto(mut self, to: u16) -> Self
        ensures { result ≡ gone self to }
    {
        self.at = to;
        self
    }

    // The run goes on at the next statement.
    pub fn advance(mut self) -> Self
        requires { self.at < 65535 }
        ensures { result ≡ gone self (self.at + 1) }
    {
        self.at = self.at + 1;
        self
    }
}

// Why a call of the run ended.
#[derive(Clone, Copy)]
pub enum Stop {
    // The end was reached.
    End,
    // The unit is refused.
    Refused(Refusal),
    // The data buffer isn't D bytes.
    WrongSize,
    // The resume state is unsound.
    Unsound,
    // A statement was not completed.
    Failed(Fault),
    // The allowance was spent before the end.
    Spent,
}

// What a call of the run answers: why it ended and where, how many statements were completed, and the next resume state.
#[derive(Clone, Copy)]
pub struct Outcome {
    pub stop: Stop,
    pub place: u16,
    pub count: u64,
    pub state: State,
}

// The papers' number for a stop.
pub fn stop_number(s: Stop) -> u8
    ensures { result ≡ stop_number s }
{
    match s {
        Stop::End => 0,
        Stop::Refused(r) => rules_unit::refusal_number(r),
        Stop::WrongSize => 6,
        Stop::Unsound => 7,
        Stop::Failed(f) => rules::fault_number(f),
        Stop::Spent => 30,
    }
}
