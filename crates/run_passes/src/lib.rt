// FOR, loop end, EXITLOOP and NEXTLOOP: the entry, the passes and the ways out of a loop. Data is only read here. A control place is found by
// `run_evaluate::worked`, so that the shorter way of `run_evaluate::place` keeps its one caller, into which the compiler puts it.
#![tactic(auto)]

ghost use Rattle.std.specs.Prelude.{◌≡◌, true, ◌+◌, ◌^◌, ◌<◌, ◌≤◌, length};
ghost use Rattle.unit_decode.specs.Units.{code_in};
ghost use Rattle.rules.specs.Values.{Val};
ghost use Rattle.rules_unit.specs.declared.Verb.TheVariants.{For};
ghost use Rattle.rules_unit.specs.Decode.{SoundDialect};
ghost use Rattle.rules_unit.specs.Sound.{SoundCode};
ghost use Rattle.rules_run.specs.Evaluation.{worked_of};
ghost use Rattle.rules_run.specs.States.{LoopSound, LookSound};
ghost use Rattle.rules_run.specs.Turns.{on_place, testb, fitsb, controls, enter_flow, enter_by, enter_at, enters, entry_of, pass_flow, pass_at, repeats, exits};
ghost use Rattle.run_passes.specs.Passes.{enter_step, enter_limit, pass_by, loop_turn};

use rules::Fault;
use rules_run::{Flow, Look, Turn, Worked, Write};
use rules_unit::{Parts, Statement, Verb};
use unit_decode::Coded;

// ---- the control value

// Whether a pass follows with the control value v: with a positive step where it is not above the limit, with a negative one where it is not below.
fn test(v: i64, limit: i64, step: i64) -> bool
    ensures { result ≡ testb v limit step }
{
    if step < 0 {
        return limit <= v;
    }
    v <= limit
}

// Whether a value fits a control field of len characters.
fn fits(len: usize, v: i64) -> bool
    requires len_bound { len ≤ 18 }
    requires val { Val (10 ^ 18) v }
    ensures { result ≡ fitsb len v }
{
    number::magnitude(v) < number::power(len)
}

// A control value that is stored, and where the run goes on; 20 where it doesn't fit.
fn control(start: usize, len: usize, v: i64, flow: Flow) -> Result<Turn, Fault>
    requires len_bound { len ≤ 18 }
    requires val { Val (10 ^ 18) v }
    ensures { result ≡ controls start len v flow }
{
    if !fits(len, v) {
        return Err(Fault::TooLong);
    }
    Ok(Turn {
        write: Write::Number {
            start,
            len,
            value: v,
        },
        flow,
    })
}

// ---- FOR

// Where a FOR goes on whose three numbers are known: into its loop, or behind its loop end.
fn enter_flow(end: u16, v: i64, limit: i64, step: i64) -> Flow
    requires { end < 65535 }
    ensures { result ≡ enter_flow end v limit step }
{
    if test(v, limit, step) {
        return Flow::Enter { limit, step };
    }
    Flow::Goto(end + 1)
}

// A FOR whose control place and three numbers are known: 27 for a step of zero comes before 20 for a start that doesn't fit.
fn enter_by(
    end: u16,
    start: usize,
    len: usize,
    v: i64,
    limit: i64,
    step: i64,
) -> Result<Turn, Fault>
    requires end_bound { end < 65535 }
    requires len_bound { len ≤ 18 }
    requires val { Val (10 ^ 18) v }
    ensures { result ≡ enter_by end start len v limit step }
{
    if step == 0 {
        return Err(Fault::ZeroStep);
    }
    control(start, len, v, enter_flow(end, v, limit, step))
}

// A FOR whose step is the number at e, and the last to be worked out.
fn enter_step(
    coded: &Coded,
    bytes: &[u8],
    e: u16,
    end: u16,
    start: usize,
    len: usize,
    v: i64,
    limit: i64,
) -> Result<Turn, Fault>
    requires sound_dialect { SoundDialect coded.now.parts.dialect }
    requires bytes_len_bound { length bytes.now < 65536 }
    requires end_bound { end < 65535 }
    requires len_bound { len ≤ 18 }
    requires val { Val (10 ^ 18) v }
    ensures { result ≡ enter_step (code_in coded.now) bytes.now e end start len v limit }
{
    let step = run_evaluate::value_at(coded, bytes, e)?;
    enter_by(end, start, len, v, limit, step)
}

// A FOR whose limit is the number at e; its step is the one behind it.
fn enter_limit(
    coded: &Coded,
    bytes: &[u8],
    e: u16,
    end: u16,
    start: usize,
    len: usize,
    v: i64,
) -> Result<Turn, Fault>
    requires sound_dialect { SoundDialect coded.now.parts.dialect }
    requires bytes_len_bound { length bytes.now < 65536 }
    requires end_bound { end < 65535 }
    requires len_bound { len ≤ 18 }
    requires val { Val (10 ^ 18) v }
    ensures { result ≡ enter_limit (code_in coded.now) bytes.now e end start len v }
{
    let limit = run_evaluate::value_at(coded, bytes, e)?;
    let next = coded.next_at(e);
    enter_step(coded, bytes, next, end, start, len, v, limit)
}

// A FOR whose control place is found, which is decimal: its start is worked out, then its limit and its step, which stand behind it.
fn enter_at(
    coded: &Coded,
    bytes: &[u8],
    s: Statement,
    decimal: bool,
    start: usize,
    len: usize,
) -> Result<Turn, Fault>
    requires sound_dialect { SoundDialect coded.now.parts.dialect }
    requires bytes_len_bound { length bytes.now < 65536 }
    requires c_bound { s.c < 65535 }
    requires len_bound { decimal ≡ true → len ≤ 18 }
    ensures { result ≡ enter_at (code_in coded.now) bytes.now s decimal start len }
{
    if !decimal {
        return Err(Fault::Malformed);
    }
    let v = run_evaluate::value_at(coded, bytes, s.b)?;
    let next = coded.next_at(s.b);
    enter_limit(coded, bytes, next, s.c, start, len, v)
}

// FOR: 28 where 16 loops are open comes before anything is worked out.
fn enter(coded: &Coded, bytes: &[u8], look: Look, s: Statement) -> Result<Turn, Fault>
    requires sound_dialect { SoundDialect coded.now.parts.dialect }
    requires bytes_len_bound { length bytes.now < 65536 }
    requires c_bound { s.c < 65535 }
    ensures { result ≡ enters (code_in coded.now) look bytes.now s }
{
    if 16 <= look.opened {
        return Err(Fault::LoopsFull);
    }
    match run_evaluate::worked(coded, bytes, s.a)? {
        Worked::Place {
            decimal,
            start,
            len,
        } => enter_at(coded, bytes, s, decimal, start, len),
        _ => Err(Fault::Malformed),
    }
}

// ---- loop end and NEXTLOOP

// Where a pass goes on with the control value v: behind the entry s of the loop opened last, or behind the loop end that it names. `coded` is named for
// the contract alone.
fn pass_flow(coded: &Coded, look: Look, s: Statement, v: i64) -> Flow
    requires s_value { s ≡ entry_of (code_in coded.now) look }
    requires c_bound { s.c < 65535 }
    requires last_bound { look.last.entry < 65535 }
    ensures { result ≡ pass_flow (code_in coded.now) look v }
{
    let last = look.last;
    if test(v, last.limit, last.step) {
        return Flow::Goto(last.entry + 1);
    }
    Flow::Leave(s.c + 1)
}

// A pass whose control value is x before the step is added.
fn pass_by(
    coded: &Coded,
    look: Look,
    s: Statement,
    start: usize,
    len: usize,
    x: i64,
) -> Result<Turn, Fault>
    requires sound_dialect { SoundDialect coded.now.parts.dialect }
    requires loop_sound { LoopSound (code_in coded.now) look.last }
    requires s_value { s ≡ entry_of (code_in coded.now) look }
    requires c_bound { s.c < 65535 }
    requires len_bound { len ≤ 18 }
    requires val { Val (10 ^ 18) x }
    ensures { result ≡ pass_by (code_in coded.now) look start len x }
{
    let last = look.last;
    let v = number::add(coded.parts.dialect.top, x, last.step)?;
    control(start, len, v, pass_flow(coded, look, s, v))
}

// A pass whose control place is found, which is decimal: it is read before the step is added.
fn pass_at(
    coded: &Coded,
    bytes: &[u8],
    look: Look,
    s: Statement,
    decimal: bool,
    start: usize,
    len: usize,
) -> Result<Turn, Fault>
    requires sound_dialect { SoundDialect coded.now.parts.dialect }
    requires loop_sound { LoopSound (code_in coded.now) look.last }
    requires s_value { s ≡ entry_of (code_in coded.now) look }
    requires c_bound { s.c < 65535 }
    requires len_in_bounds { start + len ≤ length bytes.now }
    requires len_bound { decimal ≡ true → len ≤ 18 }
    ensures { result ≡ pass_at (code_in coded.now) look bytes.now decimal start len }
{
    if !decimal {
        return Err(Fault::Malformed);
    }
    let x = run_items::read_at(coded.parts, bytes, start, len)?;
    pass_by(coded, look, s, start, len, x)
}

// A pass of the loop opened last, whose entry is s: its control place is found again.
fn pass(coded: &Coded, bytes: &[u8], look: Look, s: Statement) -> Result<Turn, Fault>
    requires sound_dialect { SoundDialect coded.now.parts.dialect }
    requires bytes_len_bound { length bytes.now < 65536 }
    requires loop_sound { LoopSound (code_in coded.now) look.last }
    requires s_value { s ≡ entry_of (code_in coded.now) look }
    requires c_bound { s.c < 65535 }
    ensures { result ≡ on_place (worked_of (code_in coded.now) bytes.now ((code_in coded.now).items s.a)) (pass_at (code_in coded.now) look bytes.now) }
{
    match run_evaluate::worked(coded, bytes, s.a)? {
        Worked::Place {
            decimal,
            start,
            len,
        } => pass_at(coded, bytes, look, s, decimal, start, len),
        _ => Err(Fault::Malformed),
    }
}

// Loop end and NEXTLOOP: 29 where no loop is open, and a pass of the loop opened last otherwise.
fn repeat(coded: &Coded, bytes: &[u8], look: Look) -> Result<Turn, Fault>
    requires sound_dialect { SoundDialect coded.now.parts.dialect }
    requires bytes_len_bound { length bytes.now < 65536 }
    requires sound_code { SoundCode (code_in coded.now) }
    requires look_sound { LookSound (code_in coded.now) look }
    ensures { result ≡ repeats (code_in coded.now) look bytes.now }
{
    if look.opened == 0 {
        return Err(Fault::NoLoop);
    }
    let s = coded.statement(look.last.entry);
    pass(coded, bytes, look, s)
}

// ---- EXITLOOP

// EXITLOOP: 29 where no loop is open; otherwise nothing is worked out, and the loop opened last is left.
fn exit(coded: &Coded, look: Look) -> Result<Turn, Fault>
    requires sound_code { SoundCode (code_in coded.now) }
    requires look_sound { LookSound (code_in coded.now) look }
    ensures { result ≡ exits (code_in coded.now) look }
{
    if look.opened == 0 {
        return Err(Fault::NoLoop);
    }
    let s = coded.statement(look.last.entry);
    rules_run::goes(Flow::Leave(s.c + 1))
}

// ---- the four statements

// What a statement answers that works on loops; any other verb is none of them. Each of the four arms of `run_statement::work` calls this function, though
// it asks for the verb again: what is called at one place only the compiler puts right there, and so into the loop of the run. With `enter` and `exit`
// called at one place each, runs without a loop took 8 % more instructions.
pub fn loop_turn(
    coded: &Coded,
    bytes: &[u8],
    look: Look,
    verb: Verb,
    s: Statement,
) -> Result<Turn, Fault>
    requires sound_dialect { SoundDialect coded.now.parts.dialect }
    requires bytes_len_bound { length bytes.now < 65536 }
    requires sound_code { SoundCode (code_in coded.now) }
    requires look_sound { LookSound (code_in coded.now) look }
    requires c_bound { verb ≡ For → s.c < 65535 }
    ensures { result ≡ loop_turn (code_in coded.now) look bytes.now verb s }
{
    match verb {
        Verb::For => enter(coded, bytes, look, s),
        Verb::LoopEnd => repeat(coded, bytes, look),
        Verb::ExitLoop => exit(coded, look),
        Verb::NextLoop => repeat(coded, bytes, look),
        _ => Err(Fault::Malformed),
    }
}
