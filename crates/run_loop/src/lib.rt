// The run: statements one after the other within an allowance.
#![tactic(auto)]

ghost use Rattle.std.specs.Prelude.{◌≡◌, ◌+◌, ◌-◌, ◌<◌, ◌≤◌, length, Ok};
ghost use Rattle.unit_decode.specs.Units.{code_in};
ghost use Rattle.rules_unit.specs.Decode.{SoundDialect};
ghost use Rattle.rules_unit.specs.Checks.{check_of};
ghost use Rattle.rules_unit.specs.Sound.{SoundCode};
ghost use Rattle.rules_run.specs.States.{Sound, LookSound};
ghost use Rattle.rules_run.specs.Turns.{turn_of};
ghost use Rattle.rules_run.specs.Runs.{Ran, run_from};
ghost use Rattle.run_loop.specs.Flows.{turn_under};
ghost use Rattle.run_loop.specs.Stretches.{after_error, after_stop, Stretched};

use alpha::Cases;
use rules::Fault;
use rules_run::{Flow, Look, Outcome, State, Stop, Turn};
use rules_unit::Parts;
use unit_decode::Coded;

// ---- where a statement leads

// What a turn comes to where depth calls are open: 24 for a CALL with 50 calls open, 25 for a RETURN with none open, and otherwise the turn itself.
#[tactic(auto, using(crate::proofs::Flows::under_as))]
fn turn_under(depth: u16, turn: Turn) -> Result<Turn, Fault>
    ensures { result ≡ turn_under depth (Ok turn) }
{
    let flow = turn.flow;
    match flow {
        Flow::Next => Ok(turn),
        Flow::Goto(_) => Ok(turn),
        Flow::Call(_) => {
            if depth < 50 {
                return Ok(turn);
            }
            Err(Fault::CallsFull)
        }
        Flow::Return => {
            if depth == 0 {
                return Err(Fault::NoCall);
            }
            Ok(turn)
        }
        Flow::Stop => Ok(turn),
        Flow::Enter { limit: _, step: _ } => Ok(turn),
        Flow::Leave(_) => Ok(turn),
        Flow::Arm(_) => Ok(turn),
        Flow::Disarm => Ok(turn),
    }
}

// The turn of the statement at, where it sees look of the state and depth calls are open. The loop of `stretch` is the one caller of this function, and this
// function the one caller of `run_statement::work`: the compiler puts what is called at one place only right there. A second caller, of either, has cost
// every run 6 to 10 % more instructions in trials.
fn turn_at(coded: &Coded, bytes: &[u8], at: u16, look: Look, depth: u16) -> Result<Turn, Fault>
    requires sound_dialect { SoundDialect coded.now.parts.dialect }
    requires bytes_len_bound { length bytes.now < 65536 }
    requires at_lt_n { at < coded.now.parts.n }
    requires sound_code { SoundCode (code_in coded.now) }
    requires look_sound { LookSound (code_in coded.now) look }
    ensures { result ≡ turn_under depth (turn_of (code_in coded.now) look at bytes.now) }
{
    let turn = run_statement::work(coded, bytes, at, look)?;
    turn_under(depth, turn)
}

// ---- errors

// What comes after a stretch of a run: it stops, or its error is trapped and it goes on.
#[derive(Clone, Copy)]
pub enum After {
    Stops,
    Goes { number: u8, to: u16 },
}

// What comes after an error.
fn after_error(handler: Option<u16>, e: Fault) -> After
    ensures { result ≡ after_error handler e }
{
    match handler {
        None => After::Stops,
        Some(i) => {
            let number = rules::fault_number(e);
            if rules::trapped(number) {
                return After::Goes {
                    number: number,
                    to: i,
                };
            }
            After::Stops
        }
    }
}

// What comes after a stop.
fn after_stop(handler: Option<u16>, stop: Stop) -> After
    ensures { result ≡ after_stop handler stop }
{
    match stop {
        Stop::End => After::Stops,
        Stop::Refused(_) => After::Stops,
        Stop::WrongSize => After::Stops,
        Stop::Unsound => After::Stops,
        Stop::Failed(e) => after_error(handler, e),
        Stop::Spent => After::Stops,
    }
}

// ---- the run

// What a call answers that ends in the state given.
fn halt(stop: Stop, place: u16, count: u64, state: State) -> Outcome
    ensures { result ≡ record { stop = stop; place = place; count = count; state = state } }
{
    Outcome {
        stop: stop,
        place: place,
        count: count,
        state: state,
    }
}

// A stretch of a run of a unit that passed its check, from a sound state, over data of its length, after done completed statements: statements one after the
// other until the end is reached, a statement ends in an error or the allowance is spent. An error leaves the data and the state as they were before its
// statement, which isn't counted; whether it is trapped is for `turns` and `go_on` to say, so that a statement that completes takes no longer for it. What a statement sees
// of the state is renewed only where a loop is opened or closed: taken anew at every statement it has cost a copy of the state, 30 % more instructions.
fn stretch(coded: &Coded, bytes: &mut [u8], state: State, allowance: u64, done: u64) -> Outcome
    requires unit_value { check_of coded.now.unit.now ≡ Ok coded.now.parts }
    requires bytes_len { length bytes.old ≡ coded.now.parts.d }
    requires sound { Sound (code_in coded.now) state }
    requires allowance_bound { done + allowance < 18446744073709551616 }
    ensures { Stretched (code_in coded.now) allowance done state bytes.old result bytes.new }
{
    let cases = Cases::new();
    let n = coded.parts.n;
    let mut s = state;
    let mut look = state.look();
    let mut left = allowance;
    let mut count = done;
    while s.at < n {
        let at = s.at;
        if left == 0 {
            return halt(Stop::Spent, at, count, s);
        }
        let answer = turn_at(coded, bytes, at, look, s.depth);
        let turn = match answer {
            Ok(turn) => turn,
            Err(e) => return halt(Stop::Failed(e), at, count, s),
        };
        let flow = turn.flow;
        let write = turn.write;
        run_stores::store(coded, &cases, bytes, write);
        left -= 1;
        count += 1;
        match flow {
            Flow::Next => s = s.advance(),
            Flow::Goto(i) => s = s.goto(i),
            Flow::Call(i) => s = s.call(i),
            Flow::Return => s = s.back(),
            Flow::Stop => s = s.goto(n),
            Flow::Enter { limit, step } => {
                s = s.enter(limit, step);
                look = s.look();
            }
            Flow::Leave(i) => {
                s = s.leave(i);
                look = s.look();
            }
            Flow::Arm(i) => s = s.arm(Some(i)),
            Flow::Disarm => s = s.arm(None),
        }
    }
    halt(Stop::End, n, count, s)
}

// Goes on with a run of which done statements are completed, the last by an error that was trapped: stretch after stretch, as long as what ends one is an error
// that is trapped. Such an error counts its statement as completed, over the same data, and the run goes on at the handler.
fn go_on(coded: &Coded, bytes: &mut [u8], state: State, allowance: u64, done: u64) -> Outcome
    requires unit_value { check_of coded.now.unit.now ≡ Ok coded.now.parts }
    requires bytes_len { length bytes.old ≡ coded.now.parts.d }
    requires sound { Sound (code_in coded.now) state }
    requires done_le_allowance { done ≤ allowance }
    ensures { ◌≡◌ {A = Ran} (record { outcome = result; bytes = bytes.new }) (run_from (code_in coded.now) (allowance - done) state bytes.old done) }
{
    let mut s = state;
    let mut count = done;
    loop {
        let out = stretch(coded, bytes, s, allowance - count, count);
        let stop = out.stop;
        let next = out.state;
        let trap = next.trap;
        let handler = trap.handler;
        let then = after_stop(handler, stop);
        match then {
            After::Stops => return out,
            After::Goes { number, to } => {
                s = next.trapped(number, to);
                count = out.count + 1;
            }
        }
    }
}

// Runs a unit that passed its check, from a sound state, over data of its length, within an allowance. Most runs are one stretch. That `stretch` has a second
// caller here keeps the compiler from putting it into the loop of `go_on`, where it has taken 2 % more instructions.
pub fn turns(coded: &Coded, bytes: &mut [u8], state: State, allowance: u64) -> Outcome
    requires unit_value { check_of coded.now.unit.now ≡ Ok coded.now.parts }
    requires bytes_len { length bytes.old ≡ coded.now.parts.d }
    requires sound { Sound (code_in coded.now) state }
    ensures { ◌≡◌ {A = Ran} (record { outcome = result; bytes = bytes.new }) (run_from (code_in coded.now) allowance state bytes.old 0) }
{
    let out = stretch(coded, bytes, state, allowance, 0);
    let stop = out.stop;
    let next = out.state;
    let trap = next.trap;
    let handler = trap.handler;
    let then = after_stop(handler, stop);
    match then {
        After::Stops => out,
        After::Goes { number, to } => {
            let s = next.trapped(number, to);
            let count = out.count + 1;
            go_on(coded, bytes, s, allowance, count)
        }
    }
}
