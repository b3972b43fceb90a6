// The resume state: whether it is sound for a unit, and the numbers that a host in C keeps it as.
#![tactic(auto)]

ghost use Rattle.std.specs.Prelude.{◌≡◌, true, [], ◌∷◌, ◌<◌, ◌≤◌, ltb, eqb, nat_abs, length};
ghost use Rattle.unit_decode.specs.Units.{code_in};
ghost use Rattle.rules.specs.Values.{Top};
ghost use Rattle.rules_unit.specs.Decode.{SoundDialect};
ghost use Rattle.rules_run.specs.States.{returnb, returnsb, loopb, emptyb, slotb, slotsb, handlerb, caughtb, soundb};
ghost use Rattle.rules_host.specs.Laid.{laid};
ghost use Rattle.rules_host.specs.Numbers.{listed, word, valueb, value_of, loop_number, handler_number, error_number, error_place, handled_number, number_at, numbers_of, signedb, goodb, good_from, pairb, stateb, no_state, return_at, loop_at, handler_of, caught_of, state_of};

use rules_run::{Caught, Loop, State, Trap};
use rules_unit::Parts;
use unit_decode::Coded;

// ---- calls

// Whether the return number x at the place i is one: 0 to n for an open call, and zero for none.
fn return_sound(n: u16, depth: u16, i: u16, x: u16) -> bool
    ensures { result ≡ returnb n depth i x }
{
    if i < depth { x <= n } else { x == 0 }
}

// Whether all return numbers are.
fn returns_sound(n: u16, depth: u16, returns: [u16; 50]) -> bool
    ensures { result ≡ returnsb n depth 0 returns }
{
    for i in 0..50 {
        if !return_sound(n, depth, i, returns[usize::from(i)]) {
            return false;
        }
    }
    true
}

// ---- loops

// Whether the magnitude of a number is below the bound of a dialect.
fn is_below(v: i64, top: u64) -> bool
    requires { Top top }
    ensures { result ≡ ltb (nat_abs v) top }
{
    v.unsigned_abs() < top
}

// Whether a number is zero.
fn is_zero(v: i64) -> bool
    ensures { result ≡ eqb (nat_abs v) 0 }
{
    v == 0
}

// Whether an open loop is one of the unit: it names a FOR, its limit and its step lie in the range of values, and its step is not zero.
#[tactic(auto, unfolding(rules_run::specs::States::loopb))]
fn loop_sound(coded: &Coded, l: Loop) -> bool
    requires { SoundDialect coded.now.parts.dialect }
    ensures { result ≡ loopb (code_in coded.now) l }
{
    let top = coded.parts.dialect.top;
    l.entry < coded.parts.n
        && coded.statement(l.entry).code == 14
        && is_below(l.limit, top)
        && is_below(l.step, top)
        && !is_zero(l.step)
}

// Whether a slot is zero.
#[tactic(auto, unfolding(rules_run::specs::States::emptyb))]
fn is_empty(l: Loop) -> bool
    ensures { result ≡ emptyb l }
{
    l.entry == 0 && is_zero(l.limit) && is_zero(l.step)
}

// Whether the slot i is that of an open loop, or zero.
fn slot_sound(coded: &Coded, opened: u16, i: u16, l: Loop) -> bool
    requires { SoundDialect coded.now.parts.dialect }
    ensures { result ≡ slotb (code_in coded.now) opened i l }
{
    if i < opened {
        loop_sound(coded, l)
    } else {
        is_empty(l)
    }
}

// Whether all slots are. That there are 16 is said here, for a caller that has them inside a state.
fn slots_sound(coded: &Coded, opened: u16, loops: [Loop; 16]) -> bool
    requires { SoundDialect coded.now.parts.dialect }
    ensures value { result ≡ slotsb (code_in coded.now) opened 0 loops }
    ensures loops_len { length loops ≡ 16 }
{
    for i in 0..16 {
        if !slot_sound(coded, opened, i, loops[usize::from(i)]) {
            return false;
        }
    }
    true
}

// ---- the handler and the last error

// Whether a handler is one of n statements.
fn handler_sound(n: u16, h: Option<u16>) -> bool
    ensures { result ≡ handlerb n h }
{
    match h {
        None => true,
        Some(i) => i < n,
    }
}

// Whether a last error is one that is trapped, of one of n statements.
fn caught_sound(n: u16, e: Option<Caught>) -> bool
    ensures { result ≡ caughtb n e }
{
    match e {
        None => true,
        Some(e) => rules::trapped(e.number) && e.statement < n,
    }
}

// ---- a sound state

// Whether a resume state is sound for a unit.
#[tactic(auto, unfolding(rules_run::specs::States::soundb))]
pub fn sound(coded: &Coded, s: State) -> bool
    requires { SoundDialect coded.now.parts.dialect }
    ensures { result ≡ soundb (code_in coded.now) s }
{
    if coded.parts.n < s.at {
        return false;
    }
    if 50 < s.depth {
        return false;
    }
    let returns = s.returns;
    if !returns_sound(coded.parts.n, s.depth, returns) {
        return false;
    }
    if 16 < s.opened {
        return false;
    }
    let loops = s.loops;
    if !slots_sound(coded, s.opened, loops) {
        return false;
    }
    let trap = s.trap;
    let handler = trap.handler;
    if !handler_sound(coded.parts.n, handler) {
        return false;
    }
    let caught = trap.caught;
    caught_sound(coded.parts.n, caught)
}

// ---- from a state to its numbers

// Puts two numbers at the front of others, as many as fit.
pub fn put_two(numbers: &mut [u64], a: u64, b: u64)
    ensures { numbers.new ≡ laid (a ∷ b ∷ []) numbers.old }
{
    rules_host::lay(&[a, b], numbers)
}

// The number that stands for a value: two's complement, as C holds it.
fn word(v: i64) -> u64
    ensures { result ≡ word v }
{
    v.cast_unsigned()
}

// The entry, the limit or the step of a slot.
fn loop_number(l: Loop, r: usize) -> u64
    ensures { result ≡ loop_number l r }
{
    match r {
        0 => u64::from(l.entry),
        1 => word(l.limit),
        _ => word(l.step),
    }
}

// The handler and one more, 0 where there is none.
fn handler_number(h: Option<u16>) -> u64
    ensures { result ≡ handler_number h }
{
    match h {
        None => 0,
        Some(i) => u64::from(i) + 1,
    }
}

// The number of the last error, 0 where there is none.
fn error_number(e: Option<Caught>) -> u64
    ensures { result ≡ error_number e }
{
    match e {
        None => 0,
        Some(e) => u64::from(e.number),
    }
}

// The statement of the last error, 0 where there is none.
fn error_place(e: Option<Caught>) -> u64
    ensures { result ≡ error_place e }
{
    match e {
        None => 0,
        Some(e) => u64::from(e.statement),
    }
}

// The number k of a state, behind those of the slots.
fn handled_number(s: State, k: usize) -> u64
    ensures { result ≡ handled_number s k }
{
    let trap = s.trap;
    if k == 101 {
        let handler = trap.handler;
        return handler_number(handler);
    }
    let caught = trap.caught;
    if k == 102 {
        return error_number(caught);
    }
    error_place(caught)
}

// The number k of a state.
#[tactic(auto, unfolding(rules_host::specs::Numbers::number_at))]
fn number_at(s: State, k: usize) -> u64
    requires { k < 104 }
    ensures { result ≡ number_at s k }
{
    if k == 0 {
        return u64::from(s.at);
    }
    if k == 1 {
        return u64::from(s.depth);
    }
    if k < 52 {
        return u64::from(s.returns[k - 2]);
    }
    if k == 52 {
        return u64::from(s.opened);
    }
    if k < 101 {
        return loop_number(s.loops[(k - 53) / 3], (k - 53) % 3);
    }
    handled_number(s, k)
}

// Puts the numbers of a state in place of others, as many as fit.
pub fn write_state(numbers: &mut [u64], s: State)
    ensures { numbers.new ≡ laid (numbers_of s) numbers.old }
{
    for k in 0..numbers.len().min(104) {
        numbers[k] = number_at(s, k);
    }
}

// ---- from numbers to a state

// Whether a number stands for a value.
fn value_good(x: u64) -> bool
    ensures { result ≡ valueb x }
{
    x < 1000000000000000000 || 17446744073709551616 < x
}

// The value that a number stands for.
fn value_of(x: u64) -> i64
    requires { valueb x ≡ true }
    ensures { result ≡ value_of x }
{
    x.cast_signed()
}

// Whether the number k is a limit or a step.
fn is_signed(k: usize) -> bool
    ensures { result ≡ signedb k }
{
    53 <= k && k < 101 && 0 < (k - 53) % 3
}

// Whether the number x stands for something at the place k.
#[tactic(auto, unfolding(rules_host::specs::Numbers::goodb))]
fn number_good(k: usize, x: u64) -> bool
    ensures { result ≡ goodb k x }
{
    if is_signed(k) {
        value_good(x)
    } else if k == 102 {
        x <= 255
    } else {
        x <= 65535
    }
}

// Whether all numbers do.
fn all_good(numbers: &[u64]) -> bool
    ensures { result ≡ good_from 0 numbers.now }
{
    for (k, x) in numbers.iter().enumerate() {
        if !number_good(k, *x) {
            return false;
        }
    }
    true
}

// Whether two numbers stand for a last error, or for none.
fn pair_good(number: u64, statement: u64) -> bool
    ensures { result ≡ pairb number statement }
{
    number != 0 || statement == 0
}

// Whether numbers are those of a state.
#[tactic(auto, unfolding(rules_host::specs::Numbers::stateb))]
fn is_state(numbers: &[u64]) -> bool
    ensures { result ≡ stateb numbers.now }
{
    if numbers.len() != 104 {
        return false;
    }
    if !all_good(numbers) {
        return false;
    }
    pair_good(numbers[102], numbers[103])
}

// The return numbers.
fn returns_of(numbers: &[u64]) -> [u16; 50]
    requires numbers_len { length numbers.now ≡ 104 }
    requires numbers_value { good_from 0 numbers.now ≡ true }
    ensures { result ≡ listed 50 (return_at numbers.now) }
{
    let mut returns = [0u16; 50];
    for i in 0..50 {
        returns[i] = numbers[i + 2] as u16;
    }
    returns
}

// The slot k.
fn loop_at(numbers: &[u64], k: usize) -> Loop
    requires numbers_len { length numbers.now ≡ 104 }
    requires numbers_value { good_from 0 numbers.now ≡ true }
    requires k_bound { k < 16 }
    ensures { result ≡ loop_at numbers.now k }
{
    let entry = numbers[k * 3 + 53] as u16;
    let limit = value_of(numbers[k * 3 + 54]);
    let step = value_of(numbers[k * 3 + 55]);
    Loop { entry, limit, step }
}

// The slots.
fn loops_of(numbers: &[u64]) -> [Loop; 16]
    requires numbers_len { length numbers.now ≡ 104 }
    requires numbers_value { good_from 0 numbers.now ≡ true }
    ensures { result ≡ listed 16 (loop_at numbers.now) }
{
    let none = rules_run::no_loop();
    let mut loops = [none; 16];
    for k in 0..16 {
        loops[k] = loop_at(numbers, k);
    }
    loops
}

// The handler.
fn handler_of(x: u64) -> Option<u16>
    requires { x ≤ 65535 }
    ensures { result ≡ handler_of x }
{
    if x == 0 {
        return None;
    }
    Some((x - 1) as u16)
}

// The last error.
fn caught_of(number: u64, statement: u64) -> Option<Caught>
    requires number_bound { number ≤ 255 }
    requires statement_bound { statement ≤ 65535 }
    ensures { result ≡ caught_of number statement }
{
    if number == 0 {
        return None;
    }
    Some(Caught {
        number: number as u8,
        statement: statement as u16,
    })
}

// A state that is sound for no unit, since no unit has so many statements.
fn no_state() -> State
    ensures { result ≡ no_state }
{
    let none = rules_run::no_loop();
    State {
        at: 65535,
        depth: 0,
        returns: [0u16; 50],
        opened: 0,
        loops: [none; 16],
        trap: Trap {
            handler: None,
            caught: None,
        },
    }
}

// The state that the numbers of one stand for.
#[tactic(auto, using(crate::proofs::Reading::told), unfolding(rules_host::specs::Numbers::state_of))]
fn state_of(numbers: &[u64]) -> State
    requires { stateb numbers.now ≡ true }
    ensures { result ≡ state_of numbers.now }
{
    let at = numbers[0] as u16;
    let depth = numbers[1] as u16;
    let opened = numbers[52] as u16;
    let returns = returns_of(numbers);
    let loops = loops_of(numbers);
    let handler = handler_of(numbers[101]);
    let caught = caught_of(numbers[102], numbers[103]);
    State {
        at,
        depth,
        returns,
        opened,
        loops,
        trap: Trap { handler, caught },
    }
}

// The state that 104 numbers stand for: the statement, the open calls, the 50 return numbers, the open loops, the 16 slots, the handler and the last error.
// Another count than 104, or a number that stands for nothing at its place, stands for no state.
#[tactic(auto, unfolding(rules_host::specs::Numbers::state_of))]
pub fn read_state(numbers: &[u64]) -> State
    ensures { result ≡ state_of numbers.now }
{
    if is_state(numbers) {
        state_of(numbers)
    } else {
        no_state()
    }
}
