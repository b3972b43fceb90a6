// One statement: what it stores and where the run goes on. Data is only read here.
#![tactic(auto)]

ghost use Rattle.std.specs.Prelude.{◌≡◌, false, ◌+◌, ◌^◌, ◌≤◌, ◌<◌, length, Ok};
ghost use Rattle.unit_decode.specs.Units.{code_in};
ghost use Rattle.rules.specs.Values.{Val};
ghost use Rattle.rules_unit.specs.declared.Act.TheVariants as act;
ghost use Rattle.rules_unit.specs.Decode.{SoundDialect};
ghost use Rattle.rules_unit.specs.Sound.{SoundCode};
ghost use Rattle.rules_run.specs.declared.Worked.TheVariants as worked;
ghost use Rattle.rules_run.specs.Evaluation.{worked_of, value_at};
ghost use Rattle.rules_run.specs.States.{LookSound};
ghost use Rattle.rules_run.specs.Turns.{on_place, edit_by, on_number, if_zero, choose, act_at, turn_of};

use rules::Fault;
use rules_run::{Flow, Look, Turn, Worked, Write};
use rules_unit::{Act, Parts, Statement, Verb};
use unit_decode::Coded;

// ---- SET, CLEAR, INCR, DECR, UPCASE, LOCASE, SET with a mask

// A number formatted by an alpha place as mask.
fn edit_place(
    coded: &Coded,
    bytes: &[u8],
    s: Statement,
    start: usize,
    len: usize,
    from: usize,
    count: usize,
) -> Result<Turn, Fault>
    requires sound_dialect { SoundDialect coded.now.parts.dialect }
    requires bytes_len_bound { length bytes.now < 65536 }
    ensures { result ≡ edit_by start len (Ok (worked.Place false from count)) (value_at (code_in coded.now) bytes.now s.c) }
{
    let v = run_evaluate::value_at(coded, bytes, s.c)?;
    rules_run::stores(Write::Edit {
        start,
        len,
        from,
        count,
        value: v,
    })
}

// A number formatted by an alpha literal as mask.
fn edit_literal(
    coded: &Coded,
    bytes: &[u8],
    s: Statement,
    start: usize,
    len: usize,
    place: u16,
    count: u16,
) -> Result<Turn, Fault>
    requires sound_dialect { SoundDialect coded.now.parts.dialect }
    requires bytes_len_bound { length bytes.now < 65536 }
    ensures { result ≡ edit_by start len (Ok (worked.Text place count)) (value_at (code_in coded.now) bytes.now s.c) }
{
    let v = run_evaluate::value_at(coded, bytes, s.c)?;
    rules_run::stores(Write::EditLiteral {
        start,
        len,
        place: unit_decode::long(place),
        count: unit_decode::long(count),
        value: v,
    })
}

// SET with a mask of a place that was found, which is alpha: the mask is worked out after the place, and the number after the mask.
fn edit(
    coded: &Coded,
    bytes: &[u8],
    s: Statement,
    decimal: bool,
    start: usize,
    len: usize,
) -> Result<Turn, Fault>
    requires sound_dialect { SoundDialect coded.now.parts.dialect }
    requires bytes_len_bound { length bytes.now < 65536 }
    ensures { result ≡ act_at (code_in coded.now) bytes.now act.Edit s decimal start len }
{
    if decimal {
        return Err(Fault::Malformed);
    }
    match run_evaluate::worked(coded, bytes, s.b)? {
        Worked::Number(_) => Err(Fault::Malformed),
        Worked::Place {
            decimal: number,
            start: from,
            len: count,
        } => {
            if number {
                return Err(Fault::Malformed);
            }
            edit_place(coded, bytes, s, start, len, from, count)
        }
        Worked::Text { place, len: count } => {
            edit_literal(coded, bytes, s, start, len, place, count)
        }
    }
}

// What a statement answers once its place is found. The source of a SET is worked out here, and so after its place.
fn at_place(
    coded: &Coded,
    bytes: &[u8],
    act: Act,
    s: Statement,
    decimal: bool,
    start: usize,
    len: usize,
) -> Result<Turn, Fault>
    requires sound_dialect { SoundDialect coded.now.parts.dialect }
    requires bytes_len_bound { length bytes.now < 65536 }
    requires len_in_bounds { start + len ≤ length bytes.now }
    ensures { result ≡ act_at (code_in coded.now) bytes.now act s decimal start len }
{
    match act {
        Act::Set => {
            let w = run_evaluate::worked(coded, bytes, s.b);
            run_moves::move_worked(coded, bytes, decimal, start, len, w)
        }
        Act::Clear => rules_run::stores(Write::Clear {
            start,
            len,
            decimal,
        }),
        Act::Count { up } => run_moves::count_at(
            coded.unit,
            coded.parts,
            bytes,
            up,
            decimal,
            start,
            len,
        ),
        Act::Case { upper } => run_moves::case_at(upper, decimal, start, len),
        Act::Edit => edit(coded, bytes, s, decimal, start, len),
    }
}

// What a statement with a place answers.
fn on_place(coded: &Coded, bytes: &[u8], act: Act, s: Statement) -> Result<Turn, Fault>
    requires sound_dialect { SoundDialect coded.now.parts.dialect }
    requires bytes_len_bound { length bytes.now < 65536 }
    ensures { result ≡ on_place (worked_of (code_in coded.now) bytes.now ((code_in coded.now).items s.a)) (act_at (code_in coded.now) bytes.now act s) }
{
    match run_evaluate::place(coded, bytes, s.a)? {
        Worked::Place {
            decimal,
            start,
            len,
        } => at_place(coded, bytes, act, s, decimal, start, len),
        _ => Err(Fault::Malformed),
    }
}

// ---- jumps

// Where the run goes on after a test for zero.
fn zero_flow(target: u16, v: i64) -> Flow
    ensures { result ≡ if_zero target v }
{
    if v == 0 {
        return Flow::Goto(target);
    }
    Flow::Next
}

// Go to the target if a number is zero.
fn if_zero(coded: &Coded, bytes: &[u8], s: Statement) -> Result<Turn, Fault>
    requires sound_dialect { SoundDialect coded.now.parts.dialect }
    requires bytes_len_bound { length bytes.now < 65536 }
    ensures { result ≡ on_number (value_at (code_in coded.now) bytes.now s.b) (if_zero s.c) }
{
    let w = run_evaluate::worked(coded, bytes, s.b);
    let v = run_evaluate::number_of(coded.unit, coded.parts, bytes, w)?;
    rules_run::goes(zero_flow(s.c, v))
}

// Where a computed GOTO at a statement goes on: a value from 1 to n at the value-th of the n statements behind it, any other past them.
fn chosen(at: u16, n: u16, v: i64) -> Flow
    requires n_bound { at + n < 65535 }
    requires val { Val (10 ^ 18) v }
    ensures { result ≡ choose at n v }
{
    let past = at + n + 1;
    if number::is_neg(v) {
        return Flow::Goto(past);
    }
    let k = number::magnitude(v);
    if k == 0 {
        return Flow::Goto(past);
    }
    if (n as u64) < k {
        return Flow::Goto(past);
    }
    Flow::Goto(at + k as u16)
}

// Computed GOTO.
fn computed(coded: &Coded, bytes: &[u8], at: u16, s: Statement) -> Result<Turn, Fault>
    requires sound_dialect { SoundDialect coded.now.parts.dialect }
    requires bytes_len_bound { length bytes.now < 65536 }
    requires a_bound { at + s.a < 65535 }
    ensures { result ≡ on_number (value_at (code_in coded.now) bytes.now s.b) (choose at s.a) }
{
    let w = run_evaluate::worked(coded, bytes, s.b);
    let v = run_evaluate::number_of(coded.unit, coded.parts, bytes, w)?;
    rules_run::goes(chosen(at, s.a, v))
}

// ---- a statement

// What a statement answers over the data, where it sees look of the state: what it stores, and where the run goes on. Nothing is changed here. It asks
// for a sound unit, and uses that the statements behind a computed GOTO and the loop end of a FOR lie inside the unit, so that their numbers are words. The
// statements with a place have one call between them, and this function has one caller, `run_loop::turn_at`, which says why. Those that work on loops have
// four calls of one function, `run_passes::loop_turn`, which says why too.
pub fn work(coded: &Coded, bytes: &[u8], at: u16, look: Look) -> Result<Turn, Fault>
    requires sound_dialect { SoundDialect coded.now.parts.dialect }
    requires bytes_len_bound { length bytes.now < 65536 }
    requires at_lt_n { at < coded.now.parts.n }
    requires sound_code { SoundCode (code_in coded.now) }
    requires look_sound { LookSound (code_in coded.now) look }
    ensures { result ≡ turn_of (code_in coded.now) look at bytes.now }
{
    let s = coded.statement(at);
    let verb = unit_decode::verb_of(s.code);
    match verb {
        Verb::At(act) => on_place(coded, bytes, act, s),
        Verb::Goto => rules_run::goes(Flow::Goto(s.c)),
        Verb::IfZero => if_zero(coded, bytes, s),
        Verb::Call => rules_run::goes(Flow::Call(s.c)),
        Verb::Return => rules_run::goes(Flow::Return),
        Verb::Stop => rules_run::goes(Flow::Stop),
        Verb::Computed => computed(coded, bytes, at, s),
        Verb::For => run_passes::loop_turn(coded, bytes, look, verb, s),
        Verb::LoopEnd => run_passes::loop_turn(coded, bytes, look, verb, s),
        Verb::ExitLoop => run_passes::loop_turn(coded, bytes, look, verb, s),
        Verb::NextLoop => run_passes::loop_turn(coded, bytes, look, verb, s),
        Verb::OnError => rules_run::goes(Flow::Arm(s.c)),
        Verb::OffError => rules_run::goes(Flow::Disarm),
        Verb::Bad => Err(Fault::Malformed),
    }
}
