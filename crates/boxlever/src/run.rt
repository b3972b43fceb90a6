// `boxlever run FILE`: what the bench program writes of the unit, with the data as it is shown; then the stop in words, the loops that are still open, a warning where
// the run began with an invalid decimal, what the fields hold after it, and the last error that was trapped.
use crate::fields::say_fields;
use crate::lines::Line;
use crate::parts::{Image, Unit};
use crate::phrase::{statement_line, with_statement};
use crate::say::Host;
use crate::valid::warn;
use crate::words::{Status, put_place, put_stop};
use rules_run::{Caught, Loop, Outcome, State};
use rules_unit::Refusal;

// The most statements of a run.
const ALLOWANCE: u64 = 100000;

// The most bytes of data, and more.
const DATA: usize = 65536;

// The bench program's first line.
fn say_numbers(host: &Host, number: u8, place: u16, count: u64) {
    let mut l = Line::new();
    write!(l, "{number} {place} {count}");
    host.say_line(l);
}

// The stop of a run in words, and how many statements were completed.
fn say_stop(host: &Host, number: u8, count: u64) {
    let mut l = Line::new();
    let statements = if count == 1 {
        "statement"
    } else {
        "statements"
    };
    write!(l, "stop {number} after {count} {statements}: ");
    put_stop(&mut l, number);
    host.say_line(l);
}

// An open loop: its FOR, with the limit and the step that it was entered with.
fn say_loop(host: &Host, unit: Unit<'_>, open: Loop) {
    let Loop { entry, limit, step } = open;
    let mut l = unit.line();
    write!(l, "open loop of statement {entry}, to {limit} by {step}: ");
    host.say_line(with_statement(l, unit, entry));
}

// The loops that are still open, the one opened last first.
fn say_loops(host: &Host, unit: Unit<'_>, state: State) {
    let loops = state.loops;
    for open in loops.iter().take(usize::from(state.opened)).rev() {
        say_loop(host, unit, *open);
    }
}

// The last error that was trapped and its statement, where there is one.
fn say_caught(host: &Host, unit: Unit<'_>, caught: Option<Caught>) {
    if let Some(Caught { number, statement }) = caught {
        host.say(b"\n");
        let mut l = Line::new();
        write!(l, "last trapped error {number}: ");
        put_stop(&mut l, number);
        host.say_line(l);
        host.say_line(statement_line(unit, statement));
    }
}

// The data: as it is shown, or as it is.
fn say_data(host: &Host, unit: Unit<'_>, data: &[u8]) {
    if unit.show.raw {
        host.say(data);
        host.say(b"\n");
    } else {
        host.say_shown(data, unit.show.letters);
    }
}

// What is said of how a run ended: the bench program's lines, the stop in words with its statement, which could not be completed or would be the next, and the open
// loops. There is no statement at the end.
fn say_end(host: &Host, unit: Unit<'_>, data: &[u8], out: Outcome, number: u8) {
    say_numbers(host, number, out.place, out.count);
    say_data(host, unit, data);
    say_stop(host, number, out.count);
    if out.place < unit.coded.parts.n {
        host.say_line(statement_line(unit, out.place));
    }
    say_loops(host, unit, out.state);
}

// What is said of what a run leaves: the fields, and the last error that was trapped.
fn say_left(host: &Host, unit: Unit<'_>, data: &[u8], state: State) {
    say_fields(host, unit, data, true);
    let trap = state.trap;
    say_caught(host, unit, trap.caught);
}

// Runs a unit over data that starts as an image, and gives the exit status.
fn run_data(host: &Host, unit: Unit<'_>, image: Image<'_>, data: &mut [u8]) -> Status {
    alpha::fit(data, image.bytes);
    let out = dibol::run(unit.coded.unit, data, dibol::start(), ALLOWANCE);
    let number = dibol::stop_number(out.stop);
    say_end(host, unit, data, out, number);
    let status = warn(host, unit, image);
    say_left(host, unit, data, out.state);
    if number == 0 { status } else { Status::Stopped }
}

// Runs a unit from an image, and gives the exit status.
pub fn answer(host: &Host, unit: Unit<'_>, image: Image<'_>) -> Status {
    let mut data = [0u8; DATA];
    run_data(
        host,
        unit,
        image,
        &mut data[..usize::from(unit.coded.parts.d)],
    )
}

// Of a unit that is refused there is the first line and the reason.
pub fn say_refused(host: &Host, r: Refusal) {
    let number = dibol::refusal_number(r);
    say_numbers(host, number, dibol::refusal_place(r), 0);
    let mut l = Line::new();
    write!(l, "stop {number}");
    put_place(&mut l, r);
    l.text(b": ");
    put_stop(&mut l, number);
    host.say_line(l);
}
