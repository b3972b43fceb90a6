// The bench program of document 01: it reads a unit from standard input, runs it from its image at statement 0 with an allowance of 100,000, and
// writes the stop number, the place and the completed count, then the data.
#![tactic(auto)]

ghost use Rattle.std.specs.Prelude.{◌≤◌, length};

use std::cell::Cell;
use std::io;
use std::io::{ErrorKind, Print, Read, Stdin};
use std::process::ExitCode;

// The exit status that a shell reports after SIGPIPE. The kit's runtime ignores that signal, so the program returns the status itself.
const UNHEARD: u8 = 141;

// The runtime, and whether a write found that nobody reads standard output.
#[derive(Drop)]
struct Host {
    rt: HostRuntime,
    gone: Cell<bool>,
}

// Records whether a write found that nobody reads standard output. Other failures are ignored.
fn note(host: &Host, done: io::Result<()>) {
    if let Err(e) = done {
        if e.kind() == ErrorKind::BrokenPipe {
            host.gone.set(true);
        }
    }
}

// Writes to standard output.
fn say(host: &Host, s: &[u8]) {
    note(host, host.rt.write_all(s));
}

// Writes a number in figures, without leading zeros.
fn say_number(host: &Host, n: u64) {
    note(host, host.rt.print(n));
}

// The first line.
fn say_stop(host: &Host, number: u8, place: u16, count: u64) {
    say_number(host, u64::from(number));
    say(host, b" ");
    say_number(host, u64::from(place));
    say(host, b" ");
    say_number(host, count);
    say(host, b"\n");
}

// Runs a unit over its data, which starts as its image, the first bytes of the unit; and writes both lines.
fn run_data(host: &Host, unit: &[u8], data: &mut [u8]) {
    alpha::fit(data, unit);
    let out = dibol::run(unit, data, dibol::start(), 100000);
    say_stop(host, dibol::stop_number(out.stop), out.place, out.count);
    say(host, data);
    say(host, b"\n");
}

// Runs a unit that passes its checks, with d bytes of data.
fn run_unit(host: &Host, unit: &[u8], d: u16) {
    let mut data = [0u8; 65536];
    run_data(host, unit, &mut data[..usize::from(d)]);
}

// After 1 to 5 the second line is absent.
fn bench(host: &Host, unit: &[u8]) {
    match dibol::check(unit) {
        Err(r) => { say_stop(host, dibol::refusal_number(r), dibol::refusal_place(r), 0) }
        Ok(p) => run_unit(host, unit, p.d),
    }
}

// Reads until the buffer is full, the input ends or a read fails, and returns the number of bytes read.
fn read_full(mut input: Stdin, buf: &mut [u8]) -> usize
    ensures { result ≤ length buf.new }
{
    let mut done = 0;
    while done < buf.len() {
        match input.read(&mut buf[done..]) {
            Ok(0) => break,
            Ok(n) => done += n,
            Err(_) => break,
        }
    }
    done
}

// Reads one byte more than the longest unit, so that a longer input is refused. The exit status is 141 if nobody reads the output, else 0.
fn main(rt: HostRuntime) -> ExitCode {
    let host = Host {
        rt,
        gone: Cell::new(false),
    };
    let mut input = [0u8; 57354];
    let n = read_full(rt.stdin(), &mut input);
    bench(&host, &input[..n]);
    if host.gone.get() {
        return ExitCode::from(UNHEARD);
    }
    ExitCode::SUCCESS
}
