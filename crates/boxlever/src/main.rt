// The owner's program. Its first argument is a word: `boxlever --help` tells which there are.
#![tactic(auto)]

mod bounds;
mod breaches;
mod check;
mod fencing;
mod fields;
mod lines;
mod list;
mod names;
mod parts;
mod phrase;
mod picture;
mod run;
mod say;
mod valid;
mod words;

use lines::{Line, Show};
use names::Names;
use parts::{Image, Unit};
use rules_unit::Refusal;
use say::{Host, is_number, number_in};
use std::fmt;
use std::process::ExitCode;
use valid::tell_size;
use words::Status;

// The exit status that a shell reports after SIGPIPE. The kit's runtime ignores that signal, so the program returns the status itself.
const UNHEARD: u8 = 141;

// What is asked of files; `check` takes several.
#[derive(Clone, Copy, PartialEq, Eq)]
enum Verb {
    Run,
    Fence,
    List,
    Check,
}

// The word of a call.
#[derive(Clone, Copy)]
enum Word {
    Files(Verb),
    Help,
    Version,
}

const WORDS: [(&[u8], Word); 7] = [
    (b"run", Word::Files(Verb::Run)),
    (b"fence", Word::Files(Verb::Fence)),
    (b"list", Word::Files(Verb::List)),
    (b"check", Word::Files(Verb::Check)),
    (b"--help", Word::Help),
    (b"-h", Word::Help),
    (b"--version", Word::Version),
];

// The options, of which the last two have a value.
#[derive(Clone, Copy)]
enum Choice {
    Latin1,
    Plain,
    Raw,
    First,
    Data,
}

const CHOICES: [(&[u8], Choice); 5] = [
    (b"--latin1", Choice::Latin1),
    (b"--plain", Choice::Plain),
    (b"--raw", Choice::Raw),
    (b"--first", Choice::First),
    (b"--data", Choice::Data),
];

// What is wrong with an option.
#[derive(Clone, Copy)]
enum Wrong {
    Unknown,
    NoNumber,
    NoFile,
}

impl fmt::Display for Wrong {
    fn fmt<W: fmt::Write>(&self, f: &mut fmt::Formatter<W>) -> fmt::Result {
        f.write_str(match self {
            Wrong::Unknown => "there is no such option",
            Wrong::NoNumber => "a number from 1 on is wanted",
            Wrong::NoFile => "a FILE is wanted",
        })
    }
}

// A call as far as it is understood: its word; what its options say, the file of the data being named by an argument; and the argument that comes next.
#[derive(Clone, Copy)]
struct Call {
    verb: Verb,
    show: Show,
    plain: bool,
    first: Option<usize>,
    file: Option<usize>,
    at: usize,
}

// A call whose words are not those that `--help` tells: the word on standard output says so, the line on standard error why.
fn usage<W: fmt::Display + Drop>(host: &Host, what: &[u8], why: W) -> Status {
    host.say(b"usage\n");
    let mut l = Line::new();
    l.text(b"boxlever: ");
    l.given(what);
    write!(l, "{why}; try: boxlever --help");
    host.tell_line(l);
    Status::Failed
}

// What is answered from the bytes of a file, or that it cannot be read, for which the reason is told. More bytes than the longest unit has are read, so that a longer
// file is refused.
fn over_file<F: FnOnce(&[u8]) -> Status>(host: &Host, path: &[u8], answer: F) -> Status
    requires { F.IsAlwaysCallable answer }
{
    let mut space = io::large_buffer();
    match host.read_file(path, &mut space) {
        Ok(bytes) => answer(bytes),
        Err(_) => {
            host.say(b"unreadable\n");
            Status::Failed
        }
    }
}

// ---- the unit and its data

impl Call {
    // What the word of the call says of a unit over some data, and the exit status.
    fn answer_over(self, host: &Host, unit: Unit<'_>, image: Image<'_>) -> Status {
        match self.verb {
            Verb::Run => run::answer(host, unit, image),
            Verb::Fence => fencing::answer(host, unit, image, self.first),
            Verb::List | Verb::Check => list::answer(host, unit, image),
        }
    }

    // What it says of a unit that is refused, which it is whatever the data.
    fn answer_refused(self, host: &Host, unit: &[u8], r: Refusal) -> Status {
        match self.verb {
            Verb::Run => run::say_refused(host, r),
            Verb::Fence => fencing::say_refused(host, r),
            Verb::List | Verb::Check => list::say_refused(host, unit, r),
        }
        Status::Refused
    }

    // What it says over an image, if that has as many bytes as the unit's data.
    fn answer_image(self, host: &Host, path: &[u8], unit: Unit<'_>, image: Image<'_>) -> Status {
        let n = image.bytes.len();
        let d = unit.coded.parts.d;
        if n == usize::from(d) {
            return self.answer_over(host, unit, image);
        }
        tell_size(host, path, n, image.file.unwrap_or(b""), d);
        host.say(b"wrong size\n");
        Status::Failed
    }

    // What it says over the data that the call names, or the unit's own.
    fn answer_data(self, host: &Host, path: &[u8], unit: Unit<'_>) -> Status {
        let Some(at) = self.file else {
            return self.answer_over(host, unit, unit.image());
        };
        let mut space = io::buffer();
        let file = host.argument(at, &mut space);
        over_file(host, file, |bytes| {
            let file = Some(file);
            self.answer_image(host, path, unit, Image { bytes, file })
        })
    }

    // What it says of a unit with its names.
    fn answer_named(self, host: &Host, path: &[u8], bytes: &[u8], names: Names<'_>) -> Status {
        match Unit::new(bytes, names, self.show) {
            Ok(unit) => self.answer_data(host, path, unit),
            Err(r) => self.answer_refused(host, bytes, r),
        }
    }

    // What it says of a unit by its name and its bytes.
    fn answer_unit(self, host: &Host, path: &[u8], bytes: &[u8]) -> Status {
        let mut space = io::large_buffer();
        let names = names::read(host, path, bytes, self.plain, &mut space);
        self.answer_named(host, path, bytes, names)
    }

    // What it says of the one file that is named. Standard input is read once.
    fn answer_one(self, host: &Host, name: &[u8]) -> Status {
        if host.arg_count() != self.at.saturating_add(1) {
            return usage(host, name, ": one FILE is wanted");
        }
        let is_taken = self.file.is_some_and(|file| host.is_word(file, b"-"));
        if is_taken && host.is_word(self.at, b"-") {
            return usage(host, b"--data", ": standard input is the unit already");
        }
        let mut space = io::buffer();
        let path = host.argument(self.at, &mut space);
        over_file(host, path, |bytes| self.answer_unit(host, path, bytes))
    }

    // The table of the files that are named, over some data or their own.
    fn check_over(self, host: &Host, data: Option<Image<'_>>) -> Status {
        check::check_files(host, self.at, self.plain, self.show, data)
    }

    // The table of the files that are named.
    fn answer_check(self, host: &Host) -> Status {
        if host.arg_count() <= self.at {
            return usage(host, b"check", ": FILES or FOLDERS are wanted");
        }
        let Some(at) = self.file else {
            return self.check_over(host, None);
        };
        let mut space = io::buffer();
        let file = host.argument(at, &mut space);
        over_file(host, file, |bytes| {
            let file = Some(file);
            self.check_over(host, Some(Image { bytes, file }))
        })
    }
}

// ---- options

impl Call {
    // A call without options, whose options and files stand from an argument on.
    fn new(verb: Verb, at: usize) -> Call {
        Call {
            verb,
            show: Show::default(),
            plain: false,
            first: None,
            file: None,
            at,
        }
    }

    // Goes on by so many arguments.
    fn advance(&mut self, by: usize) {
        self.at = self.at.saturating_add(by);
    }

    // The option of a name, if the call's word has it.
    fn choice(self, name: &[u8]) -> Option<Choice> {
        let (_, choice) = CHOICES.iter().find(|(n, _)| *n == name)?;
        let has = match choice {
            Choice::Latin1 | Choice::Plain => true,
            Choice::Raw => self.verb == Verb::Run,
            Choice::First => self.verb == Verb::Fence,
            Choice::Data => self.verb != Verb::List,
        };
        has.then_some(*choice)
    }

    // Takes an option that says how many breaches are told.
    fn take_first(&mut self, value: &[u8]) -> Result<(), Wrong> {
        let n = number_in(value);
        if !is_number(value) || n == 0 {
            return Err(Wrong::NoNumber);
        }
        self.first = Some(n);
        self.advance(2);
        Ok(())
    }

    // Takes an option that names the file of the data.
    fn take_data(&mut self, host: &Host) -> Result<(), Wrong> {
        let at = self.at.saturating_add(1);
        if host.arg_count() <= at {
            return Err(Wrong::NoFile);
        }
        self.file = Some(at);
        self.advance(2);
        Ok(())
    }

    // Takes the option that comes next.
    fn take(&mut self, host: &Host, name: &[u8]) -> Result<(), Wrong> {
        match self.choice(name).ok_or(Wrong::Unknown)? {
            Choice::First => {
                let mut space = io::buffer();
                let value = host.argument(self.at.saturating_add(1), &mut space);
                return self.take_first(value);
            }
            Choice::Data => return self.take_data(host),
            Choice::Latin1 => self.show.letters = true,
            Choice::Raw => self.show.raw = true,
            Choice::Plain => self.plain = true,
        }
        self.advance(1);
        Ok(())
    }

    // Takes all options. A lone `-` is a file, and a `--` ends the options. Where an option is wrong, it is the argument that comes next.
    fn take_all(&mut self, host: &Host) -> Result<(), Wrong> {
        for _ in 0..host.arg_count() {
            let mut space = io::buffer();
            let arg = host.argument(self.at, &mut space);
            match arg {
                b"--" => {
                    self.advance(1);
                    break;
                }
                [b'-', _, ..] => self.take(host, arg)?,
                _ => break,
            }
        }
        Ok(())
    }
}

// Answers a call by a word that takes files, whose options and files stand from an argument on.
fn answer_files(host: &Host, name: &[u8], verb: Verb, from: usize) -> Status {
    let mut call = Call::new(verb, from);
    match call.take_all(host) {
        Ok(()) if verb == Verb::Check => call.answer_check(host),
        Ok(()) => call.answer_one(host, name),
        Err(wrong) => {
            let mut space = io::buffer();
            let arg = host.argument(call.at, &mut space);
            usage(host, arg, format_args!(": {wrong}"))
        }
    }
}

// ---- words

// Writes all that the program can be called with.
fn help(host: &Host) -> Status {
    host.say(
        b"usage: boxlever run [OPTIONS] FILE       run the unit, then show its fields\n       boxlever fence [OPTIONS] FILE     show whether it can slip, where and why\n       boxlever list [OPTIONS] FILE      show its parts, fields and statements\n       boxlever check [OPTIONS] FILES..  a row with the fence's answer for each\n\nFILE is a coded DIBOL unit, or - for standard input; of check it may be a\nfolder, too, and stands for each *.unit below it. Fields and labels have the\nnames that X.names beside X.unit gives them, where it fits the unit. A run\ntakes at most 100,000 statements. A byte that cannot be printed is shown as\n\\xHH, a backslash as \\\\.\n\noptions: --data FILE  not of list: take the data in FILE, not the unit's own\n         --first N    of fence: tell N references, not 20\n         --latin1     show the bytes A1 to FF, but AD, as letters of Latin-1\n         --plain      name fields and labels by numbers: A0, D3, L7\n         --raw        of run: leave the data, its second line, as it is\n         --           ends the options\n\nstatus:  0 yes, or the end of a run; 1 no, a run that stopped, or a warning;\n         2 refused; 3 wrong usage, or a file that cannot be used\n\nexample: boxlever fence fares.unit\n",
    );
    Status::Good
}

// Writes the version.
fn version(host: &Host) -> Status {
    host.say(b"boxlever 0.4.0\n");
    Status::Good
}

// The word of a name.
fn word_of(name: &[u8]) -> Option<Word> {
    let (_, word) = WORDS.iter().find(|(n, _)| *n == name)?;
    Some(*word)
}

// Answers a call by its word; what belongs to it stands from an argument on.
fn answer_word(host: &Host, name: &[u8], from: usize) -> Status {
    match word_of(name) {
        Some(Word::Files(verb)) => answer_files(host, name, verb, from),
        Some(Word::Help) => help(host),
        Some(Word::Version) => version(host),
        None => usage(host, name, ": there is no such word"),
    }
}

// Answers a call whose word is an argument, and gives the exit status.
fn answer(host: &Host, at: usize) -> Status {
    if host.arg_count() <= at {
        return usage(host, b"nothing", " is asked");
    }
    let mut space = io::buffer();
    answer_word(host, host.argument(at, &mut space), at.saturating_add(1))
}

// Answers a call. The exit status is 141 if nobody reads the answer or the errors; the status of the answer if the wrapper asks for it by the first argument, where an
// answer that is not written to its end has failed; else 0.
fn main(rt: HostRuntime) -> ExitCode {
    let host = Host::new(rt);
    let asked = host.asked_at();
    let status = answer(&host, asked.unwrap_or(1));
    if host.is_unheard() {
        return ExitCode::from(UNHEARD);
    }
    match asked {
        Some(_) if host.is_whole() => ExitCode::from(status),
        Some(_) => ExitCode::from(Status::Failed),
        None => ExitCode::SUCCESS,
    }
}
