// What the program has of the system: its arguments, the files that it reads, and the two streams that it writes.
ghost use Rattle.std.specs.Io.{ReadsAtMost};

use crate::lines::{Line, ROOM};
use std::cell::Cell;
use std::env::FillError;
use std::fs::File;
use std::io::{Error, Print, Read};
use std::rt::Env;
use std::{fs, str};

// The bytes that a file is read into, of which the longest unit takes less.
pub const BUFFER: usize = 65536;

// The system's error numbers that the program distinguishes: no such file, a closed descriptor, a pipe that nobody reads, a name that is too long, a name that
// is not UTF-8.
const MISSING: i32 = 2;

const CLOSED: i32 = 9;

const UNHEARD: i32 = 32;

const LONG: i32 = 36;

const NO_TEXT: i32 = 84;

// A file name of this many bytes is too long to open.
pub const PATH: usize = 4096;

// The runtime, which has the arguments, files and streams; and whether a write to standard output has failed, whether a write found that nobody reads its
// stream, and whether standard input has been read.
#[derive(Drop)]
pub struct Host {
    rt: HostRuntime,
    lost: Cell<bool>,
    gone: Cell<bool>,
    used: Cell<bool>,
}

// Whether an error is the system's of a number.
fn is_error(e: Error, number: i32) -> bool {
    e.raw_os_error() == Some(number)
}

// Whether a file is missing.
pub fn is_missing(e: Error) -> bool {
    is_error(e, MISSING)
}

// The system's words for an error: what std prints of it before ` (os error 2)`.
fn reason_of(e: Error) -> Line {
    let mut l = Line::new();
    write!(l, "{e}");
    let mark = b" (os error ".as_slice();
    let end = l.bytes().windows(11).position(|w| w == mark);
    l.cut(end.unwrap_or(ROOM));
    l
}

// ---- what is written

impl Host {
    // The host at the start of the program.
    pub fn new(rt: HostRuntime) -> Host {
        Host {
            rt,
            lost: Cell::new(false),
            gone: Cell::new(false),
            used: Cell::new(false),
        }
    }

    // Records a write that failed because nobody reads the stream. After that the program writes to neither stream.
    fn note_unheard(&self, e: Error) {
        if is_error(e, UNHEARD) {
            self.gone.set(true);
        }
    }

    // Writes to standard error. A failure is not reported.
    fn tell(&self, s: &[u8]) {
        if self.gone.get() {
            return;
        }
        if let Err(e) = self.rt.stderr().write_all(s) {
            self.note_unheard(e);
        }
    }

    // Writes a line to standard error.
    pub fn tell_line(&self, mut l: Line) {
        l.byte(b'\n');
        self.tell(l.bytes());
    }

    // Reports an error: a line with what failed, and the reason.
    pub fn fail(&self, what: Line, e: Error) {
        self.tell(what.bytes());
        let mut l = Line::new();
        l.text(b": ");
        l.text(reason_of(e).bytes());
        self.tell_line(l);
    }

    // Records that standard output cannot be written, and reports why, unless it is closed.
    fn lose(&self, e: Error) {
        self.lost.set(true);
        self.note_unheard(e);
        if !is_error(e, CLOSED) {
            let mut l = Line::new();
            l.text(b"boxlever: standard output");
            self.fail(l, e);
        }
    }

    // Writes to standard output. The first failure is reported; after it nothing more is written.
    pub fn say(&self, s: &[u8]) {
        if self.lost.get() || self.gone.get() {
            return;
        }
        if let Err(e) = self.rt.stdout().write_all(s) {
            self.lose(e);
        }
    }

    // Writes a line to standard output. A full one ends in two dots.
    pub fn say_line(&self, mut l: Line) {
        if l.is_full() {
            l.cut_whole(ROOM);
            self.say(l.bytes());
            self.say(b"..\n");
        } else {
            l.byte(b'\n');
            self.say(l.bytes());
        }
    }

    // Writes data of any length as it is shown, and ends its line.
    pub fn say_shown(&self, s: &[u8], letters: bool) {
        let mut l = Line::with_letters(letters);
        for b in s {
            if ROOM - 4 <= l.len() {
                self.say(l.bytes());
                l.cut(0);
            }
            l.shown_byte(*b, false);
        }
        self.say_line(l);
    }

    // Whether all that was said has been written.
    pub fn is_whole(&self) -> bool {
        !self.lost.get()
    }

    // Whether a write found that nobody reads its stream.
    pub fn is_unheard(&self) -> bool {
        self.gone.get()
    }
}

// ---- arguments

impl Host {
    // How many arguments the program was started with, its own name among them.
    pub fn arg_count(&self) -> usize {
        let mut space = [0u8; 1];
        for i in 0..usize::MAX {
            if let Err(FillError::NotPresent) = self.rt.arg(i, &mut space) {
                return i;
            }
        }
        usize::MAX
    }

    // An argument, put at the start of a buffer; empty where there is none. One that is too long fills the buffer, and no file has such a name.
    pub fn argument<'a>(&self, i: usize, buf: &'a mut [u8]) -> &'a [u8] {
        match self.rt.arg(i, buf) {
            Ok(n) => &buf[..n],
            Err(FillError::TooLong) => buf,
            Err(FillError::NotPresent) => b"",
        }
    }

    // Whether an argument is a word.
    pub fn is_word(&self, i: usize, word: &[u8]) -> bool {
        let mut space = io::buffer();
        self.argument(i, &mut space) == word
    }

    // std opens a file only by a name that is UTF-8. The wrapper opens files with other names, and passes these words in front of the call: `--handed`, the number
    // of files, and for each file its name and then either a name by which the program opens it again or the system's number of the error.

    // How many files the wrapper has opened for the call.
    fn handed(&self) -> usize {
        if !self.is_word(1, b"--handed") {
            return 0;
        }
        let mut space = io::buffer();
        number_in(self.argument(2, &mut space)).min(self.arg_count())
    }

    // The number of the argument with which the call begins, if there are words of the wrapper's before it, which so asks for the exit status.
    pub fn asked_at(&self) -> Option<usize> {
        if self.is_word(1, b"--handed") {
            return Some(handed_at(self.handed()));
        }
        self.is_word(1, b"--status").then_some(2)
    }

    // The number of the argument that is the name of a file which the wrapper has opened.
    fn opened_at(&self, path: &[u8]) -> Option<usize> {
        let mut names = (0..self.handed()).map(handed_at);
        names.find(|at| self.is_word(*at, path))
    }
}

// The number of the argument that is the name of the file i of those that the wrapper has opened, or would be.
fn handed_at(i: usize) -> usize {
    i.saturating_mul(2).saturating_add(3)
}

// ---- files

// A name as text.
fn text_of(path: &[u8]) -> Result<&str, Error> {
    str::from_utf8(path).map_err(|_| Error::from_raw_os_error(NO_TEXT))
}

// Reads until the buffer is full or the file ends, and returns the number of bytes read. The loop stays: how far it goes on depends on what was read.
pub fn read_full<R: Read>(reader: &mut R, buf: &mut [u8]) -> Result<usize, Error>
    ensures { ReadsAtMost result buf.new }
{
    let mut done = 0;
    while done < buf.len() {
        let n = reader.read(&mut buf[done..])?;
        if n == 0 {
            break;
        }
        done += n;
    }
    Ok(done)
}

impl Host {
    // Opens again a file that the wrapper has opened.
    fn open_again(&self, path: &[u8]) -> Result<File, Error> {
        let Some(at) = self.opened_at(path) else {
            return Err(Error::from_raw_os_error(NO_TEXT));
        };
        let mut space = io::buffer();
        let way = self.argument(at.saturating_add(1), &mut space);
        if is_number(way) {
            return Err(Error::from_raw_os_error((number_in(way) % 256) as i32));
        }
        fs::open(&self.rt, text_of(way)?)
    }

    // Opens a file for reading.
    pub fn open(&self, path: &[u8]) -> Result<File, Error> {
        if PATH <= path.len() {
            return Err(Error::from_raw_os_error(LONG));
        }
        match text_of(path) {
            Ok(text) => fs::open(&self.rt, text),
            Err(_) => self.open_again(path),
        }
    }

    // Reads standard input into a buffer. After the first time, it is reported as closed.
    fn read_input(&self, buf: &mut [u8]) -> Result<usize, Error>
        ensures { ReadsAtMost result buf.new }
    {
        if self.used.replace(true) {
            return Err(Error::from_raw_os_error(CLOSED));
        }
        let mut input = self.rt.stdin();
        read_full(&mut input, buf)
    }

    // Reads a file into a buffer, as much as fits. `-` is standard input.
    fn read(&self, path: &[u8], buf: &mut [u8]) -> Result<usize, Error>
        ensures { ReadsAtMost result buf.new }
    {
        if matches!(path, b"-") {
            return self.read_input(buf);
        }
        let mut file = self.open(path)?;
        read_full(&mut file, buf)
    }

    // The bytes of a file, as much of it as a buffer has room for; or the error, which is reported.
    pub fn read_file<'a>(&self, path: &[u8], buf: &'a mut [u8]) -> Result<&'a [u8], Error> {
        match self.read(path, buf) {
            Ok(n) => Ok(&buf[..n]),
            Err(e) => {
                let mut l = Line::new();
                l.text(b"boxlever: ");
                l.given(path);
                self.fail(l, e);
                Err(e)
            }
        }
    }
}

// ---- numbers in figures

// Whether a text is a number in figures, without leading zeros.
pub fn is_number(s: &[u8]) -> bool {
    match s {
        [] | [b'0', _, ..] => false,
        _ => s.iter().all(u8::is_ascii_digit),
    }
}

// A number with one figure more behind it, or the greatest number.
fn with_figure(n: usize, b: u8) -> usize {
    if 99999999999999999 < n {
        return usize::MAX;
    }
    n * 10 + usize::from(b % 16)
}

// The number that figures give, or the greatest number.
pub fn number_in(s: &[u8]) -> usize {
    s.iter().fold(0, |n, b| with_figure(n, *b))
}
