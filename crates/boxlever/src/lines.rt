// A line in the making. What is put stands behind what stands there already, as much of it as there is room for; a full line takes no more.
ghost use Rattle.std.specs.Prelude.{length};
ghost use Rattle.std.specs.Iterator.{at_most};

use arrayvec::ArrayVec;
use std::fmt;

// The bytes that a line has room for.
pub const ROOM: usize = 600;

// The bytes of a line up to which a word of the call is put.
const GIVEN: usize = 500;

// How a unit and its name are shown: the data of a run as it is; Latin-1's letters as letters.
#[derive(Clone, Copy, Default)]
pub struct Show {
    pub raw: bool,
    pub letters: bool,
}

// A line: its bytes, how many of them take no column of their own, and whether it shows letters.
#[derive(Drop)]
pub struct Line {
    text: ArrayVec<u8, ROOM>,
    beyond: usize,
    letters: bool,
}

impl fmt::Write for Line {
    fn write_str(&mut self, s: &str) -> fmt::Result {
        self.text(s.as_bytes());
        Ok(())
    }
}

impl Line {
    // A line with nothing in it, for a unit or its name.
    pub fn with_letters(letters: bool) -> Line {
        Line {
            text: ArrayVec::new(),
            beyond: 0,
            letters,
        }
    }

    // A line with nothing in it, for all else.
    pub fn new() -> Line {
        Line::with_letters(false)
    }

    pub fn len(&self) -> usize {
        self.text.len()
    }

    pub fn is_full(&self) -> bool {
        ROOM <= self.len()
    }

    pub fn bytes(&self) -> &[u8] {
        self.text.as_slice()
    }

    // How many columns the line takes.
    pub fn width(&self) -> usize {
        self.len().saturating_sub(self.beyond)
    }

    // Cuts the line at an offset. What is cut off has no letters where columns still count.
    pub fn cut(&mut self, at: usize) {
        self.text.truncate(at);
    }

    // Takes the spaces off the line's end.
    pub fn trim(&mut self) {
        let len = self.bytes().trim_ascii_end().len();
        self.cut(len);
    }

    // Puts a byte.
    pub fn byte(&mut self, b: u8) {
        let _ = self.text.try_push(b);
    }

    // Puts a text.
    pub fn text(&mut self, s: &[u8]) {
        let n = s.len().min(ROOM.saturating_sub(self.len()));
        let _ = self.text.try_extend_from_slice(&s[..n]);
    }

    // Puts what `write!` is given. A line never fails, so there is no result to look at.
    pub fn write_fmt<D: fmt::Display + Drop>(&mut self, value: D) {
        let _ = fmt::Write::write(self, value);
    }

    // Puts spaces up to a column.
    pub fn fill_to(&mut self, column: usize) {
        for _ in self.width()..column {
            self.byte(b' ');
        }
    }

    // Puts a number that ends before a column.
    pub fn right(&mut self, n: usize, column: usize) {
        let room = column.saturating_sub(self.width());
        write!(self, "{n:>room$}");
    }

    // Puts a text over the columns from one on.
    pub fn cover(&mut self, column: usize, s: &[u8]) {
        let columns = self.text.as_mut_slice().iter_mut().skip(column);
        for (place, b) in columns.zip(s) {
            *place = *b;
        }
    }

    // Puts `3-7`, or `3` for one byte.
    pub fn span(&mut self, from: usize, len: usize) {
        write!(self, "{from}");
        if 2 <= len {
            write!(self, "-{}", last_of(from, len));
        }
    }

    // Puts ` bytes 3 to 7`, or ` byte 3`.
    pub fn bytes_at(&mut self, from: usize, len: usize) {
        if len < 2 {
            write!(self, " byte {from}");
        } else {
            write!(self, " bytes {from} to {}", last_of(from, len));
        }
    }

    // ---- bytes as they are shown
    // The bytes 20 to 7E are shown as they are, but a backslash, and in quotes a quote, has a backslash before it; any other byte is `\x` and two digits in
    // hex. So nothing of a unit, of a name or of a call reaches a terminal but as these characters, and what is shown can be read back. Where it is asked
    // for, the letters and signs of Latin-1 beyond 7E are shown as UTF-8 writes them; 80 to 9F are controls and never are, and AD is none that can be seen.

    // Puts a byte as it is shown, inside quotes or not.
    pub fn shown_byte(&mut self, b: u8, quoted: bool) {
        match b {
            b'\\' => self.text(b"\\\\"),
            b'"' if quoted => self.text(b"\\\""),
            32..=126 => self.byte(b),
            161..=172 | 174..=255 if self.letters => self.latin(b),
            _ => write!(self, "\\x{b:02X}"),
        }
    }

    // Puts a letter of Latin-1 as UTF-8 writes it: two bytes in one column.
    fn latin(&mut self, b: u8) {
        self.beyond = self.beyond.saturating_add(1);
        let _ = fmt::Write::write_char(self, char::from(b));
    }

    // Puts a byte in one column: as it is, where it can be printed or is a letter that is asked for, else a dot.
    pub fn column(&mut self, b: u8) {
        match b {
            32..=126 => self.byte(b),
            161..=172 | 174..=255 if self.letters => self.latin(b),
            _ => self.byte(b'.'),
        }
    }

    // Puts a text as it is shown.
    fn shown(&mut self, s: &[u8], quoted: bool) {
        for b in s {
            if self.is_full() {
                break;
            }
            self.shown_byte(*b, quoted);
        }
    }

    // Puts a text in quotes.
    pub fn quoted(&mut self, s: &[u8]) {
        self.byte(b'"');
        self.shown(s, true);
        self.byte(b'"');
    }

    // Puts a file's name or another word of the call, in quotes where it has a space or a quote and might pass for more than one word. It leaves room for what is said
    // of it.
    pub fn given(&mut self, s: &[u8]) {
        if s.contains(&b' ') || s.contains(&b'"') {
            self.quoted(s);
        } else {
            self.shown(s, false);
        }
        self.cut_to(GIVEN);
    }

    // Cuts the line before a character that goes beyond an offset.
    pub fn cut_whole(&mut self, to: usize) {
        let text = self.bytes();
        let characters = Characters(text.get(..to).unwrap_or(text));
        let len = characters.fold(0usize, |n, c| n.saturating_add(c.len()));
        self.cut(len);
    }

    // Cuts a line that is longer than a room, and puts two dots.
    pub fn cut_to(&mut self, room: usize) {
        if room < self.len() {
            self.cut_whole(room.saturating_sub(2));
            self.text(b"..");
        }
    }
}

// The characters of a shown text, but for one that is cut off at its end.
#[derive(Drop)]
struct Characters<'a>(&'a [u8]);

impl<'a> Iterator for Characters<'a> {
    type Item = &'a [u8];

    ghost remaining = { λ s. at_most (length s.0.now) };

    fn next(&mut self) -> Option<&'a [u8]> {
        let width = match self.0 {
            [] => return None,
            [b'\\', b'x', ..] => 4,
            [b'\\', ..] | [(127..), ..] => 2,
            _ => 1,
        };
        let (character, rest) = self.0.split_at_checked(width)?;
        self.0 = rest;
        Some(character)
    }
}

// The last of some bytes.
fn last_of(from: usize, len: usize) -> usize {
    from.saturating_add(len).saturating_sub(1)
}

// The len bytes from an offset on, as many of them as there are.
pub fn part(s: &[u8], at: usize, len: usize) -> &[u8] {
    let rest = s.get(at..).unwrap_or(b"");
    &rest[..len.min(rest.len())]
}
