// Letters in bytes: alpha to alpha, case, filling.
#![tactic(auto)]

ghost use Rattle.std.specs.Prelude.{◌≡◌, ℕ, map, length, replicate};
ghost use Rattle.rules.specs.Charts.{Charts};
ghost use Rattle.rules.specs.Moves.{fitted, upper, lower, upcased, locased};

// UPCASE of each byte, sixteen to a row: the row is the first hex digit of the byte, the column the second.
const UPPER: [u8; 256] = *b"\
    \x00\x01\x02\x03\x04\x05\x06\x07\x08\x09\x0a\x0b\x0c\x0d\x0e\x0f\
    \x10\x11\x12\x13\x14\x15\x16\x17\x18\x19\x1a\x1b\x1c\x1d\x1e\x1f\
    \x20!\"#$%&'()*+,-./\
    0123456789:;<=>?\
    @ABCDEFGHIJKLMNO\
    PQRSTUVWXYZ[\\]^_\
    `ABCDEFGHIJKLMNO\
    PQRSTUVWXYZ{|}~\x7f\
    \x80\x81\x82\x83\x84\x85\x86\x87\x88\x89\x8a\x8b\x8c\x8d\x8e\x8f\
    \x90\x91\x92\x93\x94\x95\x96\x97\x98\x99\x9a\x9b\x9c\x9d\x9e\x9f\
    \xa0\xa1\xa2\xa3\xa4\xa5\xa6\xa7\xa8\xa9\xaa\xab\xac\xad\xae\xaf\
    \xb0\xb1\xb2\xb3\xb4\xb5\xb6\xb7\xb8\xb9\xba\xbb\xbc\xbd\xbe\xbf\
    \xc0\xc1\xc2\xc3\xc4\xc5\xc6\xc7\xc8\xc9\xca\xcb\xcc\xcd\xce\xcf\
    \xd0\xd1\xd2\xd3\xd4\xd5\xd6\xd7\xd8\xd9\xda\xdb\xdc\xdd\xde\xdf\
    \xe0\xe1\xe2\xe3\xe4\xe5\xe6\xe7\xe8\xe9\xea\xeb\xec\xed\xee\xef\
    \xf0\xf1\xf2\xf3\xf4\xf5\xf6\xf7\xf8\xf9\xfa\xfb\xfc\xfd\xfe\xff";

// LOCASE of each byte, laid out alike.
const LOWER: [u8; 256] = *b"\
    \x00\x01\x02\x03\x04\x05\x06\x07\x08\x09\x0a\x0b\x0c\x0d\x0e\x0f\
    \x10\x11\x12\x13\x14\x15\x16\x17\x18\x19\x1a\x1b\x1c\x1d\x1e\x1f\
    \x20!\"#$%&'()*+,-./\
    0123456789:;<=>?\
    @abcdefghijklmno\
    pqrstuvwxyz[\\]^_\
    `abcdefghijklmno\
    pqrstuvwxyz{|}~\x7f\
    \x80\x81\x82\x83\x84\x85\x86\x87\x88\x89\x8a\x8b\x8c\x8d\x8e\x8f\
    \x90\x91\x92\x93\x94\x95\x96\x97\x98\x99\x9a\x9b\x9c\x9d\x9e\x9f\
    \xa0\xa1\xa2\xa3\xa4\xa5\xa6\xa7\xa8\xa9\xaa\xab\xac\xad\xae\xaf\
    \xb0\xb1\xb2\xb3\xb4\xb5\xb6\xb7\xb8\xb9\xba\xbb\xbc\xbd\xbe\xbf\
    \xc0\xc1\xc2\xc3\xc4\xc5\xc6\xc7\xc8\xc9\xca\xcb\xcc\xcd\xce\xcf\
    \xd0\xd1\xd2\xd3\xd4\xd5\xd6\xd7\xd8\xd9\xda\xdb\xdc\xdd\xde\xdf\
    \xe0\xe1\xe2\xe3\xe4\xe5\xe6\xe7\xe8\xe9\xea\xeb\xec\xed\xee\xef\
    \xf0\xf1\xf2\xf3\xf4\xf5\xf6\xf7\xf8\xf9\xfa\xfb\xfc\xfd\xfe\xff";

// Puts what a chart has for each byte in the byte's place: f of the byte, of whichever rule f it is the chart.
fn recase(chart: &[u8; 256], s: &mut [u8])
    ensures { (f : ℕ → ℕ) → Charts f 256 chart.now → s.new ≡ map f s.old }
{
    for b in s.iter_mut() {
        *b = chart[*b as usize];
    }
}

// The two charts, which a run binds once and lends: a constant that is indexed is laid out anew each time.
#[derive(Clone, Copy)]
pub struct Cases {
    pub uppers: [u8; 256],
    pub lowers: [u8; 256],
    pub ghost upper: { Charts upper 256 uppers },
    pub ghost lower: { Charts lower 256 lowers },
}

impl Cases {
    pub fn new() -> Cases {
        Cases {
            uppers: UPPER,
            lowers: LOWER,
        }
    }

    // UPCASE.
    pub fn upcase(&self, s: &mut [u8])
        ensures { s.new ≡ upcased s.old }
    {
        recase(&self.uppers, s)
    }

    // LOCASE.
    pub fn locase(&self, s: &mut [u8])
        ensures { s.new ≡ locased s.old }
    {
        recase(&self.lowers, s)
    }
}

// Writes b to every byte: CLEAR of alpha by a space, of decimal by a zero.
pub fn fill(s: &mut [u8], b: u8)
    ensures { s.new ≡ replicate (length s.old) b }
{
    s.fill(b)
}

// Alpha to alpha, from text that lies elsewhere: what fits is copied, and spaces fill the rest.
// Tried: `copy_from_slice`, for which the archive for C would need `memmove` from outside.
pub fn fit(s: &mut [u8], from: &[u8])
    ensures { s.new ≡ fitted (length s.old) from.now }
{
    let n = s.len().min(from.len());
    for i in 0..n {
        s[i] = from[i];
    }
    s[n..].fill(32)
}
