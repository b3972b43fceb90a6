// A table of the decimal fields: for each byte of the data where the next one starts, so that a span is held against all of them at once.
#![tactic(auto)]

ghost use Rattle.std.specs.Prelude.{◌≡◌, ◌+◌, ◌<◌, leb, length, get_or, replicate, Ok};
ghost use Rattle.unit_decode.specs.Units.{code_in};
ghost use Rattle.rules_unit.specs.Checks.{check_of};
ghost use Rattle.fence_decimals.specs.Ahead.{behind_of, ahead_of};

use rules_unit::{Field, Parts};
use unit_decode::Coded;

// The end of the last decimal field up to this one; the floor is the end of the last one before it.
fn behind(field: Field, floor: usize) -> usize
    ensures { result ≡ behind_of field floor }
{
    let kind = field.kind;
    if unit_decode::is_decimal(kind) {
        return unit_decode::end_of(field);
    }
    floor
}

// Notes for each byte where the first decimal field starts that ends behind it. Each byte is written at most once: decimal fields rise.
pub fn note_decimals(coded: &Coded, ahead: &mut [u16])
    requires unit_value { check_of coded.now.unit.now ≡ Ok coded.now.parts }
    requires ahead_value { ahead.old ≡ replicate 16384 65535 }
    ensures { ahead.new ≡ ahead_of (code_in coded.now) }
{
    let mut floor: usize = 0;
    for g in 0..coded.parts.f {
        let field = coded.field(g);
        let next = behind(field, floor);
        ahead[floor..next].fill(field.offset);
        floor = next;
    }
}

// Whether the n bytes from a on end before the decimal field starts that the table has for a. Past the table there is none.
pub fn apart(ahead: &[u16], a: usize, n: usize) -> bool
    requires { a + n < 65536 }
    ensures { result ≡ leb (a + n) (get_or ahead.now a 65535) }
{
    ahead.len() <= a || a + n <= usize::from(ahead[a])
}
