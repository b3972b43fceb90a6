// What a statement stores: the one place where data changes.
#![tactic(auto)]

ghost use Rattle.std.specs.Prelude.{◌≡◌, cond, ◌+◌, ◌^◌, ◌≤◌, length, take, drop};
ghost use Rattle.unit_decode.specs.Units.{code_in};
ghost use Rattle.rules.specs.Values.{Val};
ghost use Rattle.rules.specs.Moves.{written, shown, fitted};
ghost use Rattle.rules.specs.Masks.{rightmost, formatted};
ghost use Rattle.rules_unit.specs.Decode.{SoundDialect};
ghost use Rattle.rules_run.specs.Turns.{stored, cased, cleared, applied, Room};

use alpha::Cases;
use number::Tens;
use rules_run::Write;
use rules_unit::Parts;
use unit_decode::Coded;

// A number in a decimal span.
fn store_number(parts: Parts, bytes: &mut [u8], start: usize, len: usize, v: i64)
    requires sound_dialect { SoundDialect parts.dialect }
    requires len_in_bounds { (start + len ≤ length bytes.old) × (len ≤ 18) }
    requires val { Val (10 ^ 18) v }
    ensures { bytes.new ≡ stored bytes.old start (written parts.dialect.sign len v) }
{
    let end = start + len;
    text::write(parts.dialect.sign, &mut bytes[start..end], v)
}

// A number in an alpha span.
fn store_shown(bytes: &mut [u8], start: usize, len: usize, v: i64)
    requires len_in_bounds { start + len ≤ length bytes.old }
    requires val { Val (10 ^ 18) v }
    ensures { bytes.new ≡ stored bytes.old start (shown len v) }
{
    let end = start + len;
    text::show(&mut bytes[start..end], v)
}

// Moves n bytes from the front: for a destination that stands before its source.
fn move_up(bytes: &mut [u8], to: usize, from: usize, n: usize)
    requires { (to ≤ from) × (from + n ≤ length bytes.old) }
    ensures { bytes.new ≡ stored bytes.old to (take n (drop from bytes.old)) }
{
    for i in 0..n {
        bytes[to + i] = bytes[from + i];
    }
}

// Moves n bytes from the back: for a destination that stands behind its source.
fn move_down(bytes: &mut [u8], to: usize, from: usize, n: usize)
    requires { (from ≤ to) × (to + n ≤ length bytes.old) }
    ensures { bytes.new ≡ stored bytes.old to (take n (drop from bytes.old)) }
{
    for i in (0..n).rev() {
        bytes[to + i] = bytes[from + i];
    }
}

// Moves n bytes as if they had been copied away first.
// Tried: `copy_within`. The edit that moves every text from the front then plants a loop, and a right loop there would be refused too.
fn shift(bytes: &mut [u8], to: usize, from: usize, n: usize)
    requires { (to + n ≤ length bytes.old) × (from + n ≤ length bytes.old) }
    ensures { bytes.new ≡ stored bytes.old to (take n (drop from bytes.old)) }
{
    if to <= from {
        return move_up(bytes, to, from, n);
    }
    move_down(bytes, to, from, n)
}

// Alpha to alpha inside the data: the count bytes at from, cut or filled to len, stored at start.
fn move_text(bytes: &mut [u8], start: usize, len: usize, from: usize, count: usize)
    requires { (start + len ≤ length bytes.old) × (from + count ≤ length bytes.old) }
    ensures { bytes.new ≡ stored bytes.old start (fitted len (take count (drop from bytes.old))) }
{
    if len <= count {
        return shift(bytes, start, from, len);
    }
    shift(bytes, start, from, count);
    let a = start + count;
    let e = start + len;
    alpha::fill(&mut bytes[a..e], 32)
}

// An alpha literal, which lies in the unit.
fn store_literal(coded: &Coded, bytes: &mut [u8], start: usize, len: usize, place: u16, count: u16)
    requires len_in_bounds { start + len ≤ length bytes.old }
    requires count_in_bounds { place + count ≤ length (code_in coded.now).literals }
    ensures { bytes.new ≡ stored bytes.old start (fitted len (take count (drop place (code_in coded.now).literals))) }
{
    let from = unit_decode::long(place);
    let to = from + unit_decode::long(count);
    let end = start + len;
    alpha::fit(&mut bytes[start..end], &coded.literals()[from..to])
}

// The character that CLEAR writes: a zero to decimal, a space to alpha.
fn clear_character(decimal: bool) -> u8
    ensures { result ≡ cond decimal 48 32 }
{
    if decimal { 48 } else { 32 }
}

// CLEAR of a span.
fn store_cleared(bytes: &mut [u8], start: usize, len: usize, decimal: bool)
    requires { start + len ≤ length bytes.old }
    ensures { bytes.new ≡ stored bytes.old start (cleared decimal len) }
{
    let end = start + len;
    alpha::fill(&mut bytes[start..end], clear_character(decimal))
}

// UPCASE or LOCASE of a span, by its chart.
fn store_cased(cases: &Cases, bytes: &mut [u8], start: usize, len: usize, upper: bool)
    requires { start + len ≤ length bytes.old }
    ensures { bytes.new ≡ stored bytes.old start (cased upper (take len (drop start bytes.old))) }
{
    let end = start + len;
    if upper {
        return cases.upcase(&mut bytes[start..end]);
    }
    cases.locase(&mut bytes[start..end])
}

// A mask inside the data: the last of the count bytes at from, stored at the right end of the len bytes at start, with spaces before them.
fn lay_text(bytes: &mut [u8], start: usize, len: usize, from: usize, count: usize)
    requires { (start + len ≤ length bytes.old) × (from + count ≤ length bytes.old) }
    ensures { bytes.new ≡ stored bytes.old start (rightmost len (take count (drop from bytes.old))) }
{
    if len <= count {
        let cut = count - len;
        return shift(bytes, start, from + cut, len);
    }
    let gap = len - count;
    let a = start + gap;
    shift(bytes, a, from, count);
    alpha::fill(&mut bytes[start..a], 32)
}

// A number by a mask inside the data, which the destination may overlap: the mask is read before it is moved, and edited where it then stands.
fn format_in(bytes: &mut [u8], start: usize, len: usize, from: usize, count: usize, v: i64)
    requires len_in_bounds { (start + len ≤ length bytes.old) × (from + count ≤ length bytes.old) }
    requires val { Val (10 ^ 18) v }
    ensures { bytes.new ≡ stored bytes.old start (formatted len (take count (drop from bytes.old)) v) }
{
    let tens = Tens::new();
    let last = from + count;
    let g = run_masks::plan(&tens, len, &bytes[from..last], v);
    lay_text(bytes, start, len, from, count);
    let end = start + len;
    run_masks::finish(&tens, g, &mut bytes[start..end])
}

// A number by a mask that is an alpha literal, which lies in the unit.
fn format_literal(
    coded: &Coded,
    bytes: &mut [u8],
    start: usize,
    len: usize,
    place: usize,
    count: usize,
    v: i64,
)
    requires len_in_bounds { start + len ≤ length bytes.old }
    requires val { Val (10 ^ 18) v }
    requires count_in_bounds { place + count ≤ length (code_in coded.now).literals }
    ensures { bytes.new ≡ stored bytes.old start (formatted len (take count (drop place (code_in coded.now).literals)) v) }
{
    let last = place + count;
    let end = start + len;
    run_masks::format(&mut bytes[start..end], &coded.literals()[place..last], v)
}

// Stores what a statement answered; UPCASE and LOCASE go by the charts. Data changes here and nowhere else.
pub fn store(coded: &Coded, cases: &Cases, bytes: &mut [u8], w: Write)
    requires sound_dialect { SoundDialect coded.now.parts.dialect }
    requires room { Room (code_in coded.now) (length bytes.old) w }
    ensures { bytes.new ≡ applied (code_in coded.now) bytes.old w }
{
    match w {
        Write::Nothing => {}
        Write::Number { start, len, value } => store_number(coded.parts, bytes, start, len, value),
        Write::Show { start, len, value } => store_shown(bytes, start, len, value),
        Write::Move {
            start,
            len,
            from,
            count,
        } => move_text(bytes, start, len, from, count),
        Write::Literal {
            start,
            len,
            place,
            count,
        } => store_literal(coded, bytes, start, len, place, count),
        Write::Clear {
            start,
            len,
            decimal,
        } => store_cleared(bytes, start, len, decimal),
        Write::Case { start, len, upper } => store_cased(cases, bytes, start, len, upper),
        Write::Edit {
            start,
            len,
            from,
            count,
            value,
        } => format_in(bytes, start, len, from, count, value),
        Write::EditLiteral {
            start,
            len,
            place,
            count,
            value,
        } => format_literal(coded, bytes, start, len, place, count, value),
    }
}
