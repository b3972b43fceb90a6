// Numbers in bytes: reading and writing decimals, number to alpha, alpha to number.
#![tactic(auto)]

ghost use Rattle.std.specs.Prelude.{◌≡◌, ◌+◌, ◌^◌, ◌≤◌, ◌<◌, length, get_or, drop};
ghost use Rattle.rules.specs.Values.{Val, Top, Limit, Letters, last_digit, read_from, read_of};
ghost use Rattle.rules.specs.Moves.{placed, digit_at, written, width, shown_at, shown, alpha_of};

use number::Tens;
use rules::Fault;

// The number of a decimal whose last character is b, after the digits of acc; 22 where b is neither a digit nor a sign letter.
fn last_digit(sign: u64, acc: u64, b: u64) -> Result<i64, Fault>
    requires letters { Letters sign }
    requires acc_bound { acc < 10 ^ 17 }
    ensures { result ≡ last_digit sign acc b }
{
    if b < 48 {
        return Err(Fault::BadDigit);
    }
    if b < 58 {
        return Ok(number::with_sign(false, acc * 10 + (b - 48)));
    }
    if b < sign {
        return Err(Fault::BadDigit);
    }
    if b < sign + 10 {
        return Ok(number::with_sign(true, acc * 10 + (b - sign)));
    }
    Err(Fault::BadDigit)
}

// Reads the characters of a decimal that stand at `from` and behind it; 22 where they are not valid. Its caller has passed over spaces before them.
// Tried: the loop over a part of s that starts at `from`, 2.7 % more instructions in a whole run.
fn figures(sign: u64, s: &[u8], from: usize) -> Result<i64, Fault>
    requires from_in_bounds { (from < length s.now) × (length s.now ≤ 18) }
    requires letters { Letters sign }
    ensures { result ≡ read_from sign 0 (get_or s.now from 0) (drop (from + 1) s.now) }
{
    let end = s.len() - 1;
    let mut acc: u64 = 0;
    for i in from..end {
        let b = u64::from(s[i]);
        if b < 48 || 57 < b {
            return Err(Fault::BadDigit);
        }
        acc = acc * 10 + (b - 48);
    }
    last_digit(sign, acc, u64::from(s[end]))
}

// Reads a decimal, of which leading spaces are zeros: 20 where it is longer than limit, spaces counted, and 22 where it is not valid.
pub fn read(limit: usize, sign: u64, s: &[u8]) -> Result<i64, Fault>
    requires limit { Limit limit }
    requires letters { Letters sign }
    ensures { result ≡ read_of limit sign s.now }
{
    if s.is_empty() {
        return Err(Fault::BadDigit);
    }
    if limit < s.len() {
        return Err(Fault::TooLong);
    }
    for (from, b) in s.iter().enumerate() {
        let other = *b != 32;
        if other {
            return figures(sign, s, from);
        }
    }
    Ok(0)
}

// The last digits of m, as many as there is room for, from the right.
fn put_digits(s: &mut [u8], m: u64)
    ensures { s.new ≡ placed (digit_at 48 m) (length s.old) }
{
    let mut left = m;
    for i in (0..s.len()).rev() {
        s[i] = (48 + left % 10) as u8;
        left /= 10;
    }
}

// Writes a number as a decimal.
pub fn write(sign: u8, s: &mut [u8], v: i64)
    requires letters { Letters sign }
    requires s_len_bound { length s.old ≤ 18 }
    requires val { Val (10 ^ 18) v }
    ensures { s.new ≡ written sign (length s.old) v }
{
    let n = s.len();
    let m = number::magnitude(v);
    put_digits(s, m);
    if number::is_neg(v) {
        let tens = number::power(n);
        let kept = m % tens;
        if 0 < kept {
            s[n - 1] = sign + (m % 10) as u8;
        }
    }
}

// How many digits m has.
fn width_of(tens: &Tens, m: u64) -> usize
    ensures { (result ≡ width m) × (result ≤ 18) }
{
    for w in 1..18 {
        if m < tens.power(w) {
            return w;
        }
    }
    18
}

// What stands at the place k, counted from the right, where a number of w digits is shown: a digit is found by the power of its place.
fn shown_at(tens: &Tens, neg: bool, m: u64, w: usize, k: usize) -> u8
    requires { w ≤ 18 }
    ensures { result ≡ shown_at neg m w k }
{
    if k < w {
        return (48 + tens.digit(m, k)) as u8;
    }
    if neg && k == w { 45 } else { 32 }
}

// Shows a number in alpha.
pub fn show(s: &mut [u8], v: i64)
    requires { Val (10 ^ 18) v }
    ensures { s.new ≡ shown (length s.old) v }
{
    let n = s.len();
    let neg = number::is_neg(v);
    let m = number::magnitude(v);
    let tens = Tens::new();
    let w = width_of(&tens, m);
    for i in (0..n).rev() {
        s[i] = shown_at(&tens, neg, m, w, n - 1 - i);
    }
}

// Alpha to number. From top on acc stands still: what is left can only turn 20 into 22.
pub fn from_alpha(top: u64, s: &[u8]) -> Result<i64, Fault>
    requires { Top top }
    ensures { result ≡ alpha_of top s.now }
{
    let mut minus = false;
    let mut acc: u64 = 0;
    for x in s {
        let b = u64::from(*x);
        if b == 45 {
            let twice = minus;
            if twice {
                return Err(Fault::BadDigit);
            }
            minus = true;
        } else if b != 32 {
            if b != 43 {
                if b < 48 || 57 < b {
                    return Err(Fault::BadDigit);
                }
                if acc < top {
                    acc = acc * 10 + (b - 48);
                }
            }
        }
    }
    if acc < top {
        return Ok(number::with_sign(minus, acc));
    }
    Err(Fault::TooLong)
}
