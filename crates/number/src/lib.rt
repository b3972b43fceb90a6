// Signed values: the nineteen powers of ten, arithmetic, rounding, relations and truth.
#![tactic(auto)]

ghost use Rattle.std.specs.Prelude.{◌≡◌, ◌*◌, ◌/◌, ◌%◌, ◌^◌, ◌<◌, ◌≤◌, neg_ℤ, nat_abs};
ghost use Rattle.rules.specs.Values.{Val, Top, signed, is_neg};
ghost use Rattle.rules.specs.Arithmetic.{kept, add_of, sub_of, mul_of, div_of, round_of, eq_of, ne_of, gt_of, lt_of, ge_of, le_of, not_of, and_of, or_of, xor_of, Powers};

use rules::Fault;

// 10 to the 0 up to 10 to the 18.
const POWERS: [u64; 19] = [
    1,
    10,
    100,
    1000,
    10000,
    100000,
    1000000,
    10000000,
    100000000,
    1000000000,
    10000000000,
    100000000000,
    1000000000000,
    10000000000000,
    100000000000000,
    1000000000000000,
    10000000000000000,
    100000000000000000,
    1000000000000000000,
];

// The table, for one who looks powers up in a loop: a constant indexed there would be laid out anew on every turn.
#[derive(Clone, Copy)]
pub struct Tens {
    pub table: [u64; 19],
    pub ghost powers: { Powers table },
}

impl Tens {
    pub fn new() -> Tens {
        Tens { table: POWERS }
    }

    // 10 to the k.
    pub fn power(&self, k: usize) -> u64
        requires { k < 19 }
        ensures { result ≡ 10 ^ k }
    {
        self.table[k]
    }

    // The digit of m at the place k, counted from the right.
    pub fn digit(&self, m: u64, k: usize) -> u64
        requires { k < 19 }
        ensures { result ≡ m / 10 ^ k % 10 }
    {
        m / self.power(k) % 10
    }
}

// 10 to the k.
pub fn power(k: usize) -> u64
    requires { k < 19 }
    ensures { result ≡ 10 ^ k }
{
    POWERS[k]
}

// Whether a number is below 0.
pub fn is_neg(v: i64) -> bool
    ensures { result ≡ is_neg v }
{
    v < 0
}

// A byte as a number that a sum may be made with.
pub fn of_byte(x: u8) -> u64
    ensures { result ≡ x }
{
    u64::from(x)
}

// A number without its sign. The bound leaves room for a sum of two values.
pub fn magnitude(v: i64) -> u64
    requires { nat_abs v ≤ 2 * 10 ^ 18 }
    ensures { result ≡ nat_abs v }
{
    v.unsigned_abs()
}

// The number with the sign and the magnitude given; minus zero is 0.
pub fn with_sign(neg: bool, m: u64) -> i64
    requires { m < 10 ^ 18 }
    ensures { result ≡ signed neg m }
{
    if neg { -(m as i64) } else { m as i64 }
}

// The number, or 20 where its magnitude is not below top.
fn keep(top: u64, s: i64) -> Result<i64, Fault>
    requires { nat_abs s ≤ 2 * 10 ^ 18 }
    ensures { result ≡ kept top s }
{
    if magnitude(s) < top {
        Ok(s)
    } else {
        Err(Fault::TooLong)
    }
}

// The sum, or 20.
pub fn add(top: u64, a: i64, b: i64) -> Result<i64, Fault>
    requires val { Val (10 ^ 18) a }
    requires val_2 { Val (10 ^ 18) b }
    ensures { result ≡ add_of top a b }
{
    keep(top, a + b)
}

// The difference, or 20.
pub fn subtract(top: u64, a: i64, b: i64) -> Result<i64, Fault>
    requires val { Val (10 ^ 18) a }
    requires val_2 { Val (10 ^ 18) b }
    ensures { result ≡ sub_of top a b }
{
    keep(top, a - b)
}

// The product, or 20: whether it has its digits is tested before it is made.
pub fn multiply(top: u64, a: i64, b: i64) -> Result<i64, Fault>
    requires top { Top top }
    requires val { Val (10 ^ 18) a }
    requires val_2 { Val (10 ^ 18) b }
    ensures { result ≡ mul_of top a b }
{
    let m = magnitude(a);
    let n = magnitude(b);
    if m == 0 {
        return Ok(0);
    }
    let most = top - 1;
    if most / m < n {
        return Err(Fault::TooLong);
    }
    Ok(a * b)
}

// The quotient toward zero, or 23.
pub fn divide(a: i64, b: i64) -> Result<i64, Fault>
    requires { Val (10 ^ 18) a }
    ensures { result ≡ div_of a b }
{
    if b == 0 {
        return Err(Fault::ZeroDivisor);
    }
    Ok(a / b)
}

// The number without its last k digits, half rounded up in magnitude; 26 where k is no count.
pub fn round(v: i64, k: i64) -> Result<i64, Fault>
    requires { Val (10 ^ 18) v }
    ensures { result ≡ round_of v k }
{
    if k < 0 || 18 < k {
        return Err(Fault::RoundCount);
    }
    let p = power(k as usize);
    Ok(with_sign(is_neg(v), (magnitude(v) + p / 2) / p))
}

// The number with the other sign.
pub fn negate(v: i64) -> i64
    requires { Val (10 ^ 18) v }
    ensures { result ≡ neg_ℤ v }
{
    -v
}

// EQ: 1 or 0, as each of those below.
pub fn equal(a: i64, b: i64) -> i64
    ensures { result ≡ eq_of a b }
{
    i64::from(a == b)
}

// NE.
pub fn differ(a: i64, b: i64) -> i64
    ensures { result ≡ ne_of a b }
{
    i64::from(a != b)
}

// GT.
pub fn greater(a: i64, b: i64) -> i64
    ensures { result ≡ gt_of a b }
{
    less(b, a)
}

// LT.
pub fn less(a: i64, b: i64) -> i64
    ensures { result ≡ lt_of a b }
{
    i64::from(a < b)
}

// GE.
pub fn at_least(a: i64, b: i64) -> i64
    ensures { result ≡ ge_of a b }
{
    at_most(b, a)
}

// LE.
pub fn at_most(a: i64, b: i64) -> i64
    ensures { result ≡ le_of a b }
{
    i64::from(a <= b)
}

// NOT: nonzero is true, as for each of those below.
pub fn not_of(a: i64) -> i64
    ensures { result ≡ not_of a }
{
    i64::from(a == 0)
}

// AND.
pub fn and_of(a: i64, b: i64) -> i64
    ensures { result ≡ and_of a b }
{
    i64::from(a != 0 && b != 0)
}

// OR.
pub fn or_of(a: i64, b: i64) -> i64
    ensures { result ≡ or_of a b }
{
    i64::from(a != 0 || b != 0)
}

// XOR.
pub fn xor_of(a: i64, b: i64) -> i64
    ensures { result ≡ xor_of a b }
{
    i64::from((a == 0) != (b == 0))
}
