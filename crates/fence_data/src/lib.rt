// Whether the decimals of a data buffer are all valid for a unit: what a yes of the fence check is about.
#![tactic(auto)]

ghost use Rattle.std.specs.Prelude.{◌≡◌, true, ◌<◌, length, Ok};
ghost use Rattle.unit_decode.specs.Units.{code_in};
ghost use Rattle.rules.specs.Values.{Limit, Letters, validb};
ghost use Rattle.rules_unit.specs.Codes.{count_of};
ghost use Rattle.rules_unit.specs.Checks.{check_of};
ghost use Rattle.rules_fence.specs.Validity.{allb, elementb, elements_from, field_validity, fields_from, validity_by, validity_of};

use rules_fence::Validity;
use rules_unit::Parts;
use unit_decode::Coded;

// Whether a decimal is valid: it reads as a number.
fn is_valid(limit: usize, sign: u64, s: &[u8]) -> bool
    requires limit { Limit limit }
    requires letters { Letters sign }
    ensures { result ≡ validb limit sign s.now }
{
    match text::read(limit, sign, s) {
        Ok(_) => true,
        Err(_) => false,
    }
}

// Whether the element k of a field, from 0, is valid.
fn element_valid(coded: &Coded, bytes: &[u8], f: u16, k: u16) -> bool
    requires unit_value { check_of coded.now.unit.now ≡ Ok coded.now.parts }
    requires bytes_len { length bytes.now ≡ coded.now.parts.d }
    requires f_lt_f { f < coded.now.parts.f }
    requires k_bound { k < count_of (code_in coded.now) f }
    ensures { result ≡ elementb (code_in coded.now) bytes.now f k }
{
    let entry = coded.field(f);
    let size = usize::from(entry.size);
    let start = usize::from(entry.offset) + usize::from(k) * size;
    let end = start + size;
    let limit = usize::from(coded.parts.dialect.limit);
    is_valid(limit, coded.parts.dialect.sign as u64, &bytes[start..end])
}

// The first element of a decimal field that is not valid.
fn elements_validity(coded: &Coded, bytes: &[u8], f: u16) -> Validity
    requires unit_value { check_of coded.now.unit.now ≡ Ok coded.now.parts }
    requires bytes_len { length bytes.now ≡ coded.now.parts.d }
    requires f_lt_f { f < coded.now.parts.f }
    ensures { result ≡ elements_from (code_in coded.now) bytes.now f (count_of (code_in coded.now) f) 0 }
{
    let entry = coded.field(f);
    for k in 0..entry.count {
        if !element_valid(coded, bytes, f, k) {
            return Validity::Invalid {
                field: f,
                element: k + 1,
            };
        }
    }
    Validity::AllValid
}

// The same of any field: of an alpha or record entry nothing is asked.
fn field_validity(coded: &Coded, bytes: &[u8], f: u16) -> Validity
    requires unit_value { check_of coded.now.unit.now ≡ Ok coded.now.parts }
    requires bytes_len { length bytes.now ≡ coded.now.parts.d }
    requires f_lt_f { f < coded.now.parts.f }
    ensures { result ≡ field_validity (code_in coded.now) bytes.now f }
{
    let entry = coded.field(f);
    let kind = entry.kind;
    if unit_decode::is_decimal(kind) {
        return elements_validity(coded, bytes, f);
    }
    Validity::AllValid
}

// Whether an answer is that all are valid.
fn is_all(v: Validity) -> bool
    ensures { result ≡ allb v }
{
    matches!(v, Validity::AllValid)
}

// The first element of a unit's decimal fields that is not valid, in data of its size.
fn fields_validity(coded: &Coded, bytes: &[u8]) -> Validity
    requires unit_value { check_of coded.now.unit.now ≡ Ok coded.now.parts }
    requires bytes_len { length bytes.now ≡ coded.now.parts.d }
    ensures { result ≡ fields_from (code_in coded.now) bytes.now coded.now.parts.f 0 }
{
    for f in 0..coded.parts.f {
        let v = field_validity(coded, bytes, f);
        if !is_all(v) {
            return v;
        }
    }
    Validity::AllValid
}

// The same of data of any size.
fn validity_by(coded: &Coded, bytes: &[u8]) -> Validity
    requires { check_of coded.now.unit.now ≡ Ok coded.now.parts }
    ensures { result ≡ validity_by coded.now.unit.now bytes.now (Ok coded.now.parts) }
{
    if bytes.len() != usize::from(coded.parts.d) {
        return Validity::WrongSize;
    }
    fields_validity(coded, bytes)
}

// What is to be said of a data buffer for a unit: a refusal of the unit's check, that the buffer has not its D bytes, that every element of every decimal field is
// valid, or the first that is not, by its field and then from 1.
pub fn invalid(unit: &[u8], bytes: &[u8]) -> Validity
    ensures { result ≡ validity_of unit.now bytes.now }
{
    let answer = unit_check::check(unit);
    match answer {
        Ok(parts) => validity_by(
            &Coded {
                unit,
                parts,
                tail: unit_decode::tail_of(unit, parts),
            },
            bytes,
        ),
        Err(r) => Validity::Refused(r),
    }
}
