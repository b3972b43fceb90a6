// The public face for C as a static library: exports each function of `dibol_c` under the same name, with the same contract. The comments of `dibol_c` describe
// the functions.
#![tactic(auto)]

ghost use Rattle.std.specs.Prelude.{◌≡◌};
ghost use Rattle.rules_unit.specs.Checks.{check_of};
ghost use Rattle.rules_unit.specs.Literals.{stretch_of};
ghost use Rattle.rules_fence.specs.Breaches.{breach_number, fence_of, breach_in};
ghost use Rattle.rules_fence.specs.Listed.{breaches_of, Listed, listed};
ghost use Rattle.rules_fence.specs.Validity.{validity_of};
ghost use Rattle.rules_host.specs.Words.{Said, said_of, breach_said};
ghost use Rattle.rules_host.specs.Calls.{Told, check_told, fence_told, literal_told, entry_of, parts_told, field_told, invalid_told, Handed, handed_of};

// Runs a unit over a data buffer.
#[unsafe(no_mangle)]
pub extern "C" fn dibol_run(
    unit: &[u8],
    bytes: &mut [u8],
    state: &mut [u64],
    allowance: u64,
    answer: &mut [u64],
) -> u64
    ensures { ◌≡◌ {A = Handed} (record { stop = result; bytes = bytes.new; state = state.new; answer = answer.new }) (handed_of unit.now bytes.old state.old allowance answer.old) }
{
    dibol_c::dibol_run(unit, bytes, state, allowance, answer)
}

// Checks a unit by the rules 1 to 5.
#[unsafe(no_mangle)]
pub extern "C" fn dibol_check(unit: &[u8], answer: &mut [u64]) -> u64
    ensures { ◌≡◌ {A = Told} (record { value = result; answer = answer.new }) (check_told (check_of unit.now) answer.old) }
{
    dibol_c::dibol_check(unit, answer)
}

// The lengths of a unit's parts.
#[unsafe(no_mangle)]
pub extern "C" fn dibol_parts(unit: &[u8], answer: &mut [u64]) -> u64
    ensures { ◌≡◌ {A = Told} (record { value = result; answer = answer.new }) (parts_told (check_of unit.now) answer.old) }
{
    dibol_c::dibol_parts(unit, answer)
}

// The field entry of a unit by its number.
#[unsafe(no_mangle)]
pub extern "C" fn dibol_field(unit: &[u8], i: usize, answer: &mut [u64]) -> u64
    ensures { ◌≡◌ {A = Told} (record { value = result; answer = answer.new }) (field_told (entry_of unit.now i) answer.old) }
{
    dibol_c::dibol_field(unit, i, answer)
}

// Whether the decimals of a data buffer are all valid.
#[unsafe(no_mangle)]
pub extern "C" fn dibol_invalid(unit: &[u8], bytes: &[u8], answer: &mut [u64]) -> u64
    ensures { ◌≡◌ {A = Told} (record { value = result; answer = answer.new }) (invalid_told unit.now (validity_of unit.now bytes.now) answer.old) }
{
    dibol_c::dibol_invalid(unit, bytes, answer)
}

// The fence check.
#[unsafe(no_mangle)]
pub extern "C" fn dibol_fence(unit: &[u8], answer: &mut [u64]) -> u64
    ensures { ◌≡◌ {A = Told} (record { value = result; answer = answer.new }) (fence_told unit.now (fence_of unit.now) answer.old) }
{
    dibol_c::dibol_fence(unit, answer)
}

// The number of the fence rule that a statement breaks first.
#[unsafe(no_mangle)]
pub extern "C" fn dibol_breach(unit: &[u8], statement: usize) -> u64
    ensures { result ≡ breach_number (breach_in unit.now statement) }
{
    dibol_c::dibol_breach(unit, statement)
}

// The references of a unit that break a fence rule, in rows of numbers.
#[unsafe(no_mangle)]
pub extern "C" fn dibol_breaches(unit: &[u8], skip: usize, rows: &mut [u64]) -> u64
    ensures { ◌≡◌ {A = Listed} (record { count = result; rows = rows.new }) (listed (breaches_of unit.now) skip rows.old) }
{
    dibol_c::dibol_breaches(unit, skip, rows)
}

// The words of a fence rule's number.
#[unsafe(no_mangle)]
pub extern "C" fn dibol_breach_words(rule: u64, text: &mut [u8]) -> u64
    ensures { ◌≡◌ {A = Said} (record { size = result; text = text.new }) (breach_said rule text.old) }
{
    dibol_c::dibol_breach_words(rule, text)
}

// Where a statement's alpha literal stands.
#[unsafe(no_mangle)]
pub extern "C" fn dibol_literal(unit: &[u8], statement: usize, answer: &mut [u64]) -> u64
    ensures { ◌≡◌ {A = Told} (record { value = result; answer = answer.new }) (literal_told (stretch_of unit.now statement) answer.old) }
{
    dibol_c::dibol_literal(unit, statement, answer)
}

// The words of a stop's number.
#[unsafe(no_mangle)]
pub extern "C" fn dibol_words(stop: u64, text: &mut [u8]) -> u64
    ensures { ◌≡◌ {A = Said} (record { size = result; text = text.new }) (said_of stop text.old) }
{
    dibol_c::dibol_words(stop, text)
}

// The version.
#[unsafe(no_mangle)]
pub extern "C" fn dibol_version() -> u64
    ensures { result ≡ 400 }
{
    dibol_c::dibol_version()
}

// How many numbers a resume state has.
#[unsafe(no_mangle)]
pub extern "C" fn dibol_state_len() -> u64
    ensures { result ≡ 104 }
{
    dibol_c::dibol_state_len()
}
