// The fence check: whether every statement of a unit keeps the fence rules, and which rule a statement breaks first.
#![tactic(auto)]

ghost use Rattle.std.specs.Prelude.{◌≡◌, ◌<◌, Ok};
ghost use Rattle.unit_decode.specs.Units.{code_in, RowsIn};
ghost use Rattle.rules_unit.specs.Checks.{check_of};
ghost use Rattle.rules_fence.specs.Breaches.{breach_of, verdict_from, fence_of, breach_by, breach_in};
ghost use Rattle.fence_decimals.specs.Ahead.{Ahead};
ghost use Rattle.fence_statements.specs.Notes.{Both};

use rules_fence::{Breach, Verdict};
use rules_unit::Parts;
use unit_decode::Coded;

// Yes, or no with the first statement that breaks a rule, of a unit that passed its check.
fn verdict_by(
    coded: &Coded,
    ahead: &[u16],
    reads: &mut [u8],
    writes: &mut [u8],
    rows: &mut [u16],
) -> Verdict
    requires unit_value { check_of coded.now.unit.now ≡ Ok coded.now.parts }
    requires ahead { Ahead (code_in coded.now) ahead.now }
    requires both { Both coded.now reads.old writes.old }
    requires rows_of { RowsIn coded.now rows.old }
    ensures { result ≡ verdict_from (code_in coded.now) coded.now.parts.n 0 }
{
    for i in 0..coded.parts.n {
        let b = fence_statements::breach_of(coded, ahead, reads, writes, rows, i);
        if !fence_statements::keeps(b) {
            return Verdict::No(i);
        }
    }
    Verdict::Yes
}

// The same, where nothing is noted yet. The data of a unit and its expressions have at most 16,383 bytes each.
fn verdict_of(coded: &Coded) -> Verdict
    requires { check_of coded.now.unit.now ≡ Ok coded.now.parts }
    ensures { result ≡ verdict_from (code_in coded.now) coded.now.parts.n 0 }
{
    let mut ahead = [65535u16; 16384];
    let mut reads = [0u8; 16384];
    let mut writes = [0u8; 16384];
    let mut rows = [0u16; 16384];
    fence_decimals::note_decimals(coded, &mut ahead);
    verdict_by(coded, &ahead, &mut reads, &mut writes, &mut rows)
}

// The fence check of a unit: a refusal of its check, yes, or no with the first statement that breaks a rule.
pub fn fence(unit: &[u8]) -> Verdict
    ensures { result ≡ fence_of unit.now }
{
    let answer = unit_check::check(unit);
    match answer {
        Ok(parts) => verdict_of(&Coded {
            unit,
            parts,
            tail: unit_decode::tail_of(unit, parts),
        }),
        Err(r) => Verdict::Refused(r),
    }
}

// The breach of the statement i of a unit that passed its check. One statement needs no notes of others.
fn breach_alone(coded: &Coded, i: u16) -> Breach
    requires unit_value { check_of coded.now.unit.now ≡ Ok coded.now.parts }
    requires i_lt_n { i < coded.now.parts.n }
    ensures { result ≡ breach_of (code_in coded.now) i }
{
    let mut ahead = [65535u16; 16384];
    let mut reads = [0u8; 1];
    let mut writes = [0u8; 1];
    let mut rows = [0u16; 1];
    fence_decimals::note_decimals(coded, &mut ahead);
    fence_statements::breach_of(coded, &ahead, &mut reads, &mut writes, &mut rows, i)
}

// The same of any number; none where there is no such statement.
fn breach_by(coded: &Coded, i: usize) -> Breach
    requires { check_of coded.now.unit.now ≡ Ok coded.now.parts }
    ensures { result ≡ breach_by coded.now.unit.now i (Ok coded.now.parts) }
{
    if usize::from(coded.parts.n) <= i {
        return Breach::None;
    }
    breach_alone(coded, i as u16)
}

// The rule that the statement i breaks first; none where the unit is refused or has no such statement.
pub fn breach(unit: &[u8], i: usize) -> Breach
    ensures { result ≡ breach_in unit.now i }
{
    let answer = unit_check::check(unit);
    match answer {
        Ok(parts) => breach_by(
            &Coded {
                unit,
                parts,
                tail: unit_decode::tail_of(unit, parts),
            },
            i,
        ),
        Err(_) => Breach::None,
    }
}
