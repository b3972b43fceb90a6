// A unit that its parts fill.

ghost use Rattle.std.specs.Prelude.{◌≡◌, drop};
ghost use Rattle.rules_unit.specs.Decode.{Fills, statements_at};
ghost use Rattle.unit_decode.specs.Words.{Words};

use rules_unit::Parts;

// A unit, the parts that fill it, and its tail, which is the unit from its first statement on: where it starts, added up at each statement of a run, took 6
// instructions more.
#[derive(Clone, Copy)]
pub struct Coded<'a> {
    pub unit: &'a [u8],
    pub parts: Parts,
    pub tail: &'a [u8],
    ghost fills: { Fills unit.now parts },
    ghost words: { Words parts },
    ghost starts: { tail.now ≡ drop (statements_at parts) unit.now },
}
