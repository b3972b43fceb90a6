// The stops of document 01 and the fence rules in words.
#![tactic(auto)]

ghost use Rattle.std.specs.Prelude.{◌≡◌};
ghost use Rattle.rules_host.specs.Words.{Said, said, said_of, breach_said};

// Puts a text at the front of another, as many of its bytes as fit, and answers its whole length.
fn put(from: &[u8], text: &mut [u8]) -> usize
    ensures { ◌≡◌ {A = Said} (record { size = result; text = text.new }) (said from.now text.old) }
{
    rules_host::lay(from, text);
    from.len()
}

// The words of a stop's number. The answer is their whole length, also where `text` is shorter; as many of their bytes as fit are
// written at the front of `text`, and the rest of it stays as it was. A number that is no stop has no words: the answer is 0.
pub fn words(stop: u64, text: &mut [u8]) -> usize
    ensures { ◌≡◌ {A = Said} (record { size = result; text = text.new }) (said_of stop text.old) }
{
    match stop {
        0 => put(b"The end was reached", text),
        1 => put(b"The length, the mark or the parts do not fit", text),
        2 => put(b"A part is outside its range", text),
        3 => put(b"A field entry breaks its rule", text),
        4 => put(b"An expression is badly formed or of the wrong sort", text),
        5 => put(
            b"A statement's code, zero part, count or target is wrong",
            text,
        ),
        6 => put(b"The data buffer does not have the unit's D bytes", text),
        7 => put(b"The resume state is unsound", text),
        20 => put(b"Arithmetic operand exceeds 18 digits", text),
        21 => put(b"Invalid subscript specified", text),
        22 => put(b"Bad digit encountered", text),
        23 => put(b"Attempt to divide by zero", text),
        24 => put(b"Calls nested to a depth greater than 50", text),
        25 => put(b"RETURN with no CALL or XCALL", text),
        26 => put(b"The rounding count is not 0 to 18", text),
        27 => put(b"The step of a loop is zero", text),
        28 => put(b"Loops nested to a depth greater than 16", text),
        29 => put(b"Loop end, EXITLOOP or NEXTLOOP with no loop open", text),
        30 => put(b"The allowance was spent before the end", text),
        _ => 0,
    }
}

// The words of a fence rule's number, put in the same way: what breaks it. A number that is no rule has no words: the answer is 0.
pub fn breach_words(rule: u64, text: &mut [u8]) -> usize
    ensures { ◌≡◌ {A = Said} (record { size = result; text = text.new }) (breach_said rule text.old) }
{
    match rule {
        1 => put(b"A bound is not a literal", text),
        2 => put(b"The bounds give 21", text),
        3 => put(b"A span leaves its field", text),
        4 => put(b"A decimal span is not in one element", text),
        5 => put(b"A decimal destination ends inside its element", text),
        6 => put(
            b"An alpha destination shares a byte with a decimal field",
            text,
        ),
        _ => 0,
    }
}
