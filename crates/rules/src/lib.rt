// The types that the written rules of document 01 speak of. The rules themselves stand in specs/.
#![tactic(auto)]

ghost use Rattle.std.specs.Prelude.{◌≡◌};
ghost use Rattle.rules.specs.Stops.{fault_number, trappedb};

// Why a statement is not completed.
#[derive(Clone, Copy)]
pub enum Fault {
    // An expression that no passed check lets arise.
    Malformed,
    // More digits than the dialect allows.
    TooLong,
    // A subscript or a substring that is not there.
    Outside,
    // A character that is no digit where one must stand.
    BadDigit,
    // A zero divisor.
    ZeroDivisor,
    // CALL with all calls open.
    CallsFull,
    // RETURN with none open.
    NoCall,
    // A rounding count outside its range.
    RoundCount,
    // FOR with a step of zero.
    ZeroStep,
    // FOR with all loops open.
    LoopsFull,
    // A loop end, EXITLOOP or NEXTLOOP with none open.
    NoLoop,
}

// The papers' number for a fault.
pub fn fault_number(f: Fault) -> u8
    ensures { result ≡ fault_number f }
{
    match f {
        Fault::Malformed => 4,
        Fault::TooLong => 20,
        Fault::Outside => 21,
        Fault::BadDigit => 22,
        Fault::ZeroDivisor => 23,
        Fault::CallsFull => 24,
        Fault::NoCall => 25,
        Fault::RoundCount => 26,
        Fault::ZeroStep => 27,
        Fault::LoopsFull => 28,
        Fault::NoLoop => 29,
    }
}

// Whether a number is that of an error that a handler traps.
pub fn trapped(number: u8) -> bool
    ensures { result ≡ trappedb number }
{
    matches!(number, 20..=23 | 26)
}

// What a character of an edit mask is.
#[derive(Clone, Copy)]
pub enum Class {
    // A digit place.
    Place,
    // A decimal point.
    Point,
    // A comma that waits for digits.
    Comma,
    // The place of the sign.
    Sign,
    // A fixed mark.
    Mark,
}

// What a mask holds.
#[derive(Clone, Copy)]
pub struct Tally {
    // Its money signs.
    pub moneys: usize,
    // Its digit places.
    pub places: usize,
    // Whether one of these is an X.
    pub plain: bool,
}

// A number under a mask: what holds of the whole mask.
#[derive(Clone, Copy)]
pub struct Picture {
    // The mask's length.
    pub size: usize,
    // Its money signs.
    pub moneys: usize,
    // The digits left of the number: as many as it has digit places.
    pub digits: u64,
    // The digits left are not all 0, and the number is below 0.
    pub negative: bool,
    // The digits left are all 0, and there is a digit place and none is an X.
    pub blank: bool,
}

// What stands around a character of a mask.
#[derive(Clone, Copy)]
pub struct Sight {
    // The characters from here on.
    pub left: usize,
    // The digit places from here on.
    pub places: usize,
    // The money signs from here on.
    pub moneys: usize,
    // The digit place met last; a space before the first.
    pub lead: u8,
    // Whether significance has begun.
    pub significant: bool,
}

// What is read of a mask before its last characters are edited where they stand.
#[derive(Clone, Copy)]
pub struct Plan {
    // The number under the mask.
    pub picture: Picture,
    // Where the money sign is shown, 0 where it is not.
    pub spot: usize,
    // What stands around the first of the characters kept.
    pub first: Sight,
}
