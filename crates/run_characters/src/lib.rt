// One character of an edit mask: what it is, and what is shown for it.
#![tactic(auto)]

ghost use Rattle.std.specs.Prelude.{◌≡◌, ◌+◌, ◌-◌, ◌^◌, ◌<◌, cond};
ghost use Rattle.rules.specs.Masks.{placeb, less_by, moneys_right, edgeb, commab, class_by, class_of, digit_of, begins_by, place_begins, significant_by, holds_digit, lead_by, sighted_by, can_be_money, money_by, fill_by, visible_by, character_by};

use number::Tens;
use rules::{Class, Picture, Sight};

// One less where it is so, and 0 for none.
fn less_if(yes: bool, n: usize) -> usize
    ensures { result ≡ less_by yes n }
{
    n.saturating_sub(usize::from(yes))
}

// Whether a character is a digit place, with so many money signs to its right.
pub fn is_place(c: u8, right: usize) -> bool
    ensures { result ≡ placeb c right }
{
    c == b'$' || right == 0 && matches!(c, b'X' | b'Z' | b'*')
}

// The money signs to the right of a character.
fn moneys_right(w: Sight, c: u8) -> usize
    ensures { result ≡ moneys_right w c }
{
    less_if(c == b'$', w.moneys)
}

// Whether a character is the first or the last of its mask.
fn is_edge(p: Picture, w: Sight) -> bool
    ensures { result ≡ edgeb p w }
{
    w.left == p.size || w.left == 1
}

// Whether a comma waits for digits.
fn is_comma(p: Picture, w: Sight, right: usize) -> bool
    ensures { result ≡ commab p w right }
{
    right == 0 || w.moneys < p.moneys
}

// What a character of a mask is: the first row that fits counts.
fn class_by(p: Picture, w: Sight, c: u8, right: usize) -> Class
    ensures { result ≡ class_by p w c right }
{
    if c == b'-' && is_edge(p, w) {
        Class::Sign
    } else if is_place(c, right) {
        Class::Place
    } else if c == b',' && is_comma(p, w, right) {
        Class::Comma
    } else if c == b'.' && right == 0 {
        Class::Point
    } else {
        Class::Mark
    }
}

// The same, where w stands around it.
pub fn class_of(p: Picture, w: Sight, c: u8) -> Class
    ensures { result ≡ class_of p w c }
{
    class_by(p, w, c, moneys_right(w, c))
}

// The digit of the first of the digit places from here on.
fn digit_of(tens: &Tens, p: Picture, w: Sight) -> u64
    requires { p.digits < 10 ^ 18 }
    ensures value { result ≡ digit_of p w }
    ensures small { result < 10 }
{
    let q = w.places.saturating_sub(1);
    if 18 < q {
        return 0;
    }
    tens.digit(p.digits, q)
}

// Whether significance begins at a digit place.
fn begins_place(tens: &Tens, p: Picture, w: Sight, c: u8) -> bool
    requires { p.digits < 10 ^ 18 }
    ensures { result ≡ place_begins p w c }
{
    c == b'X' || 0 < digit_of(tens, p, w)
}

// Whether significance begins at a character of the class given.
fn begins(tens: &Tens, p: Picture, w: Sight, c: u8, k: Class) -> bool
    requires { p.digits < 10 ^ 18 }
    ensures { result ≡ begins_by p w c k }
{
    match k {
        Class::Place => begins_place(tens, p, w, c),
        Class::Point => !p.blank,
        Class::Comma | Class::Sign | Class::Mark => false,
    }
}

// Whether it has begun there.
fn is_significant(tens: &Tens, p: Picture, w: Sight, c: u8, k: Class) -> bool
    requires { p.digits < 10 ^ 18 }
    ensures { result ≡ significant_by p w c k }
{
    w.significant || begins(tens, p, w, c, k)
}

// Whether a class is a digit place.
fn holds_digit(k: Class) -> bool
    ensures { result ≡ holds_digit k }
{
    matches!(k, Class::Place)
}

// The digit place met last.
fn lead_of(place: bool, w: Sight, c: u8) -> u8
    ensures { result ≡ lead_by place w c }
{
    if place { c } else { w.lead }
}

// What stands around the character after c, whose class is k.
pub fn next_sight(tens: &Tens, p: Picture, w: Sight, c: u8, k: Class) -> Sight
    requires { p.digits < 10 ^ 18 }
    ensures { result ≡ sighted_by p w c k }
{
    let place = holds_digit(k);
    let left = w.left.saturating_sub(1);
    let places = less_if(place, w.places);
    let moneys = moneys_right(w, c);
    let lead = lead_of(place, w, c);
    let significant = is_significant(tens, p, w, c, k);
    Sight {
        left,
        places,
        moneys,
        lead,
        significant,
    }
}

// Whether the money sign may take the place of a character of the class given.
fn can_be_money(k: Class) -> bool
    ensures { result ≡ can_be_money k }
{
    matches!(k, Class::Place | Class::Comma)
}

// Whether it may take this one, after which n stands.
pub fn is_money(n: Sight, k: Class) -> bool
    ensures { result ≡ money_by n k }
{
    can_be_money(k) && !n.significant && n.lead == b'$'
}

// What is shown where no digit has come yet.
fn fill_of(spot: usize, w: Sight, n: Sight) -> u8
    ensures { result ≡ fill_by spot w n }
{
    if n.lead == b'*' {
        b'*'
    } else if w.left == spot {
        b'$'
    } else {
        b' '
    }
}

// x, or what is shown where no digit has come yet.
fn visible(spot: usize, w: Sight, n: Sight, x: u8) -> u8
    ensures { result ≡ visible_by spot w n x }
{
    if n.significant {
        x
    } else {
        fill_of(spot, w, n)
    }
}

// What a digit place shows.
fn place_character(tens: &Tens, p: Picture, spot: usize, w: Sight, n: Sight) -> u8
    requires { p.digits < 10 ^ 18 }
    ensures { result ≡ visible_by spot w n (48 + digit_of p w) }
{
    if n.significant {
        (48 + digit_of(tens, p, w)) as u8
    } else {
        fill_of(spot, w, n)
    }
}

// What the place of the sign shows.
fn sign_character(negative: bool) -> u8
    ensures { result ≡ cond negative 45 32 }
{
    if negative { b'-' } else { b' ' }
}

// The character that is shown for c, of class k, after which n stands: the one rule.
pub fn character_by(tens: &Tens, p: Picture, spot: usize, w: Sight, n: Sight, c: u8, k: Class) -> u8
    requires { p.digits < 10 ^ 18 }
    ensures { result ≡ character_by p spot w n c k }
{
    match k {
        Class::Place => place_character(tens, p, spot, w, n),
        Class::Point | Class::Comma => visible(spot, w, n, c),
        Class::Sign => sign_character(p.negative),
        Class::Mark => c,
    }
}
