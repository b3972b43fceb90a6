// Edit masks: a number formatted by a mask.
#![tactic(auto)]

ghost use Rattle.std.specs.Prelude.{◌≡◌, ◌+◌, ◌-◌, ◌^◌, ◌<◌, nat_abs, length};
ghost use Rattle.rules.specs.Values.{Val, is_neg};
ghost use Rattle.rules.specs.Masks.{plain_by, more_by, tallied, tally_of, last_digits, blankb, negativeb, picture_by, sight_by, skipped, spot_from, spot_of, edit_from, plan_of, finished, rightmost, formatted};

use number::Tens;
use rules::{Picture, Plan, Sight, Tally};

// One more where it is so.
fn more_if(yes: bool, n: usize) -> usize
    requires { n + 1 < 2 ^ 64 }
    ensures { result ≡ more_by yes n }
{
    n + usize::from(yes)
}

// Whether a digit place is an X, here or to the right.
fn is_plain(c: u8, t: Tally) -> bool
    ensures { result ≡ plain_by c t }
{
    c == b'X' && t.moneys == 0 || t.plain
}

// What a mask holds that has one character more at the left.
fn add_to(c: u8, t: Tally) -> Tally
    requires moneys_bound { t.moneys + 1 < 2 ^ 64 }
    requires places_bound { t.places + 1 < 2 ^ 64 }
    ensures { result ≡ tallied c t }
{
    let moneys = more_if(c == b'$', t.moneys);
    let places = more_if(run_characters::is_place(c, t.moneys), t.places);
    let plain = is_plain(c, t);
    Tally {
        moneys,
        places,
        plain,
    }
}

// What a mask holds, from the right.
fn tally(m: &[u8]) -> Tally
    ensures { result ≡ tally_of m.now }
{
    let mut t = Tally {
        moneys: 0,
        places: 0,
        plain: false,
    };
    for i in (0..m.len()).rev() {
        t = add_to(m[i], t);
    }
    t
}

// The last n digits of a number.
fn last_digits(tens: &Tens, m: u64, n: usize) -> u64
    requires { m < 10 ^ 18 }
    ensures { result ≡ last_digits m n }
{
    if 18 < n { m } else { m % tens.power(n) }
}

// Whether the digits left are all 0 and no digit place is an X.
fn is_blank(t: Tally, left: u64) -> bool
    ensures { result ≡ blankb t left }
{
    0 < t.places && left == 0 && !t.plain
}

// Whether the digits left have a sign.
fn is_negative(neg: bool, left: u64) -> bool
    ensures { result ≡ negativeb neg left }
{
    neg && 0 < left
}

// A number under a mask that holds so much and is so long.
fn picture_by(tens: &Tens, held: Tally, size: usize, neg: bool, m: u64) -> Picture
    requires { m < 10 ^ 18 }
    ensures { result ≡ picture_by held size neg (last_digits m held.places) }
{
    let left = last_digits(tens, m, held.places);
    let negative = is_negative(neg, left);
    let blank = is_blank(held, left);
    Picture {
        size,
        moneys: held.moneys,
        digits: left,
        negative,
        blank,
    }
}

// The same, of a signed number.
fn picture(tens: &Tens, held: Tally, size: usize, v: i64) -> Picture
    requires { Val (10 ^ 18) v }
    ensures { result ≡ picture_by held size (is_neg v) (last_digits (nat_abs v) held.places) }
{
    picture_by(tens, held, size, number::is_neg(v), number::magnitude(v))
}

// What stands around the first character of a mask.
fn first_sight(held: Tally, size: usize) -> Sight
    ensures { result ≡ sight_by held size }
{
    Sight {
        left: size,
        places: held.places,
        moneys: held.moneys,
        lead: b' ',
        significant: false,
    }
}

// What stands around the first character that is kept.
fn skip(tens: &Tens, p: Picture, first: Sight, m: &[u8]) -> Sight
    requires { p.digits < 10 ^ 18 }
    ensures { result ≡ skipped p first m.now }
{
    let mut w = first;
    for c in m {
        let k = run_characters::class_of(p, w, *c);
        w = run_characters::next_sight(tens, p, w, *c, k);
    }
    w
}

// The last place that the money sign may take.
fn last_spot(tens: &Tens, p: Picture, first: Sight, m: &[u8]) -> usize
    requires { p.digits < 10 ^ 18 }
    ensures { result ≡ spot_from p 0 first m.now }
{
    let mut w = first;
    let mut at = 0;
    for c in m {
        let k = run_characters::class_of(p, w, *c);
        let n = run_characters::next_sight(tens, p, w, *c, k);
        if run_characters::is_money(n, k) {
            at = w.left;
        }
        w = n;
    }
    at
}

// Where the money sign is shown, 0 where it is not. A mask without one is not looked through for its place.
fn spot(tens: &Tens, p: Picture, first: Sight, m: &[u8]) -> usize
    requires digits_bound { p.digits < 10 ^ 18 }
    requires moneys_value { (p.moneys ≡ (tally_of m.now).moneys) × (first.lead ≡ 32) }
    ensures { result ≡ spot_of p first m.now }
{
    if p.blank || p.moneys == 0 {
        0
    } else {
        last_spot(tens, p, first, m)
    }
}

// Edits a mask where it stands: each character is shown by the rule.
fn edit(tens: &Tens, p: Picture, spot: usize, first: Sight, s: &mut [u8])
    requires { p.digits < 10 ^ 18 }
    ensures { s.new ≡ edit_from p spot first s.old }
{
    let mut w = first;
    for c in s.iter_mut() {
        let k = run_characters::class_of(p, w, *c);
        let n = run_characters::next_sight(tens, p, w, *c, k);
        *c = run_characters::character_by(tens, p, spot, w, n, *c, k);
        w = n;
    }
}

// What is read of a mask before n characters are edited where they stand.
pub fn plan(tens: &Tens, n: usize, m: &[u8], v: i64) -> Plan
    requires { Val (10 ^ 18) v }
    ensures { result ≡ plan_of n m.now v }
{
    let held = tally(m);
    let size = m.len();
    let p = picture(tens, held, size, v);
    let w = first_sight(held, size);
    let cut = size.saturating_sub(n);
    let at = spot(tens, p, w, m);
    let first = skip(tens, p, w, &m[0..cut]);
    Plan {
        picture: p,
        spot: at,
        first,
    }
}

// Edits a destination whose right end holds the mask's last characters.
pub fn finish(tens: &Tens, g: Plan, s: &mut [u8])
    requires { g.picture.digits < 10 ^ 18 }
    ensures { s.new ≡ finished g s.old }
{
    let n = s.len();
    let gap = n.saturating_sub(g.picture.size);
    edit(tens, g.picture, g.spot, g.first, &mut s[gap..n])
}

// Lays a mask at the right end of a destination, with spaces before it.
fn lay(s: &mut [u8], m: &[u8])
    ensures { s.new ≡ rightmost (length s.old) m.now }
{
    let n = s.len();
    let size = m.len();
    let gap = n.saturating_sub(size);
    let cut = size.saturating_sub(n);
    alpha::fill(&mut s[0..gap], b' ');
    alpha::fit(&mut s[gap..n], &m[cut..size])
}

// A number formatted by a mask that lies elsewhere.
pub fn format(s: &mut [u8], m: &[u8], v: i64)
    requires { Val (10 ^ 18) v }
    ensures { s.new ≡ formatted (length s.old) m.now v }
{
    let tens = Tens::new();
    let g = plan(&tens, s.len(), m, v);
    lay(s, m);
    finish(&tens, g, s)
}
