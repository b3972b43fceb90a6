// The bytes that a reference would name whose bounds give 21, found from the bounds as they are written. They may lie before the data and behind it.
use crate::breaches::{Breaking, FenceRule, Form};
use crate::lines::Line;
use crate::parts::Unit;
use rules_unit::{Field, Item, Op};

// The greatest subscript whose bytes are told.
const SUBSCRIPT_MOST: usize = 60000;

// The last two bounds before an item.
#[derive(Clone, Copy, Default)]
struct Bounds {
    first: i64,
    last: i64,
}

// Why a reference names no bytes.
#[derive(Clone, Copy)]
pub enum Nowhere {
    NoStart,
    NoEnd,
    NoLength,
}

// Where a reference would be: where its bytes start, as an offset and what is to be taken from it, and how many they are; too far off to be told; or at no bytes.
#[derive(Clone, Copy)]
pub enum Aim {
    Near {
        from: usize,
        back: usize,
        len: usize,
    },
    FarBefore,
    FarBehind,
    Nowhere(Nowhere),
}

// ---- bounds

// The bounds after an item. A bound that is written is a number, or one and a negate.
fn bounds_after(b: Bounds, unit: Unit<'_>, item: Item) -> Bounds {
    match item {
        Item::Number { place, len } => {
            let number = unit.number(unit.literal(place, len));
            Bounds {
                first: b.last,
                last: number.unwrap_or(0).saturating_abs(),
            }
        }
        Item::Operator(_) => Bounds {
            first: b.first,
            last: b.last.saturating_abs().saturating_neg(),
        },
        Item::Reference { .. } | Item::Text { .. } | Item::End | Item::Bad => b,
    }
}

// The bounds of the reference at an offset of the expressions, the first of which starts at another.
fn bounds_of(unit: Unit<'_>, from: u16, to: u16) -> Bounds {
    let items = unit.items(usize::from(from));
    let before = items.take_while(|(at, _)| *at < usize::from(to));
    before.fold(Bounds::default(), |b, (_, item)| {
        bounds_after(b, unit, item)
    })
}

// ---- bytes

// How far off a bound is from 0.
fn size_of(bound: i64) -> usize {
    bound.unsigned_abs() as usize
}

// Where the element s of a field would be.
fn subscript_aim(field: Field, s: i64) -> Aim {
    let offset = usize::from(field.offset);
    let len = usize::from(field.size);
    let k = size_of(s);
    if SUBSCRIPT_MOST < k {
        return if s < 0 {
            Aim::FarBefore
        } else {
            Aim::FarBehind
        };
    }
    if s < 1 {
        return Aim::Near {
            from: offset,
            back: len.saturating_mul(k.saturating_add(1)),
            len,
        };
    }
    let before = len.saturating_mul(k.saturating_sub(1));
    Aim::Near {
        from: offset.saturating_add(before),
        back: 0,
        len,
    }
}

// Where the bytes from a start to an end would be. The first place in a field is 1.
fn start_end_aim(field: Field, start: i64, end: i64) -> Aim {
    if start < 1 {
        return Aim::Nowhere(Nowhere::NoStart);
    }
    if end < start {
        return Aim::Nowhere(Nowhere::NoEnd);
    }
    let before = size_of(start).saturating_sub(1);
    Aim::Near {
        from: usize::from(field.offset).saturating_add(before),
        back: 0,
        len: size_of(end).saturating_sub(before),
    }
}

// Where so many bytes from a position on would be, or those that end there.
fn pos_length_aim(field: Field, pos: i64, len: i64) -> Aim {
    if pos < 1 {
        return Aim::Nowhere(Nowhere::NoStart);
    }
    if len == 0 {
        return Aim::Nowhere(Nowhere::NoLength);
    }
    let end = usize::from(field.offset).saturating_add(size_of(pos));
    if len < 0 {
        return Aim::Near {
            from: end,
            back: size_of(len),
            len: size_of(len),
        };
    }
    Aim::Near {
        from: end.saturating_sub(1),
        back: 0,
        len: size_of(len),
    }
}

// Where a reference to a field would be.
pub fn aim_of(unit: Unit<'_>, field: Field, r: Breaking) -> Aim {
    let Bounds { first, last } = bounds_of(unit, r.from, r.at);
    match r.form {
        Form::Subscript => subscript_aim(field, last),
        Form::StartEnd => start_end_aim(field, first, last),
        Form::First | Form::PosLength => pos_length_aim(field, first, last),
    }
}

// ---- whether the bounds are those of the reference

// Whether each bound between two offsets of the expressions is a number, or one and a negate.
fn is_written(unit: Unit<'_>, from: u16, to: u16) -> bool {
    let items = unit.items(usize::from(from));
    let mut before = items.take_while(|(at, _)| *at < usize::from(to));
    let last = before.try_fold(false, |is_number, (_, item)| match item {
        Item::Number { .. } => Some(true),
        Item::Operator(Op::Negate) if is_number => Some(false),
        _ => None,
    });
    last.is_some()
}

// Whether the bytes that bounds give are those of a reference.
fn is_at(aim: Aim, r: Breaking) -> bool {
    match aim {
        Aim::Near { from, back, len } => {
            from == usize::from(r.start).saturating_add(back) && len == usize::from(r.len)
        }
        Aim::FarBefore | Aim::FarBehind | Aim::Nowhere(_) => false,
    }
}

// Whether the bounds from the offset `from` of a reference on are its own. Expressions that overlap may come to one reference by other bounds.
pub fn is_bounded(unit: Unit<'_>, field: Field, r: Breaking) -> bool {
    let written = is_written(unit, r.from, r.at);
    match r.rule {
        FenceRule::BoundNotLiteral => !written,
        FenceRule::BoundsWrong => written,
        _ => written && (r.form == Form::First || is_at(aim_of(unit, field, r), r)),
    }
}

// ---- text

// Puts one number less another.
fn put_less(l: &mut Line, a: usize, b: usize) {
    if a < b {
        write!(l, "-{}", b - a);
    } else {
        write!(l, "{}", a - b);
    }
}

// Puts where bytes would be.
fn put_near(l: &mut Line, from: usize, back: usize, len: usize) {
    if len < 2 {
        l.text(b"would be byte ");
        put_less(l, from, back);
    } else {
        l.text(b"would be bytes ");
        put_less(l, from, back);
        l.text(b" to ");
        put_less(l, from.saturating_add(len - 1), back);
    }
}

// Puts where a reference would be.
pub fn put_aim(l: &mut Line, aim: Aim) {
    match aim {
        Aim::Near { from, back, len } => put_near(l, from, back, len),
        Aim::FarBefore => l.text(b"would be far before the data"),
        Aim::FarBehind => l.text(b"would be far behind the data"),
        Aim::Nowhere(why) => {
            l.text(b"names no bytes: ");
            l.text(match why {
                Nowhere::NoStart => b"its first bound is below 1",
                Nowhere::NoEnd => b"it ends before it starts",
                Nowhere::NoLength => b"its length is 0",
            });
        }
    }
}
