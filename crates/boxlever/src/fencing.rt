// `boxlever fence FILE`: the answer of the fence check; then each reference that breaks a rule, once, with the bytes that it is about, a picture of them, and how the
// breach is mended.
use crate::bounds::{Aim, aim_of, put_aim};
use crate::breaches::{
    Breaking, FenceRule, Form, KEPT_MOST, Kept, PAGE_ROOM, Tally, put_reference, tally_of,
};
use crate::fields::{is_strict, len_of};
use crate::lines::Line;
use crate::parts::{Image, Unit};
use crate::phrase::{put_name, statement_line};
use crate::picture::{frame_of, is_hit, say_picture};
use crate::say::Host;
use crate::valid::warn;
use crate::words::{Status, put_mend, put_refusal, put_rule};
use arrayvec::ArrayVec;
use rules_fence::Verdict;
use rules_unit::{Field, Refusal};
use std::mem;

// The columns of a statement.
const STATEMENT: usize = 120;

// How many decimal fields are named that a destination is on.
const HITS: usize = 6;

// How many references are told where no number is given; how many breaches are many, and the lines that their references then have.
const TOLD_MOST: usize = 20;

const MANY: usize = 100;

const LINES: usize = 52;

// The lines of a picture.
const PICTURE: usize = 4;

// What is told once: each field that is drawn as a whole, and each rule, by its number, that has its hint.
#[derive(Drop)]
struct Told {
    fields: [bool; 512],
    rules: [bool; 7],
}

// ---- the bytes of a reference

// Puts how many elements a field has, and how long they are, if it has several.
fn put_elements(l: &mut Line, field: Field) {
    let Field { count, size, .. } = field;
    if 2 <= count {
        write!(l, ", {count} elements of {size}");
        if size == 1 {
            l.text(b" byte");
        }
    }
}

// Puts that a run stops where a reference leaves a strict field.
fn put_strict(l: &mut Line, field: Field, rule: FenceRule) {
    if !is_strict(field) {
        return;
    }
    match rule {
        FenceRule::BoundNotLiteral => {
            l.text(b", and is strict: outside of it a run stops with 21");
        }
        FenceRule::LeavesField => l.text(b", and is strict: a run stops here with 21"),
        _ => {}
    }
}

// Puts the bytes of the field of a reference.
fn put_field(l: &mut Line, unit: Unit<'_>, field: Field, r: Breaking) {
    l.text(b"; ");
    put_name(l, unit, field, r.field);
    l.text(b" has");
    l.bytes_at(usize::from(field.offset), len_of(field));
    put_elements(l, field);
    put_strict(l, field, r.rule);
}

// Whether a destination is on the decimal field i.
fn is_on(unit: Unit<'_>, r: Breaking, i: u16) -> bool {
    let from = usize::from(r.start);
    is_hit(unit.field(i), from, from + usize::from(r.len))
}

// Puts the decimal fields that a destination is on, the first of them by their names.
fn put_hits(l: &mut Line, unit: Unit<'_>, r: Breaking) {
    l.text(b"; decimal there:");
    let hits = (0..unit.coded.parts.f).filter(|i| is_on(unit, r, *i));
    for (k, i) in hits.take(HITS).enumerate() {
        let field = unit.field(i);
        l.text(if k == 0 { b" ".as_slice() } else { b", " });
        put_name(l, unit, field, i);
        l.text(b" (");
        l.span(usize::from(field.offset), len_of(field));
        l.text(b")");
    }
    let all = (0..unit.coded.parts.f)
        .filter(|i| is_on(unit, r, *i))
        .count();
    if HITS < all {
        write!(l, " and {} more", all - HITS);
    }
}

// The line of the bytes of a reference: for bounds that are wrong those that it would name, for a destination on decimal fields its own and those fields', else those
// that it names, or that only the run finds them; and the bytes of its field.
fn say_bytes(host: &Host, unit: Unit<'_>, field: Field, r: Breaking, aim: Aim) {
    let mut l = Line::new();
    l.text(b"   ");
    match r.rule {
        FenceRule::BoundNotLiteral => l.text(b" found only by the run"),
        FenceRule::BoundsWrong => {
            l.text(b" ");
            put_aim(&mut l, aim);
            if !matches!(aim, Aim::Nowhere(_)) {
                l.text(b"; the data has");
                l.bytes_at(0, usize::from(unit.coded.parts.d));
            }
        }
        _ => l.bytes_at(usize::from(r.start), usize::from(r.len)),
    }
    if r.rule != FenceRule::OnDecimal || r.form != Form::First {
        put_field(&mut l, unit, field, r);
    }
    if r.rule == FenceRule::OnDecimal {
        put_hits(&mut l, unit, r);
    }
    host.say_line(l);
}

// ---- what is told once

// Whether something is told for the first time: it is marked then.
fn is_first(mark: Option<&mut bool>) -> bool {
    match mark {
        Some(told) => !mem::replace(told, true),
        None => true,
    }
}

impl Told {
    // Whether a reference has its picture: where a bound is not a literal, its field is drawn once.
    fn draws(&mut self, r: Breaking) -> bool {
        r.rule != FenceRule::BoundNotLiteral || is_first(self.fields.get_mut(usize::from(r.field)))
    }

    // The line that tells how a breach of a rule is mended, once for a rule.
    fn say_mend(&mut self, host: &Host, rule: FenceRule) {
        if is_first(self.rules.get_mut(rule as usize)) {
            let mut l = Line::new();
            l.text(b"    ");
            put_mend(&mut l, rule);
            host.say_line(l);
        }
    }

    // How many lines a reference kept takes behind those of a statement.
    fn lines_of(&self, kept: &Kept, before: Option<u16>) -> usize {
        let r = kept.breaking;
        let is_drawn = self.fields.get(usize::from(r.field)) == Some(&true);
        let is_mended = self.rules.get(rule_index(r)) == Some(&true);
        let mut n = 2;
        if r.rule != FenceRule::BoundNotLiteral || !is_drawn {
            n += PICTURE;
        }
        if !is_mended {
            n += 1;
        }
        if Some(r.statement) != before {
            n += 2;
        }
        if 0 < kept.more {
            n += 1;
        }
        n
    }
}

// The number of the rule that a reference breaks.
fn rule_index(r: Breaking) -> usize {
    r.rule as usize
}

// ---- the references

// Puts a number of each of the other statements that have the same reference as one kept, with a comma between two; and two dots where there are more.
fn put_others<F: FnMut(u16) -> usize>(l: &mut Line, kept: &Kept, mut number: F)
    requires { F.IsAlwaysCallable number }
{
    for (k, i) in kept.others().iter().enumerate() {
        if 0 < k {
            l.text(b", ");
        }
        write!(l, "{}", number(*i));
    }
    if kept.others().len() < usize::from(kept.more) {
        l.text(b" ..");
    }
}

// The line of the other statements that have the same reference, and their source lines, where those are known; if there are any.
fn say_others(host: &Host, unit: Unit<'_>, kept: &Kept) {
    let more = kept.more;
    let Some(first) = kept.others().first() else {
        return;
    };
    let mut l = Line::new();
    let word = if more == 1 { "statement" } else { "statements" };
    write!(l, "    the same in {more} more {word}: ");
    put_others(&mut l, kept, |i| usize::from(i));
    if unit.names.source_line(*first).is_some() {
        let word = if more == 1 { "line" } else { "lines" };
        write!(l, "; {word} ");
        put_others(&mut l, kept, |i| unit.names.source_line(i).unwrap_or(0));
    }
    host.say_line(l);
}

// The statement i as text, behind a line with nothing in it.
fn say_head(host: &Host, unit: Unit<'_>, i: u16) {
    let mut l = statement_line(unit, i);
    l.cut_to(STATEMENT);
    host.say(b"\n");
    host.say_line(l);
}

// The line of a reference: whether it is written or read, and the rule that it breaks.
fn say_reference(host: &Host, unit: Unit<'_>, r: Breaking) {
    let mut l = Line::new();
    l.text(b"  ");
    put_reference(&mut l, unit, r);
    l.text(if r.written {
        b" written: ".as_slice()
    } else {
        b" read: "
    });
    put_rule(&mut l, r.rule);
    host.say_line(l);
}

// The lines of a reference kept, with its picture if it has one.
fn say_kept(host: &Host, unit: Unit<'_>, data: &[u8], told: &mut Told, kept: &Kept) {
    let r = kept.breaking;
    let field = unit.field(r.field);
    let aim = aim_of(unit, field, r);
    say_reference(host, unit, r);
    say_bytes(host, unit, field, r, aim);
    if told.draws(r)
        && let Some(frame) = frame_of(unit, field, r, aim)
    {
        say_picture(host, unit, data, frame);
    }
    say_others(host, unit, kept);
    told.say_mend(host, r.rule);
}

// The lines of references kept, as many of them as have room in so many lines, each behind its statement where that is not told yet; and how many these are.
fn say_all(host: &Host, unit: Unit<'_>, data: &[u8], kept: &[Kept], room: usize) -> usize {
    let mut told = Told {
        fields: [false; 512],
        rules: [false; 7],
    };
    let mut before = None;
    let mut left = room;
    for (shown, k) in kept.iter().enumerate() {
        let lines = told.lines_of(k, before);
        if left < lines {
            return shown;
        }
        left -= lines;
        let i = k.breaking.statement;
        if before != Some(i) {
            say_head(host, unit, i);
            before = Some(i);
        }
        say_kept(host, unit, data, &mut told, k);
    }
    kept.len()
}

// ---- the whole

// The line that tells how many references are not shown, if there are any; and how all are shown, where there are not more than can be.
fn say_rest(host: &Host, kept: usize, shown: usize) {
    if kept <= shown {
        return;
    }
    let more = kept - shown;
    let mut l = Line::new();
    if more == 1 {
        l.text(b"\n1 more reference is not shown");
    } else {
        write!(l, "\n{more} more references are not shown");
    }
    if kept <= KEPT_MOST {
        write!(l, ": --first {kept} shows all");
    }
    host.say_line(l);
}

// Puts how many breaches there are of each rule that is broken.
fn put_counts(l: &mut Line, rules: [usize; 7]) {
    let counts = rules.iter().enumerate().filter(|(_, n)| 0 < **n);
    for (k, (rule, n)) in counts.enumerate() {
        if 0 < k {
            l.byte(b',');
        }
        write!(l, " rule {rule} x{n}");
    }
}

// The last line: how many breaches there are, in how many statements, and of which rules.
fn say_totals(host: &Host, tally: Tally, n: u16) {
    let Tally {
        breaches,
        statements,
        ..
    } = tally;
    let mut l = Line::new();
    write!(l, "\n{breaches} breach");
    if breaches != 1 {
        l.text(b"es");
    }
    write!(l, " in {statements} of {n} statement");
    if n != 1 {
        l.text(b"s");
    }
    l.byte(b':');
    put_counts(&mut l, tally.rules);
    host.say_line(l);
}

// How many lines the references have: where no number is given and there are many breaches, so many that the whole answer has fewer than sixty.
fn room_for(first: Option<usize>, breaches: usize) -> usize {
    if first.is_none() && MANY <= breaches {
        LINES
    } else {
        usize::MAX
    }
}

// The lines of a unit, of which statement i is the first that breaks a rule.
fn say_breaches(host: &Host, unit: Unit<'_>, data: &[u8], i: u16, first: Option<usize>) {
    let mut page = [0u64; PAGE_ROOM];
    let mut kept = ArrayVec::new();
    let tally = tally_of(unit, i, &mut page, &mut kept);
    let all = kept.as_slice();
    let most = first.unwrap_or(TOLD_MOST).min(all.len());
    let room = room_for(first, tally.breaches);
    let shown = say_all(host, unit, data, &all[..most], room);
    say_rest(host, tally.kept, shown);
    say_totals(host, tally, unit.coded.parts.n);
}

// A refusal with its number and place, and in a line of its own the reason.
pub fn say_refused(host: &Host, r: Refusal) {
    let number = dibol::refusal_number(r);
    let place = dibol::refusal_place(r);
    let mut l = Line::new();
    write!(l, "refused {number} {place}\n  ");
    put_refusal(&mut l, r);
    host.say_line(l);
}

// Says the answer over some data, and what an owner needs to find and mend the first breaches; and gives the exit status.
pub fn answer(host: &Host, unit: Unit<'_>, image: Image<'_>, first: Option<usize>) -> Status {
    match dibol::fence(unit.coded.unit) {
        Verdict::Yes => {
            host.say(b"yes\n");
            warn(host, unit, image)
        }
        Verdict::No(i) => {
            let mut l = Line::new();
            write!(l, "no {i}");
            host.say_line(l);
            warn(host, unit, image);
            say_breaches(host, unit, image.bytes, i, first);
            Status::Stopped
        }
        Verdict::Refused(r) => {
            say_refused(host, r); // Never so: the unit passed its check.
            Status::Refused
        }
    }
}
