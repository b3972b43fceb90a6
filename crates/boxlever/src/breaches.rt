// The references of a unit that break a fence rule. The library lists them, eight numbers for each; here those that are the same are put together, and each
// has its text.
use crate::bounds::is_bounded;
use crate::lines::Line;
use crate::parts::{Unit, row_of};
use crate::phrase::{HELD, Held, put_name};
use crate::words::put_rule;
use arrayvec::ArrayVec;
use rules_unit::{Item, Role};

// The numbers that the library gives of a breach, how many breaches of a statement are asked for at once, and the numbers that they take.
const ROW: usize = 8;

const PAGE: usize = 8192;

pub const PAGE_ROOM: usize = PAGE * ROW;

// The offsets of the expressions.
const OFFSETS: usize = 16384;

// How many references are kept, and how many of the other statements are that have the same one.
pub const KEPT_MOST: usize = 32768;

const OTHERS_MOST: usize = 8;

// The longest reference, in bytes as it is coded, that is looked for at other offsets.
const LONGEST: usize = 64;

// How many times in all one reference is compared with another; after that a reference is looked for at its own offset alone.
const LOOKS_MOST: usize = 200000000;

// The columns of a reference's text.
const TEXT: usize = 60;

// A fence rule, by the library's number for it.
#[derive(Clone, Copy, Default, PartialEq, Eq)]
pub enum FenceRule {
    #[default]
    BoundNotLiteral = 1,
    BoundsWrong = 2,
    LeavesField = 3,
    OverElements = 4,
    StopsMidElement = 5,
    OnDecimal = 6,
}

impl TryFrom<u64> for FenceRule {
    type Error = u64;

    fn try_from(n: u64) -> Result<FenceRule, u64> {
        match n {
            1 => Ok(FenceRule::BoundNotLiteral),
            2 => Ok(FenceRule::BoundsWrong),
            3 => Ok(FenceRule::LeavesField),
            4 => Ok(FenceRule::OverElements),
            5 => Ok(FenceRule::StopsMidElement),
            6 => Ok(FenceRule::OnDecimal),
            _ => Err(n),
        }
    }
}

// The form of a reference, which says what bounds it has: the library's numbers 2 to 5. The library's own enum has no equality, by which references are compared here.
#[derive(Clone, Copy, Default, PartialEq, Eq)]
pub enum Form {
    #[default]
    First,
    Subscript,
    StartEnd,
    PosLength,
}

impl TryFrom<u64> for Form {
    type Error = u64;

    fn try_from(n: u64) -> Result<Form, u64> {
        match n {
            2 => Ok(Form::First),
            3 => Ok(Form::Subscript),
            4 => Ok(Form::StartEnd),
            5 => Ok(Form::PosLength),
            _ => Err(n),
        }
    }
}

// A reference that breaks a rule, in the numbers of the library: its statement, the rule, whether it is written, its field and form, where its bytes start and
// how many they are, and its offset in the expressions; and the offset at which its text starts, that of its first bound.
#[derive(Clone, Copy, Default)]
pub struct Breaking {
    pub statement: u16,
    pub rule: FenceRule,
    pub written: bool,
    pub field: u16,
    pub form: Form,
    pub start: u16,
    pub len: u16,
    pub at: u16,
    pub from: u16,
}

// A number of the library's rows, each of which is below 65,536.
fn short(n: u64) -> u16 {
    (n % 65536) as u16
}

impl Breaking {
    // The reference of a row of the library's, if its numbers are such. Its text starts at its own offset, as long as nothing else is known.
    fn of_row(row: &[u64; ROW]) -> Option<Breaking> {
        let [statement, rule, written, field, form, start, len, at] = *row;
        Some(Breaking {
            statement: short(statement),
            rule: FenceRule::try_from(rule).ok()?,
            written: 0 < written,
            field: short(field),
            form: Form::try_from(form).ok()?,
            start: short(start),
            len: short(len),
            at: short(at),
            from: short(at),
        })
    }

    // How many bytes its bounds take in the expressions.
    fn size(self) -> usize {
        usize::from(self.at.saturating_sub(self.from))
    }

    // Whether two references name the same bytes of the same field, break the same rule in the same way, and have bounds that are as long.
    fn is_alike(self, t: Breaking) -> bool {
        self.size() == t.size()
            && self.rule == t.rule
            && self.written == t.written
            && self.field == t.field
            && self.form == t.form
            && self.start == t.start
            && self.len == t.len
    }

    // The bytes of its bounds among those of the expressions.
    fn bounds(self, es: &[u8]) -> Option<&[u8]> {
        es.get(usize::from(self.from)..usize::from(self.at))
    }

    // Whether its bounds are coded as those of another are. Long ones are the same at the same offset alone.
    fn is_coded(self, t: Breaking, es: &[u8]) -> bool {
        self.at == t.at || self.size() <= LONGEST && self.bounds(es) == t.bounds(es)
    }
}

// A reference that is kept: that of the first statement that has it; how many more statements have the same one, the last of them, and the first eight. There is
// room for many, so each number is as narrow as it can be.
#[derive(Clone, Copy, Default)]
pub struct Kept {
    pub breaking: Breaking,
    pub more: u16,
    last: u16,
    others: [u16; OTHERS_MOST],
}

impl Kept {
    // Notes that the statement i has the same reference, once for a statement.
    fn add(&mut self, i: u16) {
        if self.last == i {
            return;
        }
        self.last = i;
        if let Some(place) = self.others.get_mut(usize::from(self.more)) {
            *place = i;
        }
        self.more = self.more.saturating_add(1);
    }

    // The first of the other statements.
    pub fn others(&self) -> &[u16] {
        let n = usize::from(self.more).min(OTHERS_MOST);
        &self.others[..n]
    }
}

// A number for each offset of the expressions at which a reference stands that is read, and for each at which one is written. It is held plus one, and none as
// 0: with an Option in each place the program needs 128 KB more stack.
#[derive(Drop)]
pub struct PerUse {
    read: [u16; OFFSETS],
    written: [u16; OFFSETS],
}

impl PerUse {
    pub fn new() -> PerUse {
        PerUse {
            read: [0; OFFSETS],
            written: [0; OFFSETS],
        }
    }

    // The number of a reference.
    fn get(&self, r: Breaking) -> Option<u16> {
        let numbers = if r.written { &self.written } else { &self.read };
        numbers.get(usize::from(r.at))?.checked_sub(1)
    }

    // Gives the reference at an offset its number, or nothing past the end.
    fn set(&mut self, at: usize, written: bool, n: usize) {
        let numbers = if written {
            &mut self.written
        } else {
            &mut self.read
        };
        if let Some(place) = numbers.get_mut(at) {
            *place = u16::try_from(n.saturating_add(1)).unwrap_or(0);
        }
    }
}

// ---- where the text of a reference starts

// Holds where the values start that are held after an item. One that takes values starts where the first of them does.
fn begin(begun: &mut ArrayVec<usize, HELD>, item: Item, at: usize) {
    let takes = usize::from(unit_decode::takes_of(item));
    if takes == 0 {
        let _ = begun.try_push(at);
    } else {
        let left = begun.len().saturating_sub(takes);
        begun.truncate(left.saturating_add(1));
    }
}

// Notes where the texts of the references of an expression start, which is a place that is written or is read.
fn note_expression(unit: Unit<'_>, starts: &mut PerUse, e: u16, written: bool) {
    let mut begun = ArrayVec::new();
    for (at, item) in unit.items(usize::from(e)) {
        if unit_decode::closes(item) {
            break;
        }
        begin(&mut begun, item, at);
        let start = begun.as_slice().last().copied().unwrap_or(0);
        if matches!(item, Item::Reference { .. }) {
            starts.set(at, false, start);
            if written {
                starts.set(at, true, start);
            }
        }
    }
}

// Notes the same of a part of a statement, by its role.
fn note_part(unit: Unit<'_>, starts: &mut PerUse, role: Role, x: u16) {
    match role {
        Role::Written(_) => note_expression(unit, starts, x, true),
        Role::Read(_) => note_expression(unit, starts, x, false),
        Role::Numbers => {
            for e in unit.in_row(x) {
                note_expression(unit, starts, e, false);
            }
        }
        Role::Target | Role::Table | Role::End | Role::Unused | Role::Never => {}
    }
}

// Notes the same of the statement i.
fn note_statement(unit: Unit<'_>, starts: &mut PerUse, i: u16) {
    let s = unit.statement(i);
    let row = row_of(s);
    note_part(unit, starts, row.a, s.a);
    note_part(unit, starts, row.b, s.b);
    note_part(unit, starts, row.c, s.c);
}

// A reference of the statement that is noted, with where its text starts.
fn started(starts: &PerUse, mut r: Breaking) -> Breaking {
    r.from = starts.get(r).unwrap_or(r.at);
    r
}

// ---- the references kept

// What a unit has: breaches, statements with one, references that are not the same as one before, and breaches of each rule by its number.
#[derive(Clone, Copy, Default)]
pub struct Tally {
    pub breaches: usize,
    pub statements: usize,
    pub kept: usize,
    pub rules: [usize; 7],
}

impl Tally {
    // Counts one breach more of a rule.
    fn count(&mut self, rule: FenceRule) {
        if let Some(n) = self.rules.get_mut(rule as usize) {
            *n = n.saturating_add(1);
        }
        self.breaches = self.breaches.saturating_add(1);
    }
}

// What is found of a unit: where the texts of the references start in the statement that is looked at, and which of those kept each is; the references kept, in the
// order in which they come; the tally; and how many times references were compared.
#[derive(Drop)]
struct Found<'a> {
    unit: Unit<'a>,
    starts: &'a mut PerUse,
    known: &'a mut PerUse,
    kept: &'a mut ArrayVec<Kept, KEPT_MOST>,
    tally: Tally,
    looks: usize,
}

impl Found<'_> {
    // Which of the references kept is the same as another, as long as references are compared at all.
    fn same_as(&self, es: &[u8], r: Breaking) -> Option<usize> {
        if LOOKS_MOST < self.looks {
            return None;
        }
        let mut kept = self.kept.as_slice().iter();
        kept.position(|k| r.is_alike(k.breaking) && r.is_coded(k.breaking, es))
    }

    // Keeps a reference that is not the same as one before, if there is room.
    fn keep(&mut self, r: Breaking) {
        let _ = self.kept.try_push(Kept {
            breaking: r,
            more: 0,
            last: r.statement,
            others: [0; OTHERS_MOST],
        });
        self.tally.kept = self.tally.kept.saturating_add(1);
    }

    // Looks for a reference among those kept.
    fn seek(&mut self, es: &[u8], r: Breaking) {
        let n = self.kept.len();
        self.looks = self.looks.saturating_add(n);
        let same = self.same_as(es, r);
        let k = same.unwrap_or(n);
        self.known.set(usize::from(r.at), r.written, k);
        match self.kept.as_mut_slice().get_mut(k) {
            Some(kept) => kept.add(r.statement),
            None => self.keep(r),
        }
    }

    // Adds a reference. What was found at its offset before is the same where its bounds are as long: expressions may come to an item by other items.
    fn add(&mut self, es: &[u8], r: Breaking) {
        self.tally.count(r.rule);
        if let Some(k) = self.known.get(r)
            && let Some(kept) = self.kept.as_mut_slice().get_mut(usize::from(k))
            && r.is_alike(kept.breaking)
        {
            kept.add(r.statement);
            return;
        }
        self.seek(es, r);
    }

    // Adds the references of the first n rows.
    fn add_rows(&mut self, es: &[u8], page: &[u64], n: usize) {
        let (rows, _) = page.as_chunks::<ROW>();
        for row in rows.iter().take(n) {
            if let Some(r) = Breaking::of_row(row) {
                let r = started(self.starts, r);
                self.add(es, r);
            }
        }
    }

    // Adds those of the statement i, a page at a time.
    fn add_statement(&mut self, i: u16, page: &mut [u64]) {
        let unit = self.unit;
        let n = dibol::statement_breaches(unit.coded.unit, usize::from(i), 0, page);
        if n == 0 {
            return;
        }
        self.tally.statements = self.tally.statements.saturating_add(1);
        note_statement(unit, self.starts, i);
        for skip in (0..n).step_by(PAGE) {
            if 0 < skip {
                dibol::statement_breaches(unit.coded.unit, usize::from(i), skip, page);
            }
            self.add_rows(unit.expressions(), page, n.saturating_sub(skip));
        }
    }
}

// The tally of a unit whose first breaking statement is given. The references that are not the same are kept, as many as have room.
pub fn tally_of(
    unit: Unit<'_>,
    first: u16,
    page: &mut [u64; PAGE_ROOM],
    kept: &mut ArrayVec<Kept, KEPT_MOST>,
) -> Tally {
    let mut found = Found {
        unit,
        starts: &mut PerUse::new(),
        known: &mut PerUse::new(),
        kept,
        tally: Tally::default(),
        looks: 0,
    };
    for i in first..unit.coded.parts.n {
        found.add_statement(i, page);
    }
    found.tally
}

// ---- text

// The text of the reference at an offset, which starts at another; a full line where it has no room.
fn text_of(unit: Unit<'_>, from: u16, to: u16) -> Line {
    let mut held = Held::new(Line::new());
    for (at, item) in unit.items(usize::from(from)) {
        if unit_decode::closes(item) || held.is_full() || usize::from(to) < at {
            break;
        }
        held.item(unit, item);
    }
    held.line
}

// Puts a reference as it stands in its statement. Of one that is too long, or whose bounds are not known for certain, its field is put, and that it has bounds.
pub fn put_reference(l: &mut Line, unit: Unit<'_>, r: Breaking) {
    let field = unit.field(r.field);
    if is_bounded(unit, field, r) {
        let mut text = text_of(unit, r.from, r.at);
        if !text.is_full() {
            text.cut_to(TEXT);
            l.text(text.bytes());
            return;
        }
    }
    put_name(l, unit, field, r.field);
    l.text(b"(..)");
}

// Puts the first reference of the statement i that breaks a rule, and the rule; nothing where none does.
pub fn put_first(l: &mut Line, unit: Unit<'_>, i: u16) {
    let mut row = [0u64; ROW];
    if dibol::statement_breaches(unit.coded.unit, usize::from(i), 0, &mut row) == 0 {
        return;
    }
    let Some(r) = Breaking::of_row(&row) else {
        return;
    };
    let mut starts = PerUse::new();
    note_statement(unit, &mut starts, i);
    put_reference(l, unit, started(&starts, r));
    l.text(b": ");
    put_rule(l, r.rule);
}
