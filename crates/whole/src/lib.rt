// The order WHOLE (document 01, 'Orders of a unit'): the first rule that matches at a term's offset rewrites it, unless the budget is used up or the
// new term would be too long.
#![tactic(auto)]

ghost use Rattle.std.specs.Prelude.{◌≡◌, ◌-◌, ◌<◌, length, get_or, drop};
ghost use Rattle.symbol.specs.Record.{operator};
ghost use Rattle.term.specs.Present.{length_in};
ghost use Rattle.splice.specs.Promises.{Replaceable};
ghost use Rattle.net.specs.Net.{book_by};
ghost use Rattle.lookup.specs.Promises.{Present};
ghost use Rattle.whole.specs.State as S;
ghost use Rattle.whole.specs.Promises as W;

use units::{Frame, Job};

// What a run counts: the rewrites, the FORKs granted, and those that were not. How many symbols are present is read from the term's root.
#[derive(Clone, Copy)]
pub struct Progress {
    pub rewrites: u32,
    pub granted: usize,
    pub kept: usize,
}

// What bounds a run: its units, and the rewrites that it may make.
#[derive(Clone, Copy)]
pub struct Limits {
    pub units: usize,
    pub budget: u32,
}

// Where an order is carried out: by which unit, on the term at which offset, of which operator.
#[derive(Clone, Copy)]
pub struct Place {
    pub unit: usize,
    pub offset: usize,
    pub operator: u8,
}

// No rule matches; a rule rewrote the term; the budget is used up; the new term would be too long.
#[derive(Clone, Copy, Debug, PartialEq, Eq)]
pub enum Whole {
    Missed,
    Rewrote,
    Spent,
    Full,
}

// A filled right side: how many symbols it has, and the offset behind the term that it stands for.
#[derive(Clone, Copy)]
struct Filled {
    size: usize,
    end: usize,
}

// The answers before the replacement.
#[derive(Clone, Copy)]
enum Choice {
    Missed,
    Fits(Filled),
    Spent,
    Full,
}

// The first rule that matches at offset a, where the operator o stands; its right side, filled, goes into scratch.
fn choose(
    book: &[u8],
    operators: &[u8; 4352],
    net: &[u8],
    symbols: &[u32; 1024],
    scratch: &mut [u32; 1024],
    a: usize,
    o: u8,
    p: Progress,
    l: Limits,
) -> Choice
    requires { Present book.now operators.now net.now symbols.now a × (length scratch.old ≡ 1024) × (o ≡ operator (get_or symbols.now a 0)) }
    ensures { W.Chosen (book_by book.now net.now) a p l symbols.now scratch.new result }
{
    // Most terms have a root without rules.
    let Some(first) = net::root(net, o) else {
        return Choice::Missed;
    };
    let mut bound = [0; 32];
    let Some(m) = lookup::find(book, operators, net, symbols, a, first, scratch, &mut bound) else {
        return Choice::Missed;
    };
    // A budget that is used up is told before a term that would be too long.
    if p.rewrites == l.budget {
        return Choice::Spent;
    }
    let at = net::right_side(net, m.rule);
    let limit = 1024 - (a + (term::length(symbols) - m.end));
    match fill::fill(book, at, operators, symbols, limit, &bound, scratch) {
        Some(size) => Choice::Fits(Filled { size, end: m.end }),
        None => Choice::Full,
    }
}

// The filled right side at the end of scratch for the term at a place, which its unit is to visit.
fn apply(
    symbols: &mut [u32; 1024],
    scratch: &[u32; 1024],
    filled: Filled,
    work: &mut [u8],
    units: &[u32; 8],
    count: usize,
    place: Place,
)
    requires { let s : S.Arrays = S.arrays symbols.old work.old units.now in Replaceable s.symbols (length_in s.symbols) place.offset filled.end filled.size × (place.offset < length_in s.symbols) × (place.offset < filled.end) × (length scratch.now ≡ 1024) × W.UnitsDue s.store count place (length_in s.symbols) }
    ensures { let s : S.Arrays = S.arrays symbols.old work.old units.now in W.Rewritten place (drop (1024 - filled.size) scratch.now) filled.size filled.end count s (S.arrays symbols.new work.new s.store.cells) }
{
    let a = place.offset;
    let end = filled.end;
    let k = filled.size;
    let len = term::length(symbols);
    splice::replace(symbols, len, a, end, scratch, k);
    units::set_top(
        work,
        units,
        place.unit,
        Frame::Job(Job {
            offset: a as u16,
            next: 0,
            count: 0,
        }),
    );
    // Nothing moves where as many symbols come as go, nor with one unit, whose other jobs are of terms around this one and so stand before it.
    if 1 < count && a + k != end {
        units::shift_units(work, units, count, a, end, k);
    }
}

// WHOLE of the term at a place.
pub fn rewrite(
    book: &[u8],
    operators: &[u8; 4352],
    net: &[u8],
    symbols: &mut [u32; 1024],
    scratch: &mut [u32; 1024],
    work: &mut [u8],
    units: &[u32; 8],
    place: Place,
    p: Progress,
    l: Limits,
) -> Whole
    requires { let s : S.Arrays = S.arrays symbols.old work.old units.now in Present book.now operators.now net.now s.symbols place.offset × (length scratch.old ≡ 1024) × W.UnitsDue s.store l.units place (length_in s.symbols) × (place.operator ≡ operator (get_or symbols.old place.offset 0)) }
    ensures { let s : S.Arrays = S.arrays symbols.old work.old units.now in W.CarriedOut (book_by book.now net.now) place p l s (S.arrays symbols.new work.new s.store.cells) result × (length scratch.new ≡ 1024) }
{
    match choose(
        book,
        operators,
        net,
        symbols,
        scratch,
        place.offset,
        place.operator,
        p,
        l,
    ) {
        Choice::Missed => Whole::Missed,
        Choice::Spent => Whole::Spent,
        Choice::Full => Whole::Full,
        Choice::Fits(filled) => {
            apply(symbols, scratch, filled, work, units, l.units, place);
            Whole::Rewrote
        }
    }
}
