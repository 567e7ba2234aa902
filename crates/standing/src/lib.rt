// The rules of a dated book that stand on a day (document 02, Change 5): "Rules of later days are absent. Of rules whose left sides agree up to the
// naming of variables, only the latest day stands, and within a day the last in the book". This is settled once, when the book is read. Left sides are
// compared in the book's bits, symbol by symbol, with variables numbered as they are met; a key of each tells most apart before.
#![tactic(auto)]

ghost use Rattle.std.specs.Prelude.{◌≡◌, ◌+◌, ◌/◌, ◌%◌, ◌<◌, ◌≤◌, ◌^◌, length, take, drop};
ghost use Rattle.paper.specs.Tree.{preorder};
ghost use Rattle.paper.specs.Naming as N;
ghost use Rattle.paper.specs.Dated as P;
ghost use Rattle.tables.specs.Layout.{left_in, right_in, with_sides};
ghost use Rattle.standing.specs.Keys.{key};
ghost use Rattle.standing.specs.Dates.{dated_at, left_at, rules_of, AllDated};
ghost use Rattle.standing.specs.Promises.{NamesCompared, SymbolsCompared, SecondOf, KeyOf, KeysIn, DayBefore, Kept};

use side::Standing;

// Two symbols, one of each side, that are the same but for names: how many bits each takes, and how many variables are met behind them.
#[derive(Clone, Copy, Debug, PartialEq, Eq)]
struct Same {
    width: usize,
    met: u8,
}

// The variables v and w, met where met ones were: both new, or both of one number. The arrays have the number of each, plus 1.
fn same_name(v: u8, w: u8, names: &mut [u8; 16], others: &mut [u8; 16], met: u8) -> Option<Same>
    requires { (v < 16) × (w < 16) × (met < 255) }
    ensures { NamesCompared v w names.old others.old met names.new others.new result }
{
    let x = casts::index(v);
    let y = casts::index(w);
    let a = names[x];
    if a != others[y] {
        return None;
    }
    if a != 0 {
        return Some(Same { width: 5, met });
    }
    names[x] = met + 1;
    others[y] = met + 1;
    Some(Same {
        width: 5,
        met: met + 1,
    })
}

// The variable of nine bits that begin with one.
fn variable(w: usize) -> u8
    ensures { (result ≡ w / 16 % 16) × (result < 16) }
{
    casts::byte(w / 16 % 16)
}

// The symbols at two positions.
fn compare(
    book: &[u8],
    at: usize,
    other: usize,
    names: &mut [u8; 16],
    others: &mut [u8; 16],
    met: u8,
) -> Option<Same>
    requires { (length book.now ≤ 65536) × (at < 2 ^ 32) × (other < 2 ^ 32) × (met < 255) }
    ensures { SymbolsCompared book.now at other names.old others.old met names.new others.new result }
{
    let s = bits::nine(book, at);
    let u = bits::nine(book, other);
    if s < 256 {
        if s == u {
            return Some(Same { width: 9, met });
        }
        return None;
    }
    if u < 256 {
        return None;
    }
    same_name(variable(s), variable(u), names, others, met)
}

// Do the left sides of the rules i and j, which take as many bits, agree up to the naming of variables? The first difference ends the walk.
fn alike(book: &[u8], rules: &[u32; 512], i: usize, j: usize) -> bool
    requires { AllDated book.now rules.now × (i < length (rules_of book.now)) × (j < length (rules_of book.now)) × (key (preorder (left_at (rules_of book.now) i)) ≡ key (preorder (left_at (rules_of book.now) j))) }
    ensures { result ≡ N.alike (left_at (rules_of book.now) i) (left_at (rules_of book.now) j) }
{
    let end = tables::right_side(rules, i);
    let mut at = tables::left_side(rules, i);
    let mut other = tables::left_side(rules, j);
    let mut names = [0; 16];
    let mut others = [0; 16];
    let mut met = 0;
    while at < end {
        let Some(same) = compare(book, at, other, &mut names, &mut others, met) else {
            return false;
        };
        at += same.width;
        other += same.width;
        met = same.met;
    }
    true
}

// The second symbol of a left side that ends at a position, as a number; any variable is 256, and no symbol 0.
fn second(book: &[u8], at: usize, end: usize) -> usize
    requires { length book.now ≤ 65536 }
    ensures { SecondOf book.now at end result }
{
    if end <= at {
        return 0;
    }
    match side::symbol_at(book, at) {
        Standing::Operator(o, _) => casts::index(o),
        Standing::Variable(_, _) => 256,
    }
}

// The key of the left side from a position up to another: that of sides that agree is the same.
fn key_of(book: &[u8], left: usize, end: usize) -> usize
    requires { (length book.now ≤ 65536) × (left ≤ end) × (end < 2 ^ 32) }
    ensures { KeyOf book.now left end result }
{
    match side::symbol_at(book, left) {
        Standing::Variable(_, _) => 0,
        Standing::Operator(o, next) => {
            ((end - left) * 256 + casts::index(o)) * 512 + second(book, next, end)
        }
    }
}

// The keys of the m rules.
fn put_keys(book: &[u8], rules: &[u32; 512], m: usize, keys: &mut [usize; 256])
    requires { AllDated book.now rules.now × (m ≡ length (rules_of book.now)) × (length keys.old ≡ 256) }
    ensures { KeysIn book.now keys.new }
{
    for i in 0..m {
        let left = tables::left_side(rules, i);
        keys[i] = key_of(book, left, tables::right_side(rules, i));
    }
}

// The day that stands before a left side.
fn day_before(book: &[u8], left: usize) -> usize
    requires { (length book.now ≤ 65536) × (16 ≤ left) }
    ensures { DayBefore book.now left result }
{
    match bits::field(book, left - 16, 16) {
        Some(day) => casts::offset(day.value),
        None => 0,
    }
}

// Is the day of rule j one of first to last, and does its left side, of the same key, agree with that of rule i?
fn replaces(book: &[u8], rules: &[u32; 512], first: usize, last: usize, i: usize, j: usize) -> bool
    requires { AllDated book.now rules.now × (i < length (rules_of book.now)) × (j < length (rules_of book.now)) × (key (preorder (left_at (rules_of book.now) j)) ≡ key (preorder (left_at (rules_of book.now) i))) }
    ensures { result ≡ P.replaces first last (left_at (rules_of book.now) i) (dated_at (rules_of book.now) j) }
{
    let day = day_before(book, tables::left_side(rules, j));
    if day < first {
        return false;
    }
    if last < day {
        return false;
    }
    alike(book, rules, j, i)
}

// Is it so for one of the rules from a number up to another?
fn replaced(
    book: &[u8],
    rules: &[u32; 512],
    keys: &[usize; 256],
    first: usize,
    last: usize,
    i: usize,
    from: usize,
    to: usize,
) -> bool
    requires { AllDated book.now rules.now × KeysIn book.now keys.now × (i < length (rules_of book.now)) × (to ≤ length (rules_of book.now)) }
    ensures { result ≡ P.replaced first last (left_at (rules_of book.now) i) (drop from (take to (rules_of book.now))) }
{
    let key = keys[i];
    for j in from..to {
        if keys[j] == key && replaces(book, rules, first, last, i, j) {
            return true;
        }
    }
    false
}

// Does rule i, of m, stand on the day?
fn stands(
    book: &[u8],
    rules: &[u32; 512],
    keys: &[usize; 256],
    m: usize,
    day: usize,
    i: usize,
) -> bool
    requires { AllDated book.now rules.now × KeysIn book.now keys.now × (m ≡ length (rules_of book.now)) × (i < m) }
    ensures { result ≡ P.stands day (take i (rules_of book.now)) (dated_at (rules_of book.now) i) (drop (i + 1) (rules_of book.now)) }
{
    let own = day_before(book, tables::left_side(rules, i));
    if day < own {
        return false;
    }
    if replaced(book, rules, keys, own + 1, day, i, 0, i) {
        return false;
    }
    !replaced(book, rules, keys, own, day, i, i + 1, m)
}

// The sides of rule i of one table become those of rule k of another.
fn copy_sides(all: &[u32; 512], i: usize, rules: &mut [u32; 512], k: usize)
    requires { (i < 255) × (k < 255) }
    ensures { rules.new ≡ with_sides rules.old k (left_in all.now i) (right_in all.now i) }
{
    let left = tables::left_side(all, i);
    tables::put_sides(rules, k, left, tables::right_side(all, i));
}

// Keeps those of the m rules that stand on the day, in book order. How many they are.
pub fn keep(book: &[u8], day: u16, m: usize, rules: &mut [u32; 512]) -> usize
    requires { AllDated book.now rules.old × (m ≡ length (rules_of book.now)) }
    ensures { Kept book.now day rules.old rules.new result }
{
    // Rules are told to stand by the whole table, while those that do move to its front.
    let all = *rules;
    let mut keys = [0; 256];
    put_keys(book, &all, m, &mut keys);
    let today = casts::offset(day);
    let mut k = 0;
    for i in 0..m {
        if stands(book, &all, &keys, m, today, i) {
            copy_sides(&all, i, rules, k);
            k += 1;
        }
    }
    k
}
