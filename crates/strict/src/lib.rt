// The strict profile (document 02, Change 13): a book is admitted if no term is matched by two rules, so that the order of its rules is free. 24 is told
// for what it does not decide, 25 with the first two rules that match one term, both after the book's own numbers.
#![tactic(auto)]

ghost use Rattle.std.specs.Prelude.{◌≡◌, ◌<◌, ◌≤◌, length};
ghost use Rattle.paper.specs.Strict as P;
ghost use Rattle.tables.specs.Tables.{TablesOf, book_of};
ghost use Rattle.strict.specs.Spec.{verdict};
ghost use Rattle.strict.specs.Promises as C;

use refusal::Refusal;
use side::{Standing, Taken};

// The symbol at position at of a left side, where the variables of mask were met; none if it is one of these variables.
fn take(book: &[u8], at: usize, operators: &[u8; 4352], mask: u16) -> Option<Taken>
    requires { length book.now ≤ 65536 }
    ensures { C.SymbolMet book.now at operators.now mask result }
{
    match side::symbol_at(book, at) {
        Standing::Operator(o, next) => Some(Taken {
            arity: tables::arity(operators, o),
            met: mask,
            next,
        }),
        Standing::Variable(v, next) => {
            if side::has(mask, v) {
                return None;
            }
            Some(Taken {
                arity: 0,
                met: side::with(mask, v),
                next,
            })
        }
    }
}

// Has the left side at a position no variable twice?
fn is_linear(book: &[u8], at: usize, operators: &[u8; 4352]) -> bool
    requires { length book.now ≤ 65536 }
    ensures { C.LinearAt book.now at operators.now result }
{
    let mut p = at;
    let mut met = 0;
    let mut due = 1;
    let mut room: usize = 64;
    while 0 < due && 0 < room {
        let Some(taken) = take(book, p, operators, met) else {
            return false;
        };
        due = due - 1 + taken.arity;
        met = taken.met;
        p = taken.next;
        room -= 1;
    }
    true
}

// Has no left side of the m rules a variable twice?
fn all_linear(book: &[u8], operators: &[u8; 4352], rules: &[u32; 512], m: usize) -> bool
    requires { TablesOf book.now operators.now rules.now × (length book.now ≤ 65536) × (m ≡ length (book_of book.now rules.now).rules) }
    ensures { result ≡ P.all_linear (book_of book.now rules.now).rules }
{
    for i in 0..m {
        if !is_linear(book, tables::left_side(rules, i), operators) {
            return false;
        }
    }
    true
}

// Is one of the n operators of arity 0?
fn has_constant(operators: &[u8; 4352], n: usize) -> bool
    requires { n < 256 }
    ensures { C.ConstantAmong operators.now n result }
{
    for o in 0..n {
        if tables::arity(operators, o as u8) == 0 {
            return true;
        }
    }
    false
}

// The first of m rules behind rule i whose left side is not apart from its left side.
fn second(rows: &[u64; 1024], i: usize, m: usize) -> Option<usize>
    requires { (i < m) × (m < 256) }
    ensures { C.Second rows.now i m result }
{
    for j in i + 1..m {
        if !apart::apart(rows, i, j) {
            return Some(j);
        }
    }
    None
}

// The first two of m rules whose left sides are not apart.
fn first_pair(rows: &[u64; 1024], m: usize) -> Option<(u8, u8)>
    requires { m < 256 }
    ensures { C.FirstPair rows.now m result }
{
    for i in 0..m {
        if let Some(j) = second(rows, i, m) {
            return Some((i as u8, j as u8));
        }
    }
    None
}

// An undated book of n operators.
fn judge(
    book: &[u8],
    n: usize,
    operators: &[u8; 4352],
    rules: &[u32; 512],
) -> Result<Option<(u8, u8)>, Refusal>
    requires { C.Undated book.now n operators.now rules.now }
    ensures { verdict result ≡ P.strict_book (book_of book.now rules.now) }
{
    let m = tables::count(rules);
    if !all_linear(book, operators, rules, m) || !has_constant(operators, n) {
        return Err(Refusal::OutsideStrictProfile);
    }
    let mut rows = [0u64; 1024];
    apart::find(book, operators, rules, m, &mut rows);
    Ok(first_pair(&rows, m))
}

// A book of at most 65,536 bytes. No rule of a dated book is asked for, so any day will do.
fn judge_short(book: &[u8]) -> Result<Option<(u8, u8)>, Refusal>
    requires { length book.now ≤ 65536 }
    ensures { verdict result ≡ P.strict_of book.now }
{
    let mut operators = [0u8; tables::OPERATORS];
    let mut rules = [0u32; tables::RULES];
    let n = book::read_book(book, 0, &mut operators, &mut rules)?;
    if book::is_dated(book) {
        Err(Refusal::OutsideStrictProfile)
    } else {
        judge(book, n, &operators, &rules)
    }
}

// Any book: the first two rules, by their numbers in book order, that match one term; none if it is admitted. What stands behind a book's first 65,536 bytes does not change what it reads as.
pub fn strict_book(book: &[u8]) -> Result<Option<(u8, u8)>, Refusal>
    ensures { verdict result ≡ P.strict_of book.now }
{
    if 65536 < book.len() {
        return judge_short(&book[0..65536]);
    }
    judge_short(book)
}
