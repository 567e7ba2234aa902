// A packed rule against the present term: its left side matched
// (document 01, 'Reduction one after the other'; document 02, Change 4).
#![tactic(auto)]

ghost use Rattle.std.specs.Prelude.{◌≡◌, ◌+◌, ◌*◌, ◌<◌, ◌≤◌, ◌^◌, length, get_or, take, drop, unwrap_or};
ghost use Rattle.flat.specs.Symbols as flat;
ghost use Rattle.symbol.specs.Record as S;
ghost use Rattle.tables.specs.Layout.{arity_in};
ghost use Rattle.term.specs.Present.{length_in, operators_in, Sized};
ghost use Rattle.rule.specs.Packed.{binding};
ghost use Rattle.rule.specs.Promises as R;

use side::Standing;

// A rule that matches, by its index, and the offset behind the term.
#[derive(Clone, Copy, Debug, PartialEq, Eq)]
pub struct Match {
    pub rule: usize,
    pub end: usize,
}

// A symbol of a side that goes on: its arity, the position behind it, and how many symbols of the term it takes.
#[derive(Clone, Copy)]
struct Taken {
    arity: usize,
    next: usize,
    size: usize,
}

// A side has at most 64 symbols, the first of which is the root.
const BELOW_ROOT: usize = 63;

// A binding is kept as an array: variable v's start at 2 * v, its size behind it.
fn start_of(bound: &[u16; 32], v: u8) -> usize
    requires { v < 16 }
    ensures { (result ≡ get_or bound.now (2 * v) 0) × (result < 65536) }
{
    usize::from(bound[2 * usize::from(v)])
}

fn size_of(bound: &[u16; 32], v: u8) -> usize
    requires { v < 16 }
    ensures { (result ≡ get_or bound.now (2 * v + 1) 0) × (result < 65536) }
{
    usize::from(bound[2 * usize::from(v) + 1])
}

// No variable is bound.
fn clear(bound: &mut [u16; 32])
    ensures { R.HoldsBinding bound.new flat.blank }
{
    *bound = [0; 32];
}

// The variable v is bound to the n symbols from offset at on.
fn bind(bound: &mut [u16; 32], v: u8, at: usize, n: usize)
    requires { (length bound.old ≡ 32) × (v < 16) × (at + n ≤ 1024) }
    ensures { R.HoldsBinding bound.new (flat.bind v (flat.segment at n) (binding bound.old)) }
{
    let i = 2 * usize::from(v);
    bound[i] = at as u16;
    bound[i + 1] = n as u16;
}

// Is o the symbol at offset at?
fn stands(symbols: &[u32; 1024], len: usize, at: usize, o: u8) -> bool
    requires { (length symbols.now ≡ 1024) × (len ≤ 1024) }
    ensures { result ≡ R.head_is o (drop at (S.operators (take len symbols.now))) }
{
    at < len && o == term::operator_at(symbols, at)
}

// How many symbols the term has that begins at an offset; none behind the last symbol.
fn part_size(symbols: &[u32; 1024], len: usize, offset: usize) -> usize
    requires { (length symbols.now ≡ 1024) × (len ≤ 1024) }
    ensures { result ≡ R.part_size symbols.now len offset }
{
    if offset < len {
        term::size_at(symbols, offset)
    } else {
        0
    }
}

// The variable v against the term at an offset: met first it is bound to the term, met again as many symbols there must be those it is bound to. A bound
// variable has at least one. How many symbols the term has; none if they are others.
fn meet(
    v: u8,
    symbols: &[u32; 1024],
    len: usize,
    offset: usize,
    bound: &mut [u16; 32],
) -> Option<usize>
    requires { (v < 16) × R.PartIn symbols.now len offset × R.BoundWithin bound.old len }
    ensures { R.VariableMet (S.operators (take len symbols.now)) (R.part_size symbols.now len offset) v offset len (binding bound.old) bound.new result }
{
    let size = size_of(bound, v);
    if size == 0 {
        let n = part_size(symbols, len, offset);
        bind(bound, v, offset, n);
        return Some(n);
    }
    if term::same(symbols, len, start_of(bound, v), offset, size) {
        Some(size)
    } else {
        None
    }
}

// The symbol at position at of a left side, against the term at an offset; none where they differ.
fn match_one(
    book: &[u8],
    at: usize,
    operators: &[u8; 4352],
    symbols: &[u32; 1024],
    len: usize,
    offset: usize,
    bound: &mut [u16; 32],
) -> Option<Taken>
    requires { (length book.now ≤ 2 ^ 60) × R.OffsetIn (arity_in operators.now) symbols.now len offset × R.BoundWithin bound.old len }
    ensures { R.SymbolMatched book.now at operators.now (S.operators (take len symbols.now)) offset len (binding bound.old) bound.new result }
{
    match side::symbol_at(book, at) {
        Standing::Operator(o, next) => {
            if !stands(symbols, len, offset, o) {
                return None;
            }
            Some(Taken {
                arity: tables::arity(operators, o),
                next,
                size: 1,
            })
        }
        Standing::Variable(v, next) => {
            let size = meet(v, symbols, len, offset, bound)?;
            Some(Taken {
                arity: 0,
                next,
                size,
            })
        }
    }
}

// The rest of a left side, at position at of the book, against the term from an offset on: due terms are to come, in up to 63 symbols, and bindings come
// on top of those that are there. The offset behind what agrees; none where something differs.
fn match_rest(
    book: &[u8],
    at: usize,
    operators: &[u8; 4352],
    symbols: &[u32; 1024],
    len: usize,
    offset: usize,
    due: usize,
    bound: &mut [u16; 32],
) -> Option<usize>
    requires { (length book.now ≤ 2 ^ 60) × R.OffsetIn (arity_in operators.now) symbols.now len offset × R.BoundWithin bound.old len × (due < 256) }
    ensures { R.RestMatched book.now at operators.now due 63 (S.operators (take len symbols.now)) offset (binding bound.old) (binding bound.new) result × R.AgreesWithin len (binding bound.new) result }
{
    let mut p = at;
    let mut q = offset;
    let mut owed = due;
    for _ in 0..BELOW_ROOT {
        if owed == 0 {
            break;
        }
        let taken = match_one(book, p, operators, symbols, len, q, bound)?;
        owed = owed - 1 + taken.arity;
        p = taken.next;
        q += taken.size;
    }
    Some(q)
}

// The symbol at offset at, if one stands there.
fn symbol_at(symbols: &[u32; 1024], len: usize, at: usize) -> Option<u8>
    requires { (length symbols.now ≡ 1024) × (len ≤ 1024) }
    ensures { unwrap_or result 256 ≡ R.head_or (drop at (S.operators (take len symbols.now))) }
{
    if at < len {
        Some(term::operator_at(symbols, at))
    } else {
        None
    }
}

// Does an operator other than x stand at position at?
fn other_stands(book: &[u8], at: usize, x: Option<u8>) -> bool
    requires { length book.now ≤ 2 ^ 60 }
    ensures { R.OtherStands book.now at (unwrap_or x 256) result }
{
    let w = bits::nine(book, at);
    w < 256 && Some(w as u8) != x
}

// The left side at a position, whose root is that of the term at an offset, against that term: the offset behind the term, or none where they differ. Most
// differ in the symbol behind the root, which is told before anything is bound.
pub fn match_left(
    book: &[u8],
    left: usize,
    operators: &[u8; 4352],
    symbols: &[u32; 1024],
    offset: usize,
    bound: &mut [u16; 32],
) -> Option<usize>
    requires { (length book.now ≤ 2 ^ 60) × (left < 2 ^ 32) × Sized (arity_in operators.now) symbols.now × (offset < length_in symbols.now) }
    ensures { R.LeftTried book.now left operators.now (operators_in symbols.now) offset (length_in symbols.now) (binding bound.new) result }
{
    let len = term::length(symbols);
    let due = tables::arity(operators, term::operator_at(symbols, offset));
    let at = left + 9;
    if 0 < due && other_stands(book, at, symbol_at(symbols, len, offset + 1)) {
        return None;
    }
    clear(bound);
    match_rest(book, at, operators, symbols, len, offset + 1, due, bound)
}
