// The right side of a packed rule filled (document 01, 'Reduction one after the other'), each symbol with its size (document 02, Change 7);
// copies take their marks along (Change 10).
#![tactic(auto)]

ghost use Rattle.std.specs.Prelude.{◌≡◌, ◌≤◌, ◌^◌, length};
ghost use Rattle.tables.specs.Layout.{arity_in};
ghost use Rattle.term.specs.Present.{operators_in, marks_in, Sized};
ghost use Rattle.rule.specs.Packed.{binding};
ghost use Rattle.fill.specs.Sides.{symbol};
ghost use Rattle.fill.specs.Promises as F;

use side::Standing;

// A symbol of a side: an operator or a variable, by number.
#[derive(Clone, Copy)]
enum Code {
    Operator(u8),
    Variable(u8),
}

// A symbol of a side, decoded, its arity and the position behind it.
#[derive(Clone, Copy)]
struct Coded {
    code: Code,
    arity: usize,
    next: usize,
}

// The symbol at position at of a side.
fn decode_one(book: &[u8], at: usize, operators: &[u8; 4352]) -> Coded
    requires { length book.now ≤ 2 ^ 60 }
    ensures { F.SymbolDecoded book.now at operators.now result }
{
    match side::symbol_at(book, at) {
        Standing::Operator(o, next) => Coded {
            code: Code::Operator(o),
            arity: tables::arity(operators, o),
            next,
        },
        Standing::Variable(v, next) => Coded {
            code: Code::Variable(v),
            arity: 0,
            next,
        },
    }
}

// The codes of the side at position at of the book, and how many they are. A side has at most 64 symbols.
fn decode(book: &[u8], at: usize, operators: &[u8; 4352], codes: &mut [Code; 64]) -> usize
    requires { (length book.now ≤ 2 ^ 60) × (length codes.old ≡ 64) }
    ensures { F.Decoded book.now at operators.now result codes.new }
{
    let mut p = at;
    let mut due = 1;
    for n in 0..64 {
        if due == 0 {
            return n;
        }
        let coded = decode_one(book, p, operators);
        codes[n] = coded.code;
        due = due - 1 + coded.arity;
        p = coded.next;
    }
    64
}

// What the symbol of a code gives, in front of the last k symbols of scratch; how many they are then, unless they are more than the limit. An operator's
// arguments are among the k.
fn fill_one(
    code: Code,
    operators: &[u8; 4352],
    symbols: &[u32; 1024],
    limit: usize,
    bound: &[u16; 32],
    scratch: &mut [u32; 1024],
    k: usize,
) -> Option<usize>
    requires { F.Ready operators.now (operators_in symbols.now) (binding bound.now) (symbol code) k scratch.old × Sized (arity_in operators.now) symbols.now × (k ≤ limit) × (limit ≤ 1024) }
    ensures { F.SymbolFilled operators.now (operators_in symbols.now) (marks_in symbols.now) (binding bound.now) (symbol code) limit k scratch.old scratch.new result }
{
    match code {
        Code::Operator(o) => {
            if k == limit {
                return None;
            }
            term::put_sized(scratch, operators, 1023 - k, o);
            Some(k + 1)
        }
        Code::Variable(v) => {
            // Variable v's start stands at 2 * v, its size behind it.
            let i = 2 * usize::from(v);
            let size = usize::from(bound[i + 1]);
            if limit - k < size {
                return None;
            }
            let start = usize::from(bound[i]);
            term::copy(scratch, 1024 - k - size, symbols, start, size);
            Some(k + size)
        }
    }
}

// The filled right side at position at of the book, at the end of scratch, and how many symbols it has, unless they are more than the limit. It is filled
// from its last symbol to its first, so that an operator's arguments stand there when its size is counted.
pub fn fill(
    book: &[u8],
    at: usize,
    operators: &[u8; 4352],
    symbols: &[u32; 1024],
    limit: usize,
    bound: &[u16; 32],
    scratch: &mut [u32; 1024],
) -> Option<usize>
    requires { F.Fillable book.now at operators.now (operators_in symbols.now) (binding bound.now) × Sized (arity_in operators.now) symbols.now × (length scratch.old ≡ 1024) × (limit ≤ 1024) }
    ensures { F.SideFilled book.now at operators.now (operators_in symbols.now) (marks_in symbols.now) (binding bound.now) limit scratch.new result }
{
    let mut codes = [Code::Operator(0); 64];
    let n = decode(book, at, operators, &mut codes);
    let mut k = 0;
    for i in (0..n).rev() {
        k = fill_one(codes[i], operators, symbols, limit, bound, scratch, k)?;
    }
    Some(k)
}
