// The present term as an array of symbols in preorder, each with its size and its mark: where its parts stand, two compared, one copied, one marked.
#![tactic(auto)]

ghost use Rattle.std.specs.Prelude.{true, false, map, ◌≡◌, ◌+◌, ◌-◌, ◌<◌, ◌≤◌, length, get_or, take};
ghost use Rattle.flat.specs.Rules.{spells};
ghost use Rattle.flat.specs.Sizes as flat;
ghost use Rattle.symbol.specs.Record as R;
ghost use Rattle.tables.specs.Layout.{arity_in};
ghost use Rattle.term.specs.Present.{length_in, Hops};
ghost use Rattle.term.specs.Promises.{Compared, Pasted, MarkedAt, PutSized, Loaded};

// How many symbols the term has.
pub fn length(symbols: &[u32; 1024]) -> usize
    ensures { result ≡ length_in symbols.now }
{
    symbol::size(symbols[0])
}

pub fn operator_at(symbols: &[u32; 1024], at: usize) -> u8
    requires { at < 1024 }
    ensures { result ≡ R.operator (get_or symbols.now at 0) }
{
    symbol::operator(symbols[at])
}

pub fn size_at(symbols: &[u32; 1024], at: usize) -> usize
    requires { at < 1024 }
    ensures { result ≡ R.size (get_or symbols.now at 0) }
{
    symbol::size(symbols[at])
}

pub fn is_marked_at(symbols: &[u32; 1024], at: usize) -> bool
    requires { at < 1024 }
    ensures { result ≡ R.marked (get_or symbols.now at 0) }
{
    symbol::is_marked(symbols[at])
}

// Marks the term at offset at.
pub fn mark(symbols: &mut [u32; 1024], at: usize)
    requires { at < 1024 }
    ensures { MarkedAt at symbols.old symbols.new }
{
    symbols[at] = symbol::mark(symbols[at]);
}

// The offset of argument i of the term at offset at; where it has i arguments, the offset behind it.
pub fn argument(symbols: &[u32; 1024], at: usize, i: usize) -> usize
    requires { (length symbols.now ≡ 1024) × (at < 1024) × Hops (R.sizes symbols.now) i (at + 1) }
    ensures { result ≡ flat.hop (R.sizes symbols.now) i (at + 1) }
{
    let mut p = at + 1;
    for _ in 0..i {
        p += symbol::size(symbols[p]);
    }
    p
}

// Are the n symbols from offset a on those from offset b on? They are not where fewer than n stand from b on.
pub fn same(symbols: &[u32; 1024], len: usize, a: usize, b: usize, n: usize) -> bool
    requires { (length symbols.now ≡ 1024) × (len ≤ 1024) × (a + n ≤ len) × (b ≤ len) }
    ensures { Compared (R.operators (take len symbols.now)) a b n result }
{
    if len - b < n {
        return false;
    }
    // Kept as a loop: that all symbols before the one compared are equal is its invariant (document 02, Change 6), which `all` doesn't promise.
    for i in 0..n {
        if symbol::operator(symbols[a + i]) != symbol::operator(symbols[b + i]) {
            return false;
        }
    }
    true
}

// The n symbols of part from offset `from` on, into symbols at offset at.
pub fn copy(symbols: &mut [u32; 1024], at: usize, part: &[u32; 1024], from: usize, n: usize)
    requires { (length symbols.old ≡ 1024) × (length part.now ≡ 1024) × (at + n ≤ 1024) × (from + n ≤ 1024) }
    ensures { Pasted symbols.old at part.now from n symbols.new }
{
    // Kept as a loop: `copy_from_slice` would have the static library need `memmove` from outside.
    for j in 0..n {
        symbols[at + j] = part[from + j];
    }
}

// Puts the operator o at offset at, without mark, with its size by those of its arguments, which stand behind it.
pub fn put_sized(symbols: &mut [u32; 1024], operators: &[u8; 4352], at: usize, o: u8)
    requires { (length symbols.old ≡ 1024) × (at < 1024) × Hops (R.sizes symbols.old) (arity_in operators.now o) (at + 1) × (flat.hop (R.sizes symbols.old) (arity_in operators.now o) (at + 1) ≤ 1024) }
    ensures { PutSized (arity_in operators.now o) at o symbols.old symbols.new }
{
    let end = argument(symbols, at, tables::arity(operators, o));
    symbols[at] = symbol::make(o, end - at);
}

// The size of the term at offset at, of operator o: that of its first argument, which stands behind it, is `behind`.
fn size_before(
    symbols: &[u32; 1024],
    operators: &[u8; 4352],
    at: usize,
    o: u8,
    behind: usize,
) -> usize
    requires { (length symbols.now ≡ 1024) × (at < 1024) × Hops (R.sizes symbols.now) (arity_in operators.now o) (at + 1) × (flat.hop (R.sizes symbols.now) (arity_in operators.now o) (at + 1) ≤ 1024) × (0 < arity_in operators.now o → behind ≡ R.size (get_or symbols.now (at + 1) 0)) }
    ensures { result ≡ flat.hop (R.sizes symbols.now) (arity_in operators.now o) (at + 1) - at }
{
    let n = tables::arity(operators, o);
    if n == 0 {
        return 1;
    }
    // The first argument is passed without a look at it.
    argument(symbols, at + behind, n - 1) - at
}

// The operators of a line that is one term, none marked, with their sizes, from the last to the first.
pub fn load(symbols: &mut [u32; 1024], operators: &[u8; 4352], line: &[u8; 1024], n: usize)
    requires { (length symbols.old ≡ 1024) × (length line.now ≡ 1024) × (n ≤ 1024) × (spells (arity_in operators.now) 1 (take n line.now) ≡ true) }
    ensures { Loaded (arity_in operators.now) (take n line.now) (map (λ o. false) (take n line.now)) n symbols.new }
{
    // The size of the symbol at i, kept: to load what was just stored is slow.
    let mut behind = 0;
    for i in (0..n).rev() {
        behind = size_before(symbols, operators, i, line[i], behind);
        symbols[i] = symbol::make(line[i], behind);
    }
}
