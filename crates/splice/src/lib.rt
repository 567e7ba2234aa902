// A part of the present term gives way to another: what stands behind moves, and the sizes of the symbols above are put right.
#![tactic(auto)]

ghost use Rattle.std.specs.Prelude.{◌≡◌, ◌+◌, ◌≤◌, ◌<◌, length};
ghost use Rattle.symbol.specs.Record as R;
ghost use Rattle.splice.specs.Promises as C;

// The record x at offset at, which takes the difference if its term holds the symbol at offset a: `less` symbols from there on go, `more` come.
fn regrown(x: u32, at: u32, a: u32, less: u32, more: u32) -> u32
    requires { (at < a) × (a + less ≤ 1024) × (more ≤ 1024) × (a < at + R.size x → (a + less ≤ at + R.size x) × (at + R.size x ≤ 1024)) }
    ensures { C.Regrown a (a + less) more at x result }
{
    if a < at + symbol::size32(x) {
        symbol::resized(x, less, more)
    } else {
        x
    }
}

// The sizes of the symbols above: each symbol before offset a is asked whether its term holds those from a to e. One pass with no early leave, all in as
// many bits as a record has, so that several are done at a time.
fn grow(symbols: &mut [u32; 1024], a: usize, e: usize, n: usize)
    requires { C.Holding symbols.old a e n }
    ensures { C.GrownBefore a e n symbols.old symbols.new }
{
    let first = a as u32;
    let less = (e - a) as u32;
    let more = n as u32;
    for i in 0..a {
        symbols[i] = regrown(symbols[i], i as u32, first, less, more);
    }
}

// The symbols from offset a to offset e of the first len give way to the last n of part.
pub fn replace(
    symbols: &mut [u32; 1024],
    len: usize,
    a: usize,
    e: usize,
    part: &[u32; 1024],
    n: usize,
)
    requires { C.Replaceable symbols.old len a e n × (length part.now ≡ 1024) }
    ensures { C.Replaced symbols.old len a e part.now n symbols.new part.now }
{
    // Nothing moves and no size changes where as many symbols come as go.
    if a + n != e {
        grow(symbols, a, e, n);
        symbols.copy_within(e..len, a + n);
    }
    term::copy(symbols, a, part, 1024 - n, n);
}
