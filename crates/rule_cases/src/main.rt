// Cases from standard input, each 2 bytes book length, 2 bytes line length, 2 bytes offset (most significant byte first), the book and the line.
// For each, a line with the first rule that matches the line's term at the offset, the offset behind that term, the filled right side's size and
// symbols, and the new term, in hexadecimal.
#![tactic(auto)]

ghost use Rattle.std.specs.Prelude.{◌≡◌, ◌<◌, ◌≤◌, length, take};
ghost use Rattle.tables.specs.Layout.{arity_in};
ghost use Rattle.term.specs.Present.{operators_in, Sized};
ghost use Rattle.rule.specs.Packed.{binding};
ghost use Rattle.fill.specs.Promises.{Fillable};
ghost use Rattle.net.specs.Net.{book_by, NetOf};
ghost use Rattle.lookup.specs.Promises.{Present};

use cases::{say, say_front, say_number, say_refused};
use whole::{Limits, Place, Progress, Whole};

fn say_found(i: usize, end: usize) {
    say(b"rule ");
    say_number(i);
    say(b" end ");
    say_number(end);
}

// The operators of symbols, in hexadecimal.
fn say_operators(symbols: &[u32]) {
    for x in symbols {
        say_front(&[symbol::operator(*x)], 1);
    }
}

// The right side at a position, filled, as the last symbols: says how many, or `over` for more than 1,024, of which none are told.
fn try_fill(
    bytes: &[u8],
    right: usize,
    operators: &[u8; 4352],
    symbols: &[u32; 1024],
    bound: &[u16; 32],
    filled: &mut [u32; 1024],
) -> usize
    requires { Fillable bytes.now right operators.now (operators_in symbols.now) (binding bound.now) × Sized (arity_in operators.now) symbols.now × (length filled.old ≡ 1024) }
    ensures { result ≤ 1024 }
{
    say(b" size ");
    let Some(size) = fill::fill(bytes, right, operators, symbols, 1024, bound, filled) else {
        say(b"over");
        return 0;
    };
    say_number(size);
    size
}

// WHOLE of the term at the offset, by the only unit: the filled right side, and the new term.
fn carry_out(
    bytes: &[u8],
    operators: &[u8; 4352],
    net: &[u8],
    symbols: &mut [u32; 1024],
    offset: usize,
    filled: &[u32],
)
    requires { Present bytes.now operators.now net.now symbols.old offset }
{
    let operator = term::operator_at(symbols, offset);
    let mut scratch = [0u32; 1024];
    let mut work = [0u8; 24624];
    let mut units = [0u32; 8];
    units::start(&mut work, &mut units);
    match whole::rewrite(
        bytes,
        operators,
        net,
        symbols,
        &mut scratch,
        &mut work,
        &units,
        Place {
            unit: 0,
            offset,
            operator,
        },
        Progress {
            rewrites: 0,
            granted: 0,
            kept: 0,
        },
        Limits {
            units: 1,
            budget: 1,
        },
    ) {
        Whole::Missed => say(b" missed"),
        Whole::Spent => say(b" spent"),
        Whole::Full => say(b" full"),
        Whole::Rewrote => {
            say(b" ");
            say_operators(filled);
            say(b" ");
            say_operators(&symbols[..term::length(symbols)]);
        }
    }
}

// The rewrite at the offset.
fn try_rewrite(
    bytes: &[u8],
    operators: &[u8; 4352],
    net: &[u8],
    symbols: &mut [u32; 1024],
    offset: usize,
)
    requires { Present bytes.now operators.now net.now symbols.old offset }
{
    let Some(first) = net::root(net, term::operator_at(symbols, offset)) else {
        say(b"none");
        return;
    };
    // The search's stack, then the right side.
    let mut filled = [0u32; 1024];
    let mut bound = [0; 32];
    let Some(m) = lookup::find(
        bytes,
        operators,
        net,
        symbols,
        offset,
        first,
        &mut filled,
        &mut bound,
    ) else {
        say(b"none");
        return;
    };
    let right = net::right_side(net, m.rule);
    say_found(m.rule, m.end);
    let size = try_fill(bytes, right, operators, symbols, &bound, &mut filled);
    carry_out(
        bytes,
        operators,
        net,
        symbols,
        offset,
        &filled[1024 - size..],
    );
}

// The line at the front of space; how many bytes.
fn load(line: &[u8], space: &mut [u8; 1024]) -> usize
    requires { (length line.now ≤ 1024) × (length space.old ≡ 1024) }
    ensures { (result ≡ length line.now) × (take result space.new ≡ line.now) × (length space.new ≡ 1024) }
{
    let n = line.len();
    space[..n].copy_from_slice(line);
    n
}

// A line against a book of n operators that is read.
fn try_line(bytes: &[u8], n: usize, operators: &[u8; 4352], net: &[u8], line: &[u8], offset: usize)
    requires { (length bytes.now ≤ 65536) × NetOf bytes.now operators.now net.now × (n ≡ length (book_by bytes.now net.now).operators) }
{
    match line::check_line(line, n, operators) {
        Err(e) => say_refused(e.number()),
        Ok(()) => {
            let mut space = [0u8; 1024];
            let len = load(line, &mut space);
            if len < offset {
                say(b"outside");
                return;
            }
            if len == offset {
                say(b"none");
                return;
            }
            let mut symbols = [0u32; 1024];
            term::load(&mut symbols, operators, &space, len);
            try_rewrite(bytes, operators, net, &mut symbols, offset);
        }
    }
}

// A book, which is undated: any day will do.
fn try_book(bytes: &[u8], line: &[u8], offset: usize)
    requires { length bytes.now ≤ 65536 }
{
    let mut operators = [0u8; 4352];
    let mut rules = [0u32; 512];
    match book::read_book(bytes, 0, &mut operators, &mut rules) {
        Err(e) => say_refused(e.number()),
        Ok(n) => {
            let mut net = [0u8; net::NET];
            insertion::build(bytes, &operators, &rules, &mut net);
            try_line(bytes, n, &operators, &net, line, offset)
        }
    }
}

// A book and a line of these sizes. False where the input ends before them.
fn try_sizes(size: usize, len: usize, offset: usize) -> bool
    requires { (size < 65536) × (len < 65536) }
{
    let mut bytes = io::large_buffer();
    let mut line = io::large_buffer();
    if !cases::read_front(&mut bytes, size) || !cases::read_front(&mut line, len) {
        return false;
    }
    try_book(&bytes[..size], &line[..len], offset);
    say(b"\n");
    true
}

// The next case. False at the end of the input.
fn try_case() -> bool {
    let mut head = [0u8; 6];
    if !cases::read_front(&mut head, 6) {
        return false;
    }
    try_sizes(
        cases::number(head[0], head[1]),
        cases::number(head[2], head[3]),
        cases::number(head[4], head[5]),
    )
}

// The turns are counted to a number that no input uses up, so that the loop ends.
fn main() {
    for _ in 0..u64::MAX {
        if !try_case() {
            break;
        }
    }
}
