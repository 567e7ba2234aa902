// The book's writer (document 01, 'The program and its page'; refusals 1 to 9 but 6, and 16): operators with their settled lists, rules as they stand. The
// form is kept, days included (document 02, Change 5).
#![tactic(auto)]

ghost use Rattle.std.specs.Prelude.{◌≡◌, ◌+◌, ◌-◌, ◌*◌, ◌%◌, ◌^◌, ◌<◌, ◌≤◌, length, take};
ghost use Rattle.paper.specs.Bits.{to_bits};
ghost use Rattle.paper.specs.Writer.{concat, same, numbers};
ghost use Rattle.paper.specs.Strategy.{default};
ghost use Rattle.side.specs.Promises.{bits_at};
ghost use Rattle.writer.specs.Spec.{Answers};
ghost use Rattle.writer.specs.Promises.{BitsPut, list_bits, OperatorWritten, OperatorsWritten, FormIs, RulesEnd, RulesWritten};
ghost use Rattle.writer.specs.Promises.{AcceptedBook, BookWritten};

use refusal::Refusal;

// The positions behind what is read and behind what is written.
#[derive(Clone, Copy, Debug, PartialEq, Eq)]
struct Places {
    from: usize,
    to: usize,
}

// Where a book's count stands in its bits, and how many bits of a day stand before each of its rules.
#[derive(Clone, Copy, Debug, PartialEq, Eq)]
struct Form {
    count: usize,
    day: usize,
}

// The 4 low bits: all of an item's.
fn low(x: u8) -> u16
    ensures { (result ≡ x % 16) × (result < 16) }
{
    (x % 16) as u16
}

fn less(x: usize, y: usize) -> usize
    ensures { result ≡ x - y }
{
    if y < x { x - y } else { 0 }
}

// Up to 16 of the bits that are left.
fn some_of(left: usize) -> usize
    requires { 0 < left }
    ensures { (0 < result) × (result ≤ 16) × (result ≤ left) }
{
    if left < 16 { left } else { 16 }
}

// Writes a field where it fits, and answers the position behind it.
fn emit(out: &mut [u8], at: usize, n: usize, v: u16) -> usize
    requires { (n ≤ 16) × (v < 2 ^ n) × (at ≤ 2 ^ 40) }
    ensures { BitsPut at (to_bits n v) out.old out.new result × (result ≡ at + n) }
{
    let end = at + n;
    if (end + 7) / 8 <= out.len() {
        bits::put(out, at, n, v);
        return end;
    }
    end
}

// Are the first len numbers the default list: 1 2 .. arity 0?
fn is_default(arity: u8, items: &[u8; 32], len: usize) -> bool
    requires { (arity < 8) × (length items.now ≡ 32) × (len ≤ 31) }
    ensures { result ≡ same (take len items.now) (numbers (default arity)) }
{
    let n = casts::index(arity);
    if len != n + 1 {
        return false;
    }
    for i in 0..n {
        if casts::index(items[i]) != i + 1 {
            return false;
        }
    }
    items[n] == 0
}

// Writes the first len numbers, 4 bits each.
fn write_items(items: &[u8; 32], len: usize, out: &mut [u8], at: usize) -> usize
    requires { (length items.now ≡ 32) × (len ≤ 31) × (at ≤ 2 ^ 39) }
    ensures { BitsPut at (concat (to_bits 4) (take len items.now)) out.old out.new result × (result ≤ at + 124) }
{
    let mut to = at;
    for i in 0..len {
        to = emit(out, to, 4, low(items[i]));
    }
    to
}

// Writes a settled list: the bit 0 for the default, else the bit 1, its length and its numbers.
fn write_strategy(arity: u8, items: &[u8; 32], len: usize, out: &mut [u8], at: usize) -> usize
    requires { (arity < 8) × (length items.now ≡ 32) × (len ≤ 31) × (at ≤ 2 ^ 38) }
    ensures { BitsPut at (list_bits arity (take len items.now)) out.old out.new result × (result ≤ at + 130) }
{
    if is_default(arity, items, len) {
        return emit(out, at, 1, 0);
    }
    let p = emit(out, at, 1, 1);
    let q = emit(out, p, 5, casts::short(len));
    write_items(items, len, out, q)
}

// Writes the operator that is read at position at.
fn write_operator(book: &[u8], at: usize, out: &mut [u8], to: usize) -> Places
    requires { (length book.now ≤ 65536) × (to ≤ 2 ^ 37) }
    ensures { OperatorWritten book.now at to out.old out.new result.from result.to × (result.to ≤ to + 133) }
{
    let Ok(field) = reader::field(book, at, 3) else {
        return Places { from: at, to };
    };
    let arity = casts::low_byte(field.value);
    let mut items = [0u8; 32];
    let Ok(list) = strategy::read_strategy(book, field.next, arity, &mut items) else {
        return Places { from: at, to };
    };
    let q = emit(out, to, 3, field.value);
    Places {
        from: list.next,
        to: write_strategy(arity, &items, list.len, out, q),
    }
}

// Writes the n operators from position at on.
fn write_operators(book: &[u8], at: usize, n: usize, out: &mut [u8], to: usize) -> Places
    requires { (length book.now ≤ 65536) × (n < 256) × (to ≤ 2 ^ 36) }
    ensures { OperatorsWritten book.now at n to out.old out.new result.from result.to × (result.to ≤ to + 133 * 255) }
{
    let mut places = Places { from: at, to };
    for _o in 0..n {
        places = write_operator(book, places.from, out, places.to);
    }
    places
}

// The form of a book: a dated one has a byte 0 before its count.
fn form_of(book: &[u8]) -> Form
    ensures { FormIs book.now result }
{
    if book::is_dated(book) {
        return Form { count: 8, day: 16 };
    }
    Form { count: 0, day: 0 }
}

// The position behind the m rules from position at on, each with a day of so many bits before it.
fn rules_end(
    book: &[u8],
    at: usize,
    day: usize,
    n: usize,
    operators: &[u8; 4352],
    m: usize,
) -> usize
    requires { (length book.now ≤ 65536) × (day ≤ 16) }
    ensures { RulesEnd book.now at day n operators.now m result }
{
    let mut p = at;
    for _i in 0..m {
        let Ok(left) = reader::field(book, p, day) else {
            return p;
        };
        let Ok(rule) = side::read_rule(book, left.next, n, operators) else {
            return p;
        };
        p = rule.next;
    }
    p
}

// Writes k bits of the book as they stand.
fn copy(book: &[u8], from: usize, k: usize, out: &mut [u8], to: usize) -> usize
    requires { (length book.now ≤ 65536) × (k ≤ 8 * length book.now - from) × (to ≤ 2 ^ 37) }
    ensures { BitsPut to (take k (bits_at book.now from)) out.old out.new result × (result ≤ to + k) }
{
    let mut p = from;
    let mut q = to;
    let mut left = k;
    while 0 < left {
        let n = some_of(left);
        let Ok(field) = reader::field(book, p, n) else {
            return q;
        };
        q = emit(out, q, n, field.value);
        p = field.next;
        left -= n;
    }
    q
}

// Writes the rules that are read at position at: their count, and their days and sides, as they stand.
fn write_rules(
    book: &[u8],
    at: usize,
    day: usize,
    n: usize,
    operators: &[u8; 4352],
    out: &mut [u8],
    to: usize,
) -> usize
    requires { (length book.now ≤ 65536) × (day ≤ 16) × (to ≤ 2 ^ 37) }
    ensures { RulesWritten book.now at day n operators.now to out.old out.new result × (result ≤ to + 524288) }
{
    let Ok(count) = reader::field(book, at, 8) else {
        return to;
    };
    let m = casts::offset(count.value);
    let end = rules_end(book, count.next, day, n, operators, m);
    let k = less(bits::left(book, at), bits::left(book, end));
    copy(book, at, k, out, to)
}

// Writes an accepted book of n operators, and answers how many bytes it takes.
fn write_accepted(book: &[u8], n: usize, operators: &[u8; 4352], out: &mut [u8]) -> usize
    requires { (length book.now ≤ 65536) × AcceptedBook book.now n operators.now }
    ensures { BookWritten book.now out.old out.new result }
{
    let form = form_of(book);
    let count = form.count;
    let day = form.day;
    let start = emit(out, 0, count, 0);
    let at = emit(out, start, 8, casts::short(n));
    let places = write_operators(book, count + 8, n, out, at);
    let from = places.from;
    let to = places.to;
    let end = write_rules(book, from, day, n, operators, out, to);
    let all = emit(out, end, (8 - end % 8) % 8, 0);
    all / 8
}

// The written book where it fits, and its length, which is found by writing it nowhere, to bytes of no use.
fn write_fitting(
    book: &[u8],
    n: usize,
    operators: &[u8; 4352],
    nowhere: &mut [u8],
    output: &mut [u8],
) -> Result<usize, Refusal>
    requires { (length book.now ≤ 65536) × AcceptedBook book.now n operators.now }
    ensures { Answers book.now output.old output.new result }
{
    let size = write_accepted(book, n, operators, nowhere);
    if output.len() < size {
        return Err(Refusal::OutputTooShort);
    }
    let length = write_accepted(book, n, operators, output);
    Ok(length)
}

// A book of at most 65,536 bytes. No rule is asked for, so any day will do.
fn write_short(book: &[u8], output: &mut [u8]) -> Result<usize, Refusal>
    requires { length book.now ≤ 65536 }
    ensures { Answers book.now output.old output.new result }
{
    let mut operators = [0u8; 4352];
    let mut rules = [0u32; 512];
    let mut nowhere = [0u8; 1];
    let n = book::read_book(book, 0, &mut operators, &mut rules)?;
    write_fitting(book, n, &operators, &mut nowhere, output)
}

// Any book and any output. What stands behind a book's first 65,536 bytes does not change what it reads as.
pub fn write_book(book: &[u8], output: &mut [u8]) -> Result<usize, Refusal>
    ensures { Answers book.now output.old output.new result }
{
    if 65536 < book.len() {
        return write_short(&book[0..65536], output);
    }
    write_short(book, output)
}
