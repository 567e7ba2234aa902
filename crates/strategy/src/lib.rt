// An operator's strategy: read from the book's bits, settled, and laid out as the steps of a VISIT (document 01, 'The book, bit by bit',
// 'Strategies, settled' and 'Orders of a unit').
#![tactic(auto)]

ghost use Rattle.std.specs.Prelude.{◌≡◌, [], ◌∷◌, ◌++◌, false, ◌+◌, ◌-◌, ◌^◌, ◌<◌, ◌≤◌, length, get_or, take, drop, replicate};
ghost use Rattle.std.proofs.lemmas.List.Edits.{sets};
ghost use Rattle.paper.specs.Strategy.{default, has};
ghost use Rattle.paper.specs.Reader.{allowed, grouped_after};
ghost use Rattle.paper.specs.Writer.{numbers};
ghost use Rattle.strategy.specs.Settling.{ends_in_zero, closed, keeping, opening, settling, AtFront};
ghost use Rattle.strategy.specs.Codes.{placing, listed, codes};
ghost use Rattle.strategy.specs.Promises.{turn, NumbersAt, GivenAt, StrategyAt, Layable, LaidOut};

use refusal::Refusal;

// How long the settled list is, and the position behind the strategy.
#[derive(Clone, Copy, Debug, PartialEq, Eq)]
pub struct Listed {
    pub len: usize,
    pub next: usize,
}

// May the item v, of 4 bits, stand with a group open or not, last or not? 0 is the whole term, 1 to 7 an argument, 8 opens a group, 9 closes it, 10 to 15
// are refused.
#[tactic(auto, unfolding(paper::specs::Reader::allowed))]
fn is_allowed(v: u8, arity: u8, grouped: bool, last: bool) -> bool
    ensures { result ≡ allowed arity grouped last v }
{
    match v {
        0 => !grouped,
        1..=7 => !last && v <= arity,
        8 => !last && !grouped,
        9 => !last && grouped,
        10..=15 => false,
        _ => false,
    }
}

// Is a group open behind the item v?
#[tactic(auto, unfolding(paper::specs::Reader::grouped_after))]
fn is_grouped_after(grouped: bool, v: u8) -> bool
    ensures { result ≡ grouped_after grouped v }
{
    match v {
        8 => true,
        9 => false,
        _ => grouped,
    }
}

// The item v, where left more follow: whether a group is open behind it.
fn item(v: u8, arity: u8, grouped: bool, left: usize) -> Result<bool, Refusal>
    ensures { result ≡ turn arity grouped left v }
{
    if is_allowed(v, arity, grouped, left == 0) {
        Ok(is_grouped_after(grouped, v))
    } else {
        Err(Refusal::BadStrategy)
    }
}

// Reads count items from position at on; the position behind them.
fn read_numbers(
    book: &[u8],
    at: usize,
    arity: u8,
    count: usize,
    items: &mut [u8; 32],
) -> Result<usize, Refusal>
    requires { (length book.now ≤ 2 ^ 60) × (count ≤ 31) × (length items.old ≡ 32) }
    ensures { NumbersAt book.now at arity count items.new result }
{
    let mut pos = at;
    let mut grouped = false;
    for k in 0..count {
        let field = reader::field(book, pos, 4)?;
        let v = casts::low_byte(field.value);
        grouped = item(v, arity, grouped, count - k - 1)?;
        items[k] = v;
        pos = field.next;
    }
    Ok(pos)
}

// The default list: 1 2 .. arity 0.
fn put_default(arity: u8, items: &mut [u8; 32]) -> usize
    requires { (arity < 8) × (length items.old ≡ 32) }
    ensures { AtFront (numbers (default arity)) result items.new × (result ≡ arity + 1) }
{
    let n = casts::index(arity);
    for i in 0..n {
        items[i] = casts::byte(i + 1);
    }
    items[n] = 0;
    n + 1
}

// Puts v behind the list.
fn push(kept: &mut [u8; 32], len: usize, v: u8) -> usize
    requires { (length kept.old ≡ 32) × (len < 32) }
    ensures { AtFront (take len kept.old ++ (v ∷ [])) result kept.new × (result ≡ len + 1)
        × (drop (len + 1) kept.new ≡ drop (len + 1) kept.old) }
{
    kept[len] = v;
    len + 1
}

fn ends_in_zero(kept: &[u8; 32], len: usize) -> bool
    requires { (length kept.now ≡ 32) × (len ≤ 32) }
    ensures { result ≡ ends_in_zero (take len kept.now) }
{
    len != 0 && kept[len - 1] == 0
}

// Does v stand in the list?
fn found(kept: &[u8; 32], len: usize, v: u8) -> bool
    requires { (length kept.now ≡ 32) × (len ≤ 32) }
    ensures { result ≡ has v (take len kept.now) }
{
    kept[..len].contains(&v)
}

// Closes the group that opened at index group: a group of none is dropped, a group of one becomes its argument.
fn close(kept: &mut [u8; 32], len: usize, group: usize) -> usize
    requires { (length kept.old ≡ 32) × (len < 32) × (group ≤ len) }
    ensures { AtFront (closed (take len kept.old) group) result kept.new × (result ≤ len + 1) × (group ≤ result)
        × (drop (len + 1) kept.new ≡ drop (len + 1) kept.old) }
{
    if len == group + 1 {
        return group;
    }
    if len == group + 2 {
        kept[group] = kept[group + 1];
        return group + 1;
    }
    push(kept, len, 9)
}

// The number at i follows the len numbers that are kept: no 0 is kept behind a 0, no argument a second time.
fn keep(kept: &mut [u8; 32], i: usize, len: usize, group: usize) -> usize
    requires { (length kept.old ≡ 32) × (i < 32) × (len ≤ i) × (group ≤ len) }
    ensures { AtFront (keeping (take len kept.old) group (get_or kept.old i 0)) result kept.new
        × (result ≤ len + 1) × (group ≤ result) × (drop (len + 1) kept.new ≡ drop (len + 1) kept.old) }
{
    let v = kept[i];
    match v {
        0 => {
            if ends_in_zero(kept, len) {
                return len;
            }
            push(kept, len, 0)
        }
        1..=7 => {
            if found(kept, len, v) {
                return len;
            }
            push(kept, len, v)
        }
        8 => push(kept, len, 8),
        _ => close(kept, len, group),
    }
}

// Where the last group opened: an 8 opens one.
fn opened(v: u8, len: usize, group: usize) -> usize
    requires { group ≤ len }
    ensures { (result ≡ opening len group v) × (result ≤ len) }
{
    if v == 8 {
        return len;
    }
    group
}

// Settles the first count numbers, in place.
fn settle(items: &mut [u8; 32], count: usize) -> usize
    requires { (length items.old ≡ 32) × (count ≤ 31) }
    ensures { AtFront (settling [] 0 (take count items.old)) result items.new × (result ≤ count) }
{
    let mut len = 0;
    let mut group = 0;
    for i in 0..count {
        group = opened(items[i], len, group);
        len = keep(items, i, len, group);
    }
    len
}

// A strategy that is given: its length and its items.
fn read_given(book: &[u8], at: usize, arity: u8, items: &mut [u8; 32]) -> Result<Listed, Refusal>
    requires { (length book.now ≤ 2 ^ 60) × (arity < 8) × (length items.old ≡ 32) }
    ensures { GivenAt book.now at arity items.new result }
{
    let count = reader::field(book, at, 5)?;
    let n = casts::offset(count.value);
    let next = read_numbers(book, count.next, arity, n, items)?;
    Ok(Listed {
        len: settle(items, n),
        next,
    })
}

// The strategy of an operator, at the position behind its arity.
pub fn read_strategy(
    book: &[u8],
    at: usize,
    arity: u8,
    items: &mut [u8; 32],
) -> Result<Listed, Refusal>
    requires { (length book.now ≤ 2 ^ 60) × (arity < 8) × (length items.old ≡ 32) }
    ensures { StrategyAt book.now at arity items.new result }
{
    let given = reader::field(book, at, 1)?;
    if given.value == 0 {
        return Ok(Listed {
            len: put_default(arity, items),
            next: given.next,
        });
    }
    read_given(book, given.next, arity, items)
}

// The code of a number's step, if it has one; whether a group is open behind it, and how many FORKs the group has so far.
#[derive(Clone, Copy, Debug, PartialEq, Eq)]
pub struct Placed {
    pub code: Option<u8>,
    pub grouped: bool,
    pub forks: u8,
}

// The number v, where next follows: the last argument of a group is visited, the others are forked.
#[tactic(auto, unfolding(crate::specs::Codes::placing))]
fn place(v: u8, next: u8, grouped: bool, forks: u8) -> Placed
    requires { forks < 63 }
    ensures { result ≡ placing v next grouped forks }
{
    match v {
        0 => Placed {
            code: Some(tables::WHOLE),
            grouped,
            forks,
        },
        1..=7 => {
            if grouped && next != 9 {
                return Placed {
                    code: Some(tables::fork_code(v - 1)),
                    grouped,
                    forks: forks + 1,
                };
            }
            Placed {
                code: Some(tables::visit_code(v - 1)),
                grouped,
                forks,
            }
        }
        8 => Placed {
            code: None,
            grouped: true,
            forks: 0,
        },
        _ => Placed {
            code: Some(tables::join_code(forks)),
            grouped: false,
            forks: 0,
        },
    }
}

// Writes a code, where there is one, and answers the place behind it.
fn put_code(operators: &mut [u8; 4352], at: usize, code: Option<u8>) -> usize
    requires { at < 4352 }
    ensures { (operators.new ≡ sets operators.old at (listed code)) × (result ≡ at + length (listed code)) }
{
    let Some(c) = code else {
        return at;
    };
    operators[at] = c;
    at + 1
}

// Writes the codes of the first len numbers from base on, and answers the place behind them.
fn put_codes(items: &[u8; 32], len: usize, operators: &mut [u8; 4352], base: usize) -> usize
    requires { (length items.now ≡ 32) × (len ≤ 31) × (base + 16 ≤ 4352) × (length (codes false 0 len items.now) ≤ 15) }
    ensures { (operators.new ≡ sets operators.old base (codes false 0 len items.now))
        × (result ≡ base + length (codes false 0 len items.now)) }
{
    let mut at = base;
    let mut grouped = false;
    let mut forks = 0;
    for i in 0..len {
        let p = place(items[i], items[i + 1], grouped, forks);
        at = put_code(operators, at, p.code);
        grouped = p.grouped;
        forks = p.forks;
    }
    at
}

// Writes 0s up to the place end.
fn clear(operators: &mut [u8; 4352], from: usize, end: usize)
    requires { (from ≤ end) × (end ≤ 4352) }
    ensures { operators.new ≡ sets operators.old from (replicate (end - from) 0) }
{
    operators[from..end].fill(0);
}

// Lays out the settled list of operator o: its codes, and 0s up to where those of the next operator begin.
pub fn lay_out(items: &[u8; 32], len: usize, operators: &mut [u8; 4352], o: usize)
    requires { Layable items.now len operators.old o }
    ensures { LaidOut items.now len operators.old o operators.new }
{
    let end = put_codes(items, len, operators, tables::row_start(o));
    clear(operators, end, tables::row_start(o + 1));
}
