// The symbols, sides and rules of a book, read from its packed bits (document 01, 'The book, bit by bit'; refusals 1, 4, 5, 7 and 8).
#![tactic(auto)]

ghost use Rattle.std.specs.Prelude.{◌≡◌, ◌+◌, ◌^◌, ◌<◌, ◌≤◌, length, ◌==◌};
ghost use Rattle.side.specs.Mask.{bit};
ghost use Rattle.side.specs.Promises.{SymbolAt, StandingAt, MetAt, StepAt, RestAt, LeftSideAt, RightSideAt, RuleAt};

use refusal::Refusal;
use std::num;

// A symbol of a book: an operator or a variable, by number, and the position behind it.
#[derive(Clone, Copy, Debug, PartialEq, Eq)]
pub enum Standing {
    Operator(u8, usize),
    Variable(u8, usize),
}

// A symbol that a side takes: its arity, the variables met by then, and the position behind it.
#[derive(Clone, Copy, Debug, PartialEq, Eq)]
pub struct Taken {
    pub arity: usize,
    pub met: u16,
    pub next: usize,
}

// A side that is read to its end: the variables met, and the position behind it.
#[derive(Clone, Copy, Debug, PartialEq, Eq)]
pub struct SideEnd {
    pub met: u16,
    pub next: usize,
}

// A rule: the position of its right side, and the position behind it.
#[derive(Clone, Copy, Debug, PartialEq, Eq)]
pub struct RuleEnd {
    pub right: usize,
    pub next: usize,
}

// The symbol at position at of a book of n operators: nine bits are an operator, or begin with the five of a variable.
pub fn read_symbol(book: &[u8], at: usize, n: usize) -> Result<Standing, Refusal>
    requires { length book.now ≤ 2 ^ 60 }
    ensures { SymbolAt book.now at n result }
{
    let w = bits::nine(book, at);
    let left = bits::left(book, at);
    if w < 256 {
        if left < 9 {
            return Err(Refusal::BookRunsOut);
        }
        if n <= w {
            return Err(Refusal::UnknownOperatorInRule);
        }
        return Ok(Standing::Operator(casts::byte(w), at + 9));
    }
    if left < 5 {
        return Err(Refusal::BookRunsOut);
    }
    Ok(Standing::Variable(casts::byte(w / 16 % 16), at + 5))
}

// The symbol at position at, where one stands.
pub fn symbol_at(book: &[u8], at: usize) -> Standing
    requires { length book.now ≤ 2 ^ 60 }
    ensures { StandingAt book.now at result }
{
    let w = bits::nine(book, at);
    if w < 256 {
        Standing::Operator(casts::byte(w), num::wrapping_add_usize(at, 9))
    } else {
        Standing::Variable(casts::byte(w / 16 % 16), num::wrapping_add_usize(at, 5))
    }
}

// Variables are kept as a mask: the bit v says whether v is among them.
pub fn has(mask: u16, v: u8) -> bool
    requires { v < 16 }
    ensures { result ≡ (bit v mask == 1) }
{
    (mask >> v) % 2 == 1
}

// The variables of mask, and v.
pub fn with(mask: u16, v: u8) -> u16
    requires { (v < 16) × (bit v mask ≡ 0) }
    ensures { result ≡ mask + 2 ^ v }
{
    mask + (1 << v)
}

// The variable v, met where those of mask were met: any may stand in a left side, only a known one in a right side.
fn meet(mask: u16, v: u8, left: bool, next: usize) -> Result<Taken, Refusal>
    requires { v < 16 }
    ensures { MetAt mask v left next result }
{
    if has(mask, v) {
        return Ok(Taken {
            arity: 0,
            met: mask,
            next,
        });
    }
    if left {
        return Ok(Taken {
            arity: 0,
            met: with(mask, v),
            next,
        });
    }
    Err(Refusal::RightSideAddsVariable)
}

// The symbol at position at, taken by a left or a right side where the variables of mask were met.
fn take(
    book: &[u8],
    at: usize,
    n: usize,
    operators: &[u8; 4352],
    mask: u16,
    left: bool,
) -> Result<Taken, Refusal>
    requires { length book.now ≤ 2 ^ 60 }
    ensures { StepAt book.now at n operators.now mask left result }
{
    match read_symbol(book, at, n)? {
        Standing::Operator(o, next) => Ok(Taken {
            arity: tables::arity(operators, o),
            met: mask,
            next,
        }),
        Standing::Variable(v, next) => meet(mask, v, left, next),
    }
}

// The rest of a side: due terms are to come, in up to room symbols.
fn read_rest(
    book: &[u8],
    at: usize,
    n: usize,
    operators: &[u8; 4352],
    mask: u16,
    left: bool,
    due: usize,
    room: usize,
) -> Result<SideEnd, Refusal>
    requires { (length book.now ≤ 2 ^ 60) × (due < 256) × (room < 256) }
    ensures { RestAt book.now at n operators.now mask left due room result }
{
    let mut next = at;
    let mut met = mask;
    let mut owed = due;
    for _free in (0..room).rev() {
        if owed == 0 {
            return Ok(SideEnd { met, next });
        }
        let taken = take(book, next, n, operators, met, left)?;
        owed = owed - 1 + taken.arity;
        met = taken.met;
        next = taken.next;
    }
    if owed == 0 {
        Ok(SideEnd { met, next })
    } else {
        Err(Refusal::SideTooLong)
    }
}

// A left side: an operator and up to 63 symbols more.
fn read_left(book: &[u8], at: usize, n: usize, operators: &[u8; 4352]) -> Result<SideEnd, Refusal>
    requires { length book.now ≤ 2 ^ 60 }
    ensures { LeftSideAt book.now at n operators.now result }
{
    match read_symbol(book, at, n)? {
        Standing::Variable(_, _) => Err(Refusal::LeftSideIsVariable),
        Standing::Operator(o, next) => {
            read_rest(
                book,
                next,
                n,
                operators,
                0,
                true,
                tables::arity(operators, o),
                63,
            )
        }
    }
}

// A right side: up to 64 symbols, with the variables of mask.
fn read_right(
    book: &[u8],
    at: usize,
    n: usize,
    operators: &[u8; 4352],
    mask: u16,
) -> Result<SideEnd, Refusal>
    requires { length book.now ≤ 2 ^ 60 }
    ensures { RightSideAt book.now at n operators.now mask result }
{
    read_rest(book, at, n, operators, mask, false, 1, 64)
}

// The rule at position at. What the answer means, RuleAt says in the paper's terms.
pub fn read_rule(
    book: &[u8],
    at: usize,
    n: usize,
    operators: &[u8; 4352],
) -> Result<RuleEnd, Refusal>
    requires { length book.now ≤ 2 ^ 60 }
    ensures { RuleAt book.now at n operators.now result }
{
    let left = read_left(book, at, n, operators)?;
    let right = read_right(book, left.next, n, operators, left.met)?;
    Ok(RuleEnd {
        right: left.next,
        next: right.next,
    })
}
