// A book in one pass over its bytes: the refusal, or the tables that a run needs (document 01, 'The book, bit by bit'; refusals 1 to 9 but 6). Of a
// dated book (document 02, Change 5) the table keeps the rules that stand on the day.
#![tactic(auto)]

ghost use Rattle.std.specs.Prelude.{◌≡◌, ◌<◌, ◌≤◌, length};
ghost use Rattle.paper.specs.Dated.{is_dated};
ghost use Rattle.book.specs.Promises.{OperatorTaken, OperatorsTaken, DayPassed, RuleTaken, RulesTaken, EndsAt, TailAt, begins, AllRead, StandingKept, BookAt};

use refusal::Refusal;

// Operator o, at position at: its arity and its steps. Here and below, the position behind what is read.
fn read_operator(
    book: &[u8],
    at: usize,
    o: usize,
    operators: &mut [u8; 4352],
) -> Result<usize, Refusal>
    requires { (length book.now ≤ 65536) × (o < 255) × (length operators.old ≡ 4352) }
    ensures { OperatorTaken book.now at o operators.old operators.new result }
{
    let field = reader::field(book, at, 3)?;
    let arity = casts::low_byte(field.value);
    let mut items = [0u8; 32];
    let list = strategy::read_strategy(book, field.next, arity, &mut items)?;
    strategy::lay_out(&items, list.len, operators, o);
    tables::put_arity(operators, o, arity);
    Ok(list.next)
}

// The n operators from position at on.
fn read_operators(
    book: &[u8],
    at: usize,
    n: usize,
    operators: &mut [u8; 4352],
) -> Result<usize, Refusal>
    requires { (length book.now ≤ 65536) × (n ≤ 255) × (length operators.old ≡ 4352) }
    ensures { OperatorsTaken book.now at n operators.new result }
{
    let mut p = at;
    for o in 0..n {
        p = read_operator(book, p, o, operators)?;
    }
    Ok(p)
}

// The position behind the day, which a dated book has before each rule.
fn pass_day(book: &[u8], at: usize, dated: bool) -> Result<usize, Refusal>
    requires { length book.now ≤ 65536 }
    ensures { DayPassed book.now at dated result }
{
    if !dated {
        return Ok(at);
    }
    let day = reader::field(book, at, 16)?;
    Ok(day.next)
}

// Rule i, at position at: the positions of its sides.
fn read_rule(
    book: &[u8],
    at: usize,
    dated: bool,
    n: usize,
    operators: &[u8; 4352],
    i: usize,
    rules: &mut [u32; 512],
) -> Result<usize, Refusal>
    requires { (length book.now ≤ 65536) × (i < 255) }
    ensures { RuleTaken book.now at dated n operators.now i rules.old rules.new result }
{
    let left = pass_day(book, at, dated)?;
    let end = side::read_rule(book, left, n, operators)?;
    tables::put_sides(rules, i, left, end.right);
    Ok(end.next)
}

// The m rules from position at on.
fn read_rules(
    book: &[u8],
    at: usize,
    dated: bool,
    n: usize,
    operators: &[u8; 4352],
    m: usize,
    rules: &mut [u32; 512],
) -> Result<usize, Refusal>
    requires { (length book.now ≤ 65536) × (m ≤ 255) }
    ensures { RulesTaken book.now at dated n operators.now m rules.new result }
{
    *rules = [0; 512];
    let mut p = at;
    for i in 0..m {
        p = read_rule(book, p, dated, n, operators, i, rules)?;
    }
    Ok(p)
}

// Does the book end here, but for the zero bits that fill its last byte?
fn ends(book: &[u8], at: usize) -> bool
    requires { length book.now ≤ 65536 }
    ensures { EndsAt book.now at result }
{
    let k = bits::left(book, at);
    if 8 <= k {
        return false;
    }
    let Ok(padding) = reader::field(book, at, k) else {
        return false;
    };
    padding.value == 0
}

// The rules and the end, behind n operators. How many rules there are.
fn read_tail(
    book: &[u8],
    at: usize,
    dated: bool,
    n: usize,
    operators: &[u8; 4352],
    rules: &mut [u32; 512],
) -> Result<usize, Refusal>
    requires { length book.now ≤ 65536 }
    ensures { TailAt book.now at dated n operators.now rules.new result }
{
    let count = reader::field(book, at, 8)?;
    let m = casts::offset(count.value);
    let end = read_rules(book, count.next, dated, n, operators, m, rules)?;
    if ends(book, end) {
        Ok(m)
    } else {
        Err(Refusal::BookLeftOver)
    }
}

// Keeps those of the m rules that stand on the day: all of an undated book, which ignores it. How many they are.
fn keep_standing(book: &[u8], dated: bool, day: u16, m: usize, rules: &mut [u32; 512]) -> usize
    requires { (length book.now ≤ 65536) × AllRead book.now dated day m rules.old }
    ensures { StandingKept book.now day result rules.new }
{
    if dated {
        return standing::keep(book, day, m, rules);
    }
    m
}

// Is it a dated book, which begins with a byte 0?
pub fn is_dated(book: &[u8]) -> bool
    ensures { result ≡ is_dated book.now }
{
    book.first() == Some(&0)
}

// Where the book begins behind that byte.
fn start(dated: bool) -> usize
    ensures { result ≡ begins dated }
{
    if dated { 8 } else { 0 }
}

// The book: the first refusal in reading order, or the tables of its operators and of its rules on a day, and how many operators there are. What the
// answer means, BookAt says.
pub fn read_book(
    book: &[u8],
    day: u16,
    operators: &mut [u8; 4352],
    rules: &mut [u32; 512],
) -> Result<usize, Refusal>
    requires { (length book.now ≤ 65536) × (length operators.old ≡ 4352) }
    ensures { BookAt book.now day operators.new rules.new result }
{
    let dated = is_dated(book);
    let count = reader::field(book, start(dated), 8)?;
    let n = casts::offset(count.value);
    if n == 0 {
        return Err(Refusal::NoOperator);
    }
    let next = read_operators(book, count.next, n, operators)?;
    let m = read_tail(book, next, dated, n, operators, rules)?;
    tables::put_day(rules, day);
    let k = keep_standing(book, dated, day, m, rules);
    tables::put_count(rules, k);
    Ok(n)
}
