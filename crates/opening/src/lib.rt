// What stands behind a point's name, opened (document 02, Change 11): its book is read on its day, its run loaded into arrays, and tried by the rules.
#![tactic(auto)]

ghost use Rattle.std.specs.Prelude.{◌≡◌, ◌^◌, ◌≤◌, length};
ghost use Rattle.units.specs.Stacks.{store};
ghost use Rattle.point.specs.Saved.{arrays};
ghost use Rattle.opening.specs.Promises as C;

use point::Numbers;

// A run's numbers and the length of its book.
#[derive(Clone, Copy)]
pub struct Opened {
    pub numbers: Numbers,
    pub book: usize,
}

// Are the bits from position at on to the next whole byte 0?
fn padded(bytes: &[u8], at: usize) -> bool
    requires { length bytes.now ≤ 2 ^ 60 }
    ensures { result ≡ C.zero_to_byte bytes.now at }
{
    let n = at % 8;
    n == 0 || bits::field(bytes, at, 8 - n).is_none_or(|f| f.value == 0)
}

// The run behind the book, which has m bytes and n operators; none if the bytes break a rule.
fn open_run(
    part: &[u8],
    m: usize,
    n: usize,
    operators: &[u8; 4352],
    symbols: &mut [u32; 1024],
    work: &mut [u8],
    cells: &mut [u32; 8],
    order: &mut [u16; 1024],
) -> Option<Opened>
    requires { C.Room part.now operators.now symbols.old order.old (store work.old cells.old) × C.BookRead part.now operators.now m n }
    ensures { C.RunOpened part.now operators.now m n
        (arrays symbols.new work.new cells.new order.new) result }
{
    let run = point_reader::load(part, (4 + m) * 8, n, operators, symbols, work, cells, order)?;
    if !padded(part, run.next) {
        return None;
    }
    point_rules::meets(operators, symbols, work, cells, order, run.value).then_some(Opened {
        numbers: run.value,
        book: m,
    })
}

// The part of a slot behind the name: two bytes, the book's length; two bytes, the day; the book; the run's fields. None if they break a rule.
pub fn open(
    part: &[u8],
    operators: &mut [u8; 4352],
    rules: &mut [u32; 512],
    symbols: &mut [u32; 1024],
    work: &mut [u8],
    cells: &mut [u32; 8],
    order: &mut [u16; 1024],
) -> Option<Opened>
    requires { C.Room part.now operators.old symbols.old order.old (store work.old cells.old) }
    ensures { C.OpenedAs part.now operators.new rules.new
        (arrays symbols.new work.new cells.new order.new) result }
{
    let m = stream::pair(part, 0);
    let day = stream::pair(part, 2) as u16;
    let n = book::read_book(part.get(4..4 + m)?, day, operators, rules).ok()?;
    open_run(part, m, n, operators, symbols, work, cells, order)
}
