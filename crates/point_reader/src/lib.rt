// The packed fields of a saved run (document 02, Change 11), read into the arrays of a run. What can't be a point that keeps the rules is not loaded, so that the
// arrays stand whatever the bytes are; all other rules are tried on the arrays.
#![tactic(auto)]

ghost use Rattle.std.specs.Prelude.{◌≡◌, ◌+◌, ◌*◌, ◌^◌, ◌<◌, ◌≤◌, length};
ghost use Rattle.tables.specs.Layout.{arity_in};
ghost use Rattle.units.specs.Stacks.{base, store};
ghost use Rattle.units.specs.Promises.{EightRegions, StacksFit};
ghost use Rattle.point_reader.specs.Loading as L;
ghost use Rattle.point.specs.Saved.{arrays};
ghost use Rattle.point_reader.specs.Promises as C;

use point::Numbers;
use units::{Exit, Frame, Job, Unit};

// What is read, and the position behind it.
#[derive(Clone, Copy)]
pub struct Taken<T> {
    pub value: T,
    pub next: usize,
}

// What all parts of a run have counted.
#[derive(Clone, Copy)]
struct Counts {
    rewrites: u32,
    entries: usize,
    granted: usize,
    kept: usize,
}

// The numbers in front, and how many symbols follow.
#[derive(Clone, Copy)]
struct Head {
    numbers: Numbers,
    symbols: usize,
}

// The field of 32 bits at position at.
fn field32(bytes: &[u8], at: usize) -> Option<Taken<usize>>
    requires { length bytes.now ≤ 2 ^ 60 }
    ensures { C.NumberAt bytes.now at 32 result }
{
    let high = bits::field(bytes, at, 16)?;
    let low = bits::field(bytes, high.next, 16)?;
    Some(Taken {
        value: usize::from(high.value) * 65536 + usize::from(low.value),
        next: low.next,
    })
}

// The field of 64 bits at position at.
fn field64(bytes: &[u8], at: usize) -> Option<Taken<usize>>
    requires { length bytes.now ≤ 2 ^ 60 }
    ensures { C.NumberAt bytes.now at 64 result }
{
    let high = field32(bytes, at)?;
    let low = field32(bytes, high.next)?;
    Some(Taken {
        value: high.value * 4294967296 + low.value,
        next: low.next,
    })
}

// What is counted. The rewrites of a point are within its budget, so they have 32 bits.
fn read_counts(bytes: &[u8], at: usize) -> Option<Taken<Counts>>
    requires { length bytes.now ≤ 2 ^ 60 }
    ensures { C.CountsTaken bytes.now at result }
{
    let rewrites = field64(bytes, at)?;
    if 4294967295 < rewrites.value {
        return None;
    }
    let entries = field64(bytes, rewrites.next)?;
    let granted = field64(bytes, entries.next)?;
    let kept = field64(bytes, granted.next)?;
    Some(Taken {
        value: Counts {
            rewrites: rewrites.value as u32,
            entries: entries.value,
            granted: granted.value,
            kept: kept.value,
        },
        next: kept.next,
    })
}

// The numbers of a run, and how many symbols follow.
fn read_numbers(bytes: &[u8], at: usize) -> Option<Taken<Head>>
    requires { length bytes.now ≤ 2 ^ 60 }
    ensures { C.HeadTaken bytes.now at result }
{
    let n = bits::field(bytes, at, 3)?;
    let budget = field32(bytes, n.next)?;
    let counts = read_counts(bytes, budget.next)?;
    let m = bits::field(bytes, counts.next, 10)?;
    let numbers = Numbers {
        units: usize::from(n.value) + 1,
        budget: budget.value as u32,
        rewrites: counts.value.rewrites,
        entries: counts.value.entries,
        granted: counts.value.granted,
        kept: counts.value.kept,
    };
    Some(Taken {
        value: Head {
            numbers,
            symbols: usize::from(m.value) + 1,
        },
        next: m.next,
    })
}

// The operators of m symbols, to the front of the line.
fn read_symbols(bytes: &[u8], at: usize, m: usize, line: &mut [u8; 1024]) -> Option<usize>
    requires { (length bytes.now ≤ 2 ^ 60) × (m ≤ 1024) × (length line.old ≡ 1024) }
    ensures { C.SymbolsTaken bytes.now at m line.new result }
{
    let mut p = at;
    for i in 0..m {
        let o = bits::field(bytes, p, 8)?;
        line[i] = o.value as u8;
        p = o.next;
    }
    Some(p)
}

// The marks of m symbols, none of which is marked before.
fn read_marks(bytes: &[u8], at: usize, m: usize, symbols: &mut [u32; 1024]) -> Option<usize>
    requires { (length bytes.now ≤ 2 ^ 60) × (m ≤ 1024) × (length symbols.old ≡ 1024) × C.Unmarked m symbols.old }
    ensures { C.MarksTaken bytes.now at m symbols.old symbols.new result }
{
    let mut p = at;
    for i in 0..m {
        let b = bits::field(bytes, p, 1)?;
        if b.value != 0 {
            term::mark(symbols, i);
        }
        p = b.next;
    }
    Some(p)
}

// The present term: m symbols, which must be one term of the n operators, and their marks.
fn read_term(
    bytes: &[u8],
    at: usize,
    m: usize,
    n: usize,
    operators: &[u8; 4352],
    symbols: &mut [u32; 1024],
) -> Option<usize>
    requires { (length bytes.now ≤ 2 ^ 60) × (m ≤ 1024) × (length symbols.old ≡ 1024) }
    ensures { C.TermTaken (arity_in operators.now) n bytes.now at m symbols.new result }
{
    let mut line = [0u8; 1024];
    let p = read_symbols(bytes, at, m, &mut line)?;
    line::check_line(&line[..m], n, operators).ok()?;
    term::load(symbols, operators, &line, m);
    read_marks(bytes, p, m, symbols)
}

fn read_job(bytes: &[u8], at: usize) -> Option<Taken<Frame>>
    requires { length bytes.now ≤ 2 ^ 60 }
    ensures { C.JobTaken bytes.now at result }
{
    let offset = bits::field(bytes, at, 10)?;
    let next = bits::field(bytes, offset.next, 4)?;
    let count = bits::field(bytes, next.next, 3)?;
    Some(Taken {
        value: Frame::Job(Job {
            offset: offset.value,
            next: next.value as u8,
            count: count.value as u8,
        }),
        next: count.next,
    })
}

fn read_exit(bytes: &[u8], at: usize) -> Option<Taken<Frame>>
    requires { length bytes.now ≤ 2 ^ 60 }
    ensures { C.ExitTaken bytes.now at result }
{
    let unit = bits::field(bytes, at, 3)?;
    let index = bits::field(bytes, unit.next, 11)?;
    Some(Taken {
        value: Frame::Exit(Exit {
            unit: unit.value as u8,
            index: index.value,
        }),
        next: index.next,
    })
}

fn read_frame(bytes: &[u8], at: usize) -> Option<Taken<Frame>>
    requires { length bytes.now ≤ 2 ^ 60 }
    ensures { C.FrameTaken bytes.now at result }
{
    let kind = bits::field(bytes, at, 2)?;
    let next = kind.next;
    match kind.value {
        0 => read_job(bytes, next),
        1 => read_exit(bytes, next),
        2 => Some(Taken {
            value: Frame::Sleep,
            next,
        }),
        _ => Some(Taken {
            value: Frame::Bingo,
            next,
        }),
    }
}

// The h frames of a stack, whose lowest stands at base: the top one comes first.
fn read_stack(bytes: &[u8], at: usize, h: usize, base: usize, work: &mut [u8]) -> Option<usize>
    requires { (length bytes.now ≤ 2 ^ 60) × (h ≤ 1026) × (base + 3 * h ≤ length work.old) }
    ensures { C.StackTaken bytes.now at h base work.old work.new result }
{
    let mut p = at;
    for left in (0..h).rev() {
        let frame = read_frame(bytes, p)?;
        units::frames::put_frame(work, base + 3 * left, frame.value);
        p = frame.next;
    }
    Some(p)
}

// Unit u. A stack higher than its region is no point's.
fn read_unit(
    bytes: &[u8],
    at: usize,
    u: usize,
    work: &mut [u8],
    cells: &mut [u32; 8],
) -> Option<usize>
    requires { (length bytes.now ≤ 2 ^ 60) × (u < 8) × StacksFit (store work.old cells.old) }
    ensures { C.UnitTaken bytes.now at u (store work.old cells.old) (store work.new cells.new) result }
{
    let rank = bits::field(bytes, at, 3)?;
    let h = bits::field(bytes, rank.next, 11)?;
    let height = usize::from(h.value);
    if units::frames::HEIGHT < height {
        return None;
    }
    let base = units::frames::base_of(u);
    units::store(
        cells,
        u,
        Unit {
            rank: usize::from(rank.value),
            end: base + 3 * height,
        },
    );
    read_stack(bytes, h.next, height, base, work)
}

// Every unit is busy, with no frame.
fn empty_stacks(cells: &mut [u32; 8])
    requires { length cells.old ≡ 8 }
    ensures { C.EmptyBelow 8 cells.new }
{
    for u in 0..8 {
        units::store(
            cells,
            u,
            Unit {
                rank: 0,
                end: units::frames::base_of(u),
            },
        );
    }
}

// The n units; those above have no frame.
fn read_units(
    bytes: &[u8],
    at: usize,
    n: usize,
    work: &mut [u8],
    cells: &mut [u32; 8],
) -> Option<usize>
    requires { (length bytes.now ≤ 2 ^ 60) × (n ≤ 8) × EightRegions (store work.old cells.old) }
    ensures { C.UnitsTaken bytes.now at n (store work.new cells.new) result }
{
    empty_stacks(cells);
    let mut p = at;
    for u in 0..n {
        p = read_unit(bytes, p, u, work, cells)?;
    }
    Some(p)
}

// The units of k pending parts: the latest comes first, and stands last.
fn read_placed(bytes: &[u8], at: usize, k: usize, order: &mut [u16; 1024]) -> Option<usize>
    requires { (length bytes.now ≤ 2 ^ 60) × (k < 1024) × (length order.old ≡ 1024) }
    ensures { C.PlacedTaken bytes.now at k order.old order.new result }
{
    let mut p = at;
    for i in (0..k).rev() {
        let v = bits::field(bytes, p, 3)?;
        order[i + 1] = v.value;
        p = v.next;
    }
    Some(p)
}

// The order of placing.
fn read_order(bytes: &[u8], at: usize, order: &mut [u16; 1024]) -> Option<usize>
    requires { (length bytes.now ≤ 2 ^ 60) × (length order.old ≡ 1024) }
    ensures { C.OrderTaken bytes.now at order.new result }
{
    let k = bits::field(bytes, at, 10)?;
    order[0] = k.value;
    read_placed(bytes, k.next, usize::from(k.value), order)
}

// The fields at bit position at, of a book of n operators: the saved run that they are, in the arrays, and the position behind them; or that they are none that
// can be loaded. Nothing depends on what the arrays held.
pub fn load(
    bytes: &[u8],
    at: usize,
    n: usize,
    operators: &[u8; 4352],
    symbols: &mut [u32; 1024],
    work: &mut [u8],
    cells: &mut [u32; 8],
    order: &mut [u16; 1024],
) -> Option<Taken<Numbers>>
    requires bytes_len_bound { (length bytes.now ≤ 2 ^ 60) × (length symbols.old ≡ 1024) × (length order.old ≡ 1024) }
    requires eight_regions { EightRegions (store work.old cells.old) }
    ensures { L.LoadedAt (arity_in operators.now) n bytes.now at
        (arrays symbols.new work.new cells.new order.new) result }
{
    let head = read_numbers(bytes, at)?;
    let numbers = head.value.numbers;
    let p = read_term(bytes, head.next, head.value.symbols, n, operators, symbols)?;
    let q = read_units(bytes, p, numbers.units, work, cells)?;
    let next = read_order(bytes, q, order)?;
    Some(Taken {
        value: numbers,
        next,
    })
}
