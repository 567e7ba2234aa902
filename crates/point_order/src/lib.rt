// The rules of a saved point (document 02, Change 11) on the order of placing and on the idle queue, decided on the arrays that it was read into. Pending
// parts are taken off their units' stacks, the latest first: the job that a part's EXIT names must still stand.
#![tactic(auto)]

ghost use Rattle.std.specs.Prelude.{◌≡◌, ℕ, ◌+◌, ◌*◌, ◌<◌, ◌≤◌, length, drop, get_or};
ghost use Rattle.flat.specs.Tested as T;
ghost use Rattle.tables.specs.Layout as L;
ghost use Rattle.term.specs.Present.{length_in, operators_in};
ghost use Rattle.units.specs.Stacks as K;
ghost use Rattle.units.specs.Promises as U;
ghost use Rattle.placing.specs.Order.{OrderFits};
ghost use Rattle.point_order.specs.Passing as P;
ghost use Rattle.point_order.specs.Promises as C;

use tables::Step;
use units::{Exit, Frame, Job};

// How many frames unit u's stack has.
fn height(cells: &[u32; 8], u: usize) -> usize
    requires { (u < 8) × (K.base u ≤ K.end_in cells.now u) }
    ensures { result ≡ K.height_in cells.now u }
{
    casts::position(cells[u] % 65536) / 3 - u * units::frames::HEIGHT
}

// The heights of all stacks.
fn heights(cells: &[u32; 8], tops: &mut [usize; 8])
    requires { (length tops.old ≡ 8) × ((u : ℕ) → u < 8 → K.base u ≤ K.end_in cells.now u) }
    ensures { C.HeightsOf cells.now tops.new }
{
    for u in 0..8 {
        tops[u] = height(cells, u);
    }
}

// An EXIT among some frames, with its index.
#[derive(Clone, Copy)]
struct Held {
    index: usize,
    exit: Exit,
}

// The highest EXIT of the h frames from a place on.
fn highest_exit(work: &[u8], from: usize, h: usize) -> Option<Held>
    requires { (from + 3 * h ≤ length work.now) × (h ≤ K.height) }
    ensures { (result ≡ P.highest_exit (K.stack_of work.now from h)) × C.FoundBelow h result }
{
    for k in (0..h).rev() {
        if let Frame::Exit(exit) = units::frames::frame_at(work, from + 3 * k) {
            return Some(Held { index: k, exit });
        }
    }
    None
}

// Does the job that an EXIT names stand below the parts that were taken off its unit's stack? It does if none was.
fn stands(cells: &[u32; 8], tops: &[usize; 8], exit: Exit) -> bool
    requires { (exit.unit < 8) × (K.base exit.unit ≤ K.end_in cells.now exit.unit) }
    ensures { result ≡ P.stands cells.now tops.now exit.unit exit.index }
{
    let w = casts::index(exit.unit);
    let top = tops[w];
    if casts::offset(exit.index) < top {
        return true;
    }
    top == height(cells, w)
}

// The latest part that is left, of unit v, is taken off; whether the job that its EXIT names stands.
fn take_part(work: &[u8], cells: &[u32; 8], units: usize, tops: &mut [usize; 8], v: usize) -> bool
    requires { U.StacksFit (K.store work.now cells.now) × (units ≤ 8) × C.TopsFit tops.old }
    ensures { C.PartTaken (K.store work.now cells.now) units v tops.old tops.new result }
{
    if units <= v {
        return false;
    }
    match highest_exit(work, units::frames::base_of(v), tops[v]) {
        Some(held) => {
            tops[v] = held.index;
            stands(cells, tops, held.exit)
        }
        None => false,
    }
}

// Has no unit an EXIT below its top?
fn none_left(work: &[u8], units: usize, tops: &[usize; 8]) -> bool
    requires { (3 * (8 * K.height) ≤ length work.now) × (units ≤ 8) × C.TopsFit tops.now }
    ensures { result ≡ P.none_left work.now units tops.now }
{
    for v in (0..units).rev() {
        if highest_exit(work, units::frames::base_of(v), tops[v]).is_some() {
            return false;
        }
    }
    true
}

// The order of placing: every part is one of the units', each unit has as many as EXITs are on its stack, and each is later than the part that forked it.
pub fn order_good(work: &[u8], cells: &[u32; 8], units: usize, order: &[u16; 1024]) -> bool
    requires { U.StacksFit (K.store work.now cells.now) × (units ≤ 8) × OrderFits order.now }
    ensures { C.OrderDecided (K.store work.now cells.now) units order.now result }
{
    let mut tops = [0; 8];
    heights(cells, &mut tops);
    for k in (0..usize::from(order[0])).rev() {
        if !take_part(work, cells, units, &mut tops, usize::from(order[k + 1])) {
            return false;
        }
    }
    none_left(work, units, &tops)
}

// Unit u's rank.
fn rank(cells: &[u32; 8], u: usize) -> usize
    requires { u < 8 }
    ensures { result ≡ K.rank_in cells.now u }
{
    casts::position(cells[u] / 65536)
}

// How many of so many units have a rank.
fn of_rank(cells: &[u32; 8], count: usize, r: usize) -> usize
    requires { count ≤ 8 }
    ensures { C.RankCounted cells.now count r result }
{
    let mut n = 0;
    for v in (0..count).rev() {
        if rank(cells, v) == r {
            n += 1;
        }
    }
    n
}

// Is each of the ranks from 1 to n that of one unit?
fn each_once(cells: &[u32; 8], units: usize, n: usize) -> bool
    requires { units ≤ 8 }
    ensures { C.EachOnce cells.now units n result }
{
    for r in (0..n).rev() {
        if of_rank(cells, units, r + 1) != 1 {
            return false;
        }
    }
    true
}

// The operator of the symbol at an offset; 0 where the term has none.
fn operator_of(symbols: &[u32; 1024], a: usize) -> u8
    requires { (length symbols.now ≡ 1024) × (length_in symbols.now ≤ 1024) }
    ensures { result ≡ get_or (operators_in symbols.now) a 0 }
{
    if a < term::length(symbols) {
        term::operator_at(symbols, a)
    } else {
        0
    }
}

// Is step k of operator o a JOIN?
fn is_join(operators: &[u8; 4352], o: u8, k: u8) -> bool
    requires { L.Rowed operators.now o }
    ensures { result ≡ T.at_join (drop k (L.steps_in operators.now o)) }
{
    if 16 <= k {
        return false;
    }
    match tables::step_at(operators, o, k) {
        Step::Join(_) => true,
        _ => false,
    }
}

// Is the job's next order a JOIN with a count above 0?
fn job_waits(operators: &[u8; 4352], symbols: &[u32; 1024], job: Job) -> bool
    requires { C.Readable operators.now symbols.now }
    ensures { C.JobWaits operators.now symbols.now job result }
{
    if job.next == 0 {
        return false;
    }
    if job.count == 0 {
        return false;
    }
    let o = operator_of(symbols, casts::offset(job.offset));
    is_join(operators, o, job.next - 1)
}

// May unit u be idle: is on top of its stack SLEEP, or a JOIN with a count above 0?
fn waits(
    operators: &[u8; 4352],
    symbols: &[u32; 1024],
    work: &[u8],
    cells: &[u32; 8],
    u: usize,
) -> bool
    requires { C.Readable operators.now symbols.now × U.StacksFit (K.store work.now cells.now) × (u < 8) }
    ensures { C.UnitWaits operators.now symbols.now (K.store work.now cells.now) u result }
{
    let h = height(cells, u);
    if h == 0 {
        return false;
    }
    match units::frames::frame_at(work, units::frames::base_of(u) + 3 * (h - 1)) {
        Frame::Job(job) => job_waits(operators, symbols, job),
        Frame::Sleep => true,
        _ => false,
    }
}

// Unit u is busy, or it may be idle, its rank being n at most, which is how many of the units are idle.
fn rank_good(
    operators: &[u8; 4352],
    symbols: &[u32; 1024],
    work: &[u8],
    cells: &[u32; 8],
    units: usize,
    n: usize,
    u: usize,
) -> bool
    requires { C.Readable operators.now symbols.now × U.StacksFit (K.store work.now cells.now) × (units ≤ 8) × (u < units) × C.IdleAre cells.now units n }
    ensures { C.RankDecided operators.now symbols.now (K.store work.now cells.now) units u result }
{
    let r = rank(cells, u);
    if r == 0 {
        return true;
    }
    if n < r {
        return false;
    }
    waits(operators, symbols, work, cells, u)
}

// So it is for each of the units.
fn each_rank_good(
    operators: &[u8; 4352],
    symbols: &[u32; 1024],
    work: &[u8],
    cells: &[u32; 8],
    units: usize,
    n: usize,
) -> bool
    requires { C.Readable operators.now symbols.now × U.StacksFit (K.store work.now cells.now) × (units ≤ 8) × C.IdleAre cells.now units n }
    ensures { C.EachRankDecided operators.now symbols.now (K.store work.now cells.now) units result }
{
    for v in (0..units).rev() {
        if !rank_good(operators, symbols, work, cells, units, n, v) {
            return false;
        }
    }
    true
}

// The idle queue: the ranks of the idle units are 1 up to how many they are, each once, and only a unit that waits is idle.
pub fn ranks_good(
    operators: &[u8; 4352],
    symbols: &[u32; 1024],
    work: &[u8],
    cells: &[u32; 8],
    units: usize,
) -> bool
    requires { C.Readable operators.now symbols.now × U.StacksFit (K.store work.now cells.now) × (units ≤ 8) }
    ensures { C.RanksDecided operators.now symbols.now (K.store work.now cells.now) units result }
{
    let n = units - of_rank(cells, units, 0);
    if !each_rank_good(operators, symbols, work, cells, units, n) {
        return false;
    }
    each_once(cells, units, n)
}
