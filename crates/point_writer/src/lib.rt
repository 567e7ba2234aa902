// A saved run in arrays, written as packed fields (document 02, Change 11), as flat/specs/Form says.
#![tactic(auto)]

ghost use Rattle.std.specs.Prelude.{◌≡◌, ◌+◌, ◌*◌, ◌^◌, ◌≤◌, ◌<◌, length, take};
ghost use Rattle.paper.specs.Bits.{to_bits};
ghost use Rattle.paper.specs.Sound.{All};
ghost use Rattle.paper.specs.Writer.{concat};
ghost use Rattle.flat.specs.Form.{write_frame, write_mark, write_unit, write_saved};
ghost use Rattle.symbol.specs.Record.{operators, marks};
ghost use Rattle.units.specs.Frames.{flat};
ghost use Rattle.units.specs.Stacks.{stack_of, store, units_in, unit_in};
ghost use Rattle.units.specs.Promises.{StacksFit};
ghost use Rattle.point.specs.Saved.{Arrays, arrays, saved};
ghost use Rattle.point_writer.specs.Promises as C;

use point::Numbers;
use units::{Exit, Frame, Job};

// Writes a field; the position behind it.
fn emit(out: &mut [u8], at: usize, n: usize, v: u16) -> usize
    requires { (n ≤ 16) × (v < 2 ^ n) × C.Room at n out.old }
    ensures { C.Put at (to_bits n v) out.old out.new result × (result ≡ at + n) }
{
    bits::put(out, at, n, v);
    at + n
}

// A number of 32 bits is two fields.
fn write_word(out: &mut [u8], at: usize, v: usize) -> usize
    requires { (v < 2 ^ 32) × C.Room at 32 out.old }
    ensures { C.Put at (to_bits 32 v) out.old out.new result × (result ≡ at + 32) }
{
    let p = emit(out, at, 16, casts::short(v / 65536));
    emit(out, p, 16, casts::short(v % 65536))
}

// A number of 64 bits.
fn write_count(out: &mut [u8], at: usize, v: usize) -> usize
    requires { C.Room at 64 out.old }
    ensures { C.Put at (to_bits 64 v) out.old out.new result × (result ≡ at + 64) }
{
    let p = write_word(out, at, v / 4294967296);
    write_word(out, p, v % 4294967296)
}

fn write_numbers(out: &mut [u8], at: usize, x: Numbers) -> usize
    requires { (1 ≤ x.units) × (x.units ≤ 8) × C.Room at 291 out.old }
    ensures { C.Put at (C.write_numbers x) out.old out.new result × (result ≡ at + 291) }
{
    let a = emit(out, at, 3, casts::short(x.units - 1));
    let b = write_word(out, a, casts::position(x.budget));
    let c = write_count(out, b, casts::position(x.rewrites));
    let d = write_count(out, c, x.entries);
    let e = write_count(out, d, x.granted);
    write_count(out, e, x.kept)
}

// The operators of the first n symbols.
fn write_operators(out: &mut [u8], at: usize, symbols: &[u32; 1024], n: usize) -> usize
    requires { (length symbols.now ≡ 1024) × (n ≤ 1024) × C.Room at (8 * n) out.old }
    ensures { C.Put at (concat (to_bits 8) (operators (take n symbols.now))) out.old out.new result × (result ≡ at + 8 * n) }
{
    let mut to = at;
    for &x in &symbols[..n] {
        to = emit(out, to, 8, u16::from(symbol::operator(x)));
    }
    to
}

// Their marks.
fn write_marks(out: &mut [u8], at: usize, symbols: &[u32; 1024], n: usize) -> usize
    requires { (length symbols.now ≡ 1024) × (n ≤ 1024) × C.Room at n out.old }
    ensures { C.Put at (concat write_mark (marks (take n symbols.now))) out.old out.new result × (result ≡ at + n) }
{
    let mut to = at;
    for &x in &symbols[..n] {
        to = emit(out, to, 1, u16::from(symbol::is_marked(x)));
    }
    to
}

// The present term: how many symbols it has, their operators, their marks.
fn write_term(out: &mut [u8], at: usize, symbols: &[u32; 1024]) -> usize
    requires { C.SomeTerm symbols.now × C.Room at 9226 out.old }
    ensures { C.Put at (C.write_term symbols.now) out.old out.new result × (result ≤ at + 9226) }
{
    let n = term::length(symbols);
    let a = emit(out, at, 10, casts::short(n - 1));
    let b = write_operators(out, a, symbols, n);
    write_marks(out, b, symbols, n)
}

fn write_job(out: &mut [u8], at: usize, job: Job) -> usize
    requires { C.FrameFitsFields (flat (Frame.Job job)) × C.Room at 19 out.old }
    ensures { C.Put at (write_frame (flat (Frame.Job job))) out.old out.new result × (result ≤ at + 19) }
{
    let a = emit(out, at, 2, 0);
    let b = emit(out, a, 10, job.offset);
    let c = emit(out, b, 4, u16::from(job.next));
    emit(out, c, 3, u16::from(job.count))
}

fn write_exit(out: &mut [u8], at: usize, exit: Exit) -> usize
    requires { C.FrameFitsFields (flat (Frame.Exit exit)) × C.Room at 19 out.old }
    ensures { C.Put at (write_frame (flat (Frame.Exit exit))) out.old out.new result × (result ≤ at + 19) }
{
    let a = emit(out, at, 2, 1);
    let b = emit(out, a, 3, u16::from(exit.unit));
    emit(out, b, 11, exit.index)
}

fn write_frame(out: &mut [u8], at: usize, f: Frame) -> usize
    requires { C.FrameFitsFields (flat f) × C.Room at 19 out.old }
    ensures { C.Put at (write_frame (flat f)) out.old out.new result × (result ≤ at + 19) }
{
    match f {
        Frame::Job(job) => write_job(out, at, job),
        Frame::Exit(exit) => write_exit(out, at, exit),
        Frame::Sleep => emit(out, at, 2, 2),
        Frame::Bingo => emit(out, at, 2, 3),
    }
}

// The stack of the h frames from a place on, from its top down.
fn write_stack(out: &mut [u8], at: usize, work: &[u8], from: usize, h: usize) -> usize
    requires { (h ≤ 1026) × (from + 3 * h ≤ length work.now) × All C.FrameFitsFields (stack_of work.now from h) × C.Room at (19 * h) out.old }
    ensures { C.Put at (concat write_frame (stack_of work.now from h)) out.old out.new result × (result ≤ at + 19 * h) }
{
    let mut to = at;
    for k in (0..h).rev() {
        to = write_frame(out, to, units::frames::frame_at(work, from + 3 * k));
    }
    to
}

// Unit u: its rank, how many frames its stack has, and they.
fn write_unit(out: &mut [u8], at: usize, work: &[u8], cells: &[u32; 8], u: usize) -> usize
    requires { (u < 8) × StacksFit (store work.now cells.now) × C.UnitFitsFields (unit_in (store work.now cells.now) u) × C.Room at 19508 out.old }
    ensures { C.Put at (write_unit (unit_in (store work.now cells.now) u)) out.old out.new result × (result ≤ at + 19508) }
{
    let unit = units::load(cells, u);
    let from = units::frames::base_of(u);
    let h = (unit.end - from) / 3;
    let a = emit(out, at, 3, casts::short(unit.rank));
    let b = emit(out, a, 11, casts::short(h));
    write_stack(out, b, work, from, h)
}

// The first n units.
fn write_units(out: &mut [u8], at: usize, work: &[u8], cells: &[u32; 8], n: usize) -> usize
    requires { (n ≤ 8) × StacksFit (store work.now cells.now) × All C.UnitFitsFields (units_in (store work.now cells.now) n) × C.Room at (19508 * n) out.old }
    ensures { C.Put at (concat write_unit (units_in (store work.now cells.now) n)) out.old out.new result × (result ≤ at + 19508 * n) }
{
    let mut to = at;
    for u in 0..n {
        to = write_unit(out, to, work, cells, u);
    }
    to
}

// The order of placing: how many parts are pending, and the unit of each, the latest first.
fn write_order(out: &mut [u8], at: usize, order: &[u16; 1024]) -> usize
    requires { C.SomeOrder order.now × C.Room at 3079 out.old }
    ensures { C.Put at (C.write_order order.now) out.old out.new result × (result ≤ at + 3079) }
{
    let mut to = emit(out, at, 10, order[0]);
    for k in (0..usize::from(order[0])).rev() {
        to = emit(out, to, 3, order[k + 1]);
    }
    to
}

// The fields of the saved run, at position at; the position behind them.
pub fn save(
    out: &mut [u8],
    at: usize,
    x: Numbers,
    symbols: &[u32; 1024],
    work: &[u8],
    cells: &[u32; 8],
    order: &[u16; 1024],
) -> usize
    requires { let a : Arrays = arrays symbols.now work.now cells.now order.now in C.Savable x a × C.Room at C.longest out.old }
    ensures { let a : Arrays = arrays symbols.now work.now cells.now order.now in C.Put at (write_saved (saved x a)) out.old out.new result }
{
    let a = write_numbers(out, at, x);
    let b = write_term(out, a, symbols);
    let c = write_units(out, b, work, cells, x.units);
    write_order(out, c, order)
}
