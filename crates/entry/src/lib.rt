// One schedule entry (document 01, 'Orders of a unit'): a busy unit carries out the order of its top frame, for an idle one nothing happens.
#![tactic(auto)]

ghost use Rattle.std.proofs.Math.Option.{some};
ghost use Rattle.std.specs.Prelude.{◌≡◌, ◌+◌, ◌-◌, ◌^◌, ◌≤◌, ◌<◌, ◌≢◌, IfErr, length, get_or, drop};
ghost use Rattle.paper.specs.Strategy as P;
ghost use Rattle.flat.specs.Machine.{FlatState, flat_entry};
ghost use Rattle.symbol.specs.Record.{operator};
ghost use Rattle.tables.specs.Layout.{step_of, code_in, steps_in, Rowed};
ghost use Rattle.term.specs.Present.{length_in};
ghost use Rattle.units.specs.Stacks.{Store, store};
ghost use Rattle.units.specs.Promises.{HasFrame};
ghost use Rattle.orders.specs.Promises as O;
ghost use Rattle.whole.specs.State.{progress};
ghost use Rattle.whole.specs.declared.Whole as W;
ghost use Rattle.entry.specs.State as S;
ghost use Rattle.entry.specs.Promises as E;

use tables::Step;
use units::{Frame, Job};
use whole::{Limits, Place, Progress, Whole};

// How a run ends: an entry ends it, which changes nothing, or its schedule does.
#[derive(Clone, Copy, Debug, PartialEq, Eq)]
pub enum Ending {
    Finished,
    Spent,
    Full,
    Cut,
}

// The unit whose turn it is, the job on top of its stack, and the operator of the job's term, which is read once.
#[derive(Clone, Copy)]
struct Task {
    unit: usize,
    job: Job,
    operator: u8,
}

// A FORK has been carried out: a part that a unit got is placed, any other was kept.
fn forked(order: &mut [u16; 1024], p: Progress, got: Option<usize>) -> Progress
    requires { (p.granted + p.kept + 1 < 2 ^ 64) × E.CanPlace got order.old }
    ensures { (result ≡ E.forked p got) × E.Placed got order.old order.new }
{
    match got {
        Some(v) => {
            placing::place(order, v);
            Progress {
                granted: p.granted + 1,
                ..p
            }
        }
        None => Progress {
            kept: p.kept + 1,
            ..p
        },
    }
}

// A rewrite has been made.
fn rewritten(p: Progress) -> Progress
    requires { p.rewrites + 1 < 2 ^ 32 }
    ensures { result ≡ progress p W.Whole.Rewrote }
{
    Progress {
        rewrites: p.rewrites + 1,
        ..p
    }
}

// The term at offset a, of operator o, is marked if there is no step k: it has no orders left.
fn mark_last(operators: &[u8; 4352], symbols: &mut [u32; 1024], o: u8, k: u8, a: usize)
    requires { (k < 16) × Rowed operators.now o × (a < length_in symbols.old) × (length_in symbols.old ≤ 1024) }
    ensures { E.MarkedLeft (length (drop k (steps_in operators.now o))) a symbols.old symbols.new }
{
    if !orders::has_step(operators, o, k) {
        term::mark(symbols, a);
    }
}

// VISIT of the job's own term: dropped if the term is marked.
fn visit(
    operators: &[u8; 4352],
    symbols: &mut [u32; 1024],
    work: &mut [u8],
    units: &mut [u32; 8],
    task: Task,
)
    requires { let s : Store = store work.old units.old in Rowed operators.now task.operator × HasFrame s task.unit 0 × (task.job.offset < length_in symbols.old) × (length_in symbols.old ≤ 1024) × (task.operator ≡ operator (get_or symbols.old task.job.offset 0)) }
    ensures { let s : Store = store work.old units.old in E.Visited operators.now task.job.offset task.unit symbols.old symbols.new s (store work.new units.new) }
{
    let job = task.job;
    let a = usize::from(job.offset);
    if term::is_marked_at(symbols, a) {
        units::drop_top(units, task.unit);
        return;
    }
    orders::visit(operators, work, units, task.unit, task.operator, job.offset);
    mark_last(operators, symbols, task.operator, 0, a);
}

// VISIT of argument i of the job's term: dropped if the argument is marked, so that the job goes on alone.
fn visit_argument(
    operators: &[u8; 4352],
    symbols: &mut [u32; 1024],
    work: &mut [u8],
    units: &mut [u32; 8],
    u: usize,
    job: Job,
    i: u8,
)
    requires { let s : Store = store work.old units.old in O.ArgumentRowed operators.now symbols.old job i × O.CanVisit job (E.visit_of operators.now symbols.old job i) u s }
    ensures { let s : Store = store work.old units.old in E.ArgumentVisited operators.now job i u symbols.old symbols.new s (store work.new units.new) }
{
    let b = orders::argument(symbols, job, i);
    let at = usize::from(b);
    if term::is_marked_at(symbols, at) {
        orders::advance(work, units, u, job);
        return;
    }
    let p = term::operator_at(symbols, at);
    orders::visit_argument(operators, work, units, u, job, b, p);
    mark_last(operators, symbols, p, 0, at);
}

// WHOLE of the job. The order of placing stays: it is lent for the state that the contract names.
fn rewrite(
    book: &[u8],
    operators: &[u8; 4352],
    net: &[u8],
    symbols: &mut [u32; 1024],
    scratch: &mut [u32; 1024],
    work: &mut [u8],
    units: &mut [u32; 8],
    order: &[u16; 1024],
    task: Task,
    p: Progress,
    l: Limits,
) -> Result<Progress, Ending>
    requires arrays { S.Arrays symbols.old scratch.old work.old units.old order.now l }
    requires running { let s : FlatState = S.state symbols.old work.old units.old order.now p l in E.Running book.now operators.now net.now l s × E.Turn l task.unit s × E.Working work.old units.old task.unit task.job × (task.operator ≡ operator (get_or symbols.old task.job.offset 0)) }
    requires next { E.Next operators.now symbols.old task.job P.Step.whole }
    ensures l_after { let s : FlatState = S.state symbols.old work.old units.old order.now p l in E.outcome result (S.state symbols.new work.new units.new order.now (E.after p result) l) ≡ E.entered book.now net.now l task.unit s }
    ensures arrays_2 { S.Arrays symbols.new scratch.new work.new units.new order.now l }
    ensures over { IfErr result (λ e. e ≢ Ending.Cut) }
{
    let u = task.unit;
    let job = task.job;
    let a = usize::from(job.offset);
    let o = task.operator;
    let place = Place {
        unit: u,
        offset: a,
        operator: o,
    };
    match whole::rewrite(
        book, operators, net, symbols, scratch, work, units, place, p, l,
    ) {
        Whole::Missed => {
            orders::proceed(operators, work, units, u, o, job);
            mark_last(operators, symbols, o, job.next, a);
            Ok(p)
        }
        Whole::Rewrote => Ok(rewritten(p)),
        Whole::Spent => Err(Ending::Spent),
        Whole::Full => Err(Ending::Full),
    }
}

// The next step of the job, of operator o.
fn step(
    book: &[u8],
    operators: &[u8; 4352],
    net: &[u8],
    symbols: &mut [u32; 1024],
    scratch: &mut [u32; 1024],
    work: &mut [u8],
    units: &mut [u32; 8],
    order: &mut [u16; 1024],
    task: Task,
    p: Progress,
    l: Limits,
) -> Result<Progress, Ending>
    requires arrays { S.Arrays symbols.old scratch.old work.old units.old order.old l }
    requires running { let s : FlatState = S.state symbols.old work.old units.old order.old p l in E.Running book.now operators.now net.now l s × E.Turn l task.unit s × E.Working work.old units.old task.unit task.job × (task.operator ≡ operator (get_or symbols.old task.job.offset 0)) }
    requires le_next { 1 ≤ task.job.next }
    ensures l_after { let s : FlatState = S.state symbols.old work.old units.old order.old p l in E.outcome result (S.state symbols.new work.new units.new order.new (E.after p result) l) ≡ E.entered book.now net.now l task.unit s }
    ensures arrays_2 { S.Arrays symbols.new scratch.new work.new units.new order.new l }
    ensures over { IfErr result (λ e. e ≢ Ending.Cut) }
{
    let u = task.unit;
    let job = task.job;
    let o = task.operator;
    match tables::step_at(operators, o, job.next - 1) {
        Step::Visit(i) => {
            visit_argument(operators, symbols, work, units, u, job, i);
            Ok(p)
        }
        Step::Fork(i) => {
            let b = orders::argument(symbols, job, i);
            let got = orders::fork(work, units, l.units, u, job, b);
            Ok(forked(order, p, got))
        }
        Step::Join(_) => {
            orders::join(operators, work, units, l.units, u, o, job);
            Ok(p)
        }
        // WHOLE: a job with no step left is not kept on a stack.
        _ => rewrite(
            book, operators, net, symbols, scratch, work, units, order, task, p, l,
        ),
    }
}

// VISIT of the job, or its next step.
fn carry_out(
    book: &[u8],
    operators: &[u8; 4352],
    net: &[u8],
    symbols: &mut [u32; 1024],
    scratch: &mut [u32; 1024],
    work: &mut [u8],
    units: &mut [u32; 8],
    order: &mut [u16; 1024],
    task: Task,
    p: Progress,
    l: Limits,
) -> Result<Progress, Ending>
    requires arrays { S.Arrays symbols.old scratch.old work.old units.old order.old l }
    requires running { let s : FlatState = S.state symbols.old work.old units.old order.old p l in E.Running book.now operators.now net.now l s × E.Turn l task.unit s × E.Working work.old units.old task.unit task.job × (task.operator ≡ operator (get_or symbols.old task.job.offset 0)) }
    ensures l_after { let s : FlatState = S.state symbols.old work.old units.old order.old p l in E.outcome result (S.state symbols.new work.new units.new order.new (E.after p result) l) ≡ E.entered book.now net.now l task.unit s }
    ensures arrays_2 { S.Arrays symbols.new scratch.new work.new units.new order.new l }
    ensures over { IfErr result (λ e. e ≢ Ending.Cut) }
{
    if task.job.next == 0 {
        visit(operators, symbols, work, units, task);
        return Ok(p);
    }
    step(
        book, operators, net, symbols, scratch, work, units, order, task, p, l,
    )
}

// The entry of unit u of the units.
pub fn enter(
    book: &[u8],
    operators: &[u8; 4352],
    net: &[u8],
    symbols: &mut [u32; 1024],
    scratch: &mut [u32; 1024],
    work: &mut [u8],
    units: &mut [u32; 8],
    order: &mut [u16; 1024],
    u: usize,
    p: Progress,
    l: Limits,
) -> Result<Progress, Ending>
    requires arrays { S.Arrays symbols.old scratch.old work.old units.old order.old l }
    requires running { let s : FlatState = S.state symbols.old work.old units.old order.old p l in E.Running book.now operators.now net.now l s × E.Turn l u s }
    ensures l_after { let s : FlatState = S.state symbols.old work.old units.old order.old p l in E.outcome result (S.state symbols.new work.new units.new order.new (E.after p result) l) ≡ E.entered book.now net.now l u s }
    ensures arrays_2 { S.Arrays symbols.new scratch.new work.new units.new order.new l }
    ensures over { IfErr result (λ e. e ≢ Ending.Cut) }
{
    if !units::is_busy(units, u) {
        return Ok(p);
    }
    match units::top(work, units, u) {
        Frame::Job(job) => {
            let operator = term::operator_at(symbols, usize::from(job.offset));
            let task = Task {
                unit: u,
                job,
                operator,
            };
            carry_out(
                book, operators, net, symbols, scratch, work, units, order, task, p, l,
            )
        }
        Frame::Exit(exit) => {
            orders::exit(work, units, u, exit);
            placing::take_out(order, u);
            Ok(p)
        }
        Frame::Sleep => {
            units::sleep_unit(units, l.units, u);
            Ok(p)
        }
        Frame::Bingo => Err(Ending::Finished),
    }
}
