// The orders of a unit (document 01, 'Orders of a unit'), but for WHOLE with a match, on the units as they are kept. A job is the one on top of unit
// u's stack, and o the operator of its term: the job's next order is carried out, and it goes on with the one behind.
#![tactic(auto)]

ghost use Rattle.std.specs.Prelude.{◌≡◌, ◌+◌, ◌<◌, ◌≤◌, drop};
ghost use Rattle.flat.specs.Sizes.{hop};
ghost use Rattle.symbol.specs.Record.{sizes};
ghost use Rattle.tables.specs.Layout as L;
ghost use Rattle.term.specs.Present.{Hops};
ghost use Rattle.units.specs.Stacks as K;
ghost use Rattle.units.specs.Promises as U;
ghost use Rattle.orders.specs.Promises as O;

use tables::Step;
use units::{Exit, Frame, Job};

// Has operator o a step k?
pub fn has_step(operators: &[u8; 4352], o: u8, k: u8) -> bool
    requires { (k < 16) × L.Rowed operators.now o }
    ensures { O.is_some (drop k (L.steps_in operators.now o)) ≡ result }
{
    !matches!(tables::step_at(operators, o, k), Step::None)
}

// The count of the next JOIN from step k of operator o on.
fn next_count(operators: &[u8; 4352], o: u8, k: u8) -> u8
    requires { (k ≤ 16) × L.Rowed operators.now o }
    ensures { O.Counted (drop k (L.steps_in operators.now o)) result }
{
    for i in k..16 {
        match tables::step_at(operators, o, i) {
            Step::None => return 0,
            Step::Join(c) => return c,
            _ => {}
        }
    }
    0
}

// The job's next order is done, and there is one behind, as behind every order but WHOLE: it goes on with that.
pub fn advance(work: &mut [u8], units: &[u32; 8], u: usize, job: Job)
    requires { let s : K.Store = K.store work.old units.now in O.CanProceed job u s }
    ensures { let s : K.Store = K.store work.old units.now in O.Advanced job u s (K.store work.new s.cells) }
{
    units::set_top(
        work,
        units,
        u,
        Frame::Job(Job {
            next: job.next + 1,
            ..job
        }),
    );
}

// The job's next order is done: it goes on with the one behind, or it goes if there is none. WHOLE with no match does just this.
pub fn proceed(
    operators: &[u8; 4352],
    work: &mut [u8],
    units: &mut [u32; 8],
    u: usize,
    o: u8,
    job: Job,
)
    requires { let s : K.Store = K.store work.old units.old in L.Rowed operators.now o × O.CanProceed job u s }
    ensures { let s : K.Store = K.store work.old units.old in O.Proceeded (L.steps_in operators.now o) job u s (K.store work.new units.new) }
{
    if has_step(operators, o, job.next) {
        advance(work, units, u, job);
    } else {
        units::drop_top(units, u);
    }
}

// The orders of the term at offset a, of operator o, are put on top of unit u's stack.
fn enter(operators: &[u8; 4352], work: &mut [u8], units: &mut [u32; 8], u: usize, o: u8, a: u16)
    requires { let s : K.Store = K.store work.old units.old in L.Rowed operators.now o × O.CanEnter (L.steps_in operators.now o) a u s }
    ensures { let s : K.Store = K.store work.old units.old in O.Entered (L.steps_in operators.now o) a u s (K.store work.new units.new) }
{
    if has_step(operators, o, 0) {
        let c = next_count(operators, o, 0);
        units::push(
            work,
            units,
            u,
            Frame::Job(Job {
                offset: a,
                next: 1,
                count: c,
            }),
        );
    }
}

// VISIT of the term at offset a, of operator o, whose job is on top of unit u's stack.
pub fn visit(operators: &[u8; 4352], work: &mut [u8], units: &mut [u32; 8], u: usize, o: u8, a: u16)
    requires { let s : K.Store = K.store work.old units.old in L.Rowed operators.now o × U.HasFrame s u 0 × (a < 1024) }
    ensures { let s : K.Store = K.store work.old units.old in O.Visited (L.steps_in operators.now o) a u s (K.store work.new units.new) }
{
    let c = next_count(operators, o, 0);
    proceed(
        operators,
        work,
        units,
        u,
        o,
        Job {
            offset: a,
            next: 0,
            count: c,
        },
    );
}

// The offset of argument i of the job's term.
pub fn argument(symbols: &[u32; 1024], job: Job, i: u8) -> u16
    requires { (job.offset < 1024) × Hops (sizes symbols.now) i (job.offset + 1) × (hop (sizes symbols.now) i (job.offset + 1) < 1024) }
    ensures { (result ≡ hop (sizes symbols.now) i (job.offset + 1)) × (result < 1024) }
{
    term::argument(symbols, usize::from(job.offset), usize::from(i)) as u16
}

// VISIT of the argument at offset b, of operator p: the job goes on, and the argument's orders are put on top of it.
pub fn visit_argument(
    operators: &[u8; 4352],
    work: &mut [u8],
    units: &mut [u32; 8],
    u: usize,
    job: Job,
    b: u16,
    p: u8,
)
    requires { let s : K.Store = K.store work.old units.old in L.Rowed operators.now p × (b < 1024) × O.CanVisit job (O.argument_at operators.now b p) u s }
    ensures { let s : K.Store = K.store work.old units.old in O.ArgumentVisited job (O.argument_at operators.now b p) u s (K.store work.new units.new) }
{
    advance(work, units, u, job);
    enter(operators, work, units, u, p, b);
}

// JOIN by unit u of so many: at count 0 it passes, and the job goes on; otherwise the unit waits.
pub fn join(
    operators: &[u8; 4352],
    work: &mut [u8],
    units: &mut [u32; 8],
    count: usize,
    u: usize,
    o: u8,
    job: Job,
)
    requires { let s : K.Store = K.store work.old units.old in L.Rowed operators.now o × O.CanProceed job u s × (count ≤ 8) }
    ensures { let s : K.Store = K.store work.old units.old in O.Joined (L.steps_in operators.now o) job count u s (K.store work.new units.new) }
{
    if job.count == 0 {
        let count = next_count(operators, o, job.next);
        advance(work, units, u, Job { count, ..job });
    } else {
        units::wait_unit(units, count, u);
    }
}

// EXIT on top of unit u's stack.
pub fn exit(work: &mut [u8], units: &mut [u32; 8], u: usize, exit: Exit)
    requires { let s : K.Store = K.store work.old units.old in O.CanExit exit u s }
    ensures { let s : K.Store = K.store work.old units.old in O.Exited exit u s (K.store work.new units.new) }
{
    units::drop_top(units, u);
    units::arrive(work, units, usize::from(exit.unit), usize::from(exit.index));
}

// FORK with no idle unit: the argument at offset b is kept, as a job on top of the one that goes on.
fn keep(work: &mut [u8], units: &mut [u32; 8], u: usize, job: Job, b: u16)
    requires { let s : K.Store = K.store work.old units.old in O.CanKeep job b u s }
    ensures { let s : K.Store = K.store work.old units.old in O.ArgumentKept job b u s (K.store work.new units.new) }
{
    let count = job.count.saturating_sub(1);
    advance(work, units, u, Job { count, ..job });
    units::push(work, units, u, Frame::Job(Job::new(b)));
}

// The term at offset b is put on unit v's stack, over an EXIT; v is the first of the idle queue, and leaves it.
fn give(work: &mut [u8], units: &mut [u32; 8], v: usize, exit: Exit, b: u16)
    requires { let s : K.Store = K.store work.old units.old in U.HasRoom s v 2 × (exit.unit < 8) × (b < 1024) }
    ensures { let s : K.Store = K.store work.old units.old in O.Given v exit.unit exit.index b s (K.store work.new units.new) }
{
    units::push(work, units, v, Frame::Exit(exit));
    units::push(work, units, v, Frame::Job(Job::new(b)));
    units::leave(units, 1);
}

// FORK with an idle unit v: it gets the argument at offset b.
fn grant(work: &mut [u8], units: &mut [u32; 8], u: usize, job: Job, b: u16, v: usize)
    requires { let s : K.Store = K.store work.old units.old in O.CanGrant job b v u s }
    ensures { let s : K.Store = K.store work.old units.old in O.Granted job b v u s (K.store work.new units.new) }
{
    let index = units::top_index(units, u);
    advance(work, units, u, job);
    give(
        work,
        units,
        v,
        Exit {
            unit: u as u8,
            index,
        },
        b,
    );
}

// FORK of the argument at offset b, by unit u of so many: the first of the idle queue gets it, or it is kept; which unit got it.
pub fn fork(
    work: &mut [u8],
    units: &mut [u32; 8],
    count: usize,
    u: usize,
    job: Job,
    b: u16,
) -> Option<usize>
    requires { let s : K.Store = K.store work.old units.old in O.CanFork job b count u s }
    ensures { let s : K.Store = K.store work.old units.old in O.Forked job b count u s (K.store work.new units.new) result }
{
    let idle = units::first_idle(units, count);
    match idle {
        Some(v) => grant(work, units, u, job, b, v),
        None => keep(work, units, u, job, b),
    }
    idle
}
