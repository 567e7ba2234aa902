// The rules of a saved point that concern frames and stacks (document 02, Change 11; flat/specs/Tested), tested in time linear in symbols and frames. Offsets
// come first, so that a job's steps and arguments are read inside the term; then jobs and EXITs are counted; then each frame is tested by itself and with the
// one below it.
#![tactic(auto)]

mod steps;
mod tally;

ghost use Rattle.std.specs.Prelude.{[], ◌∷◌, ◌≡◌, ◌<◌, ◌≤◌, eqb, drop};
ghost use Rattle.paper.specs.Book.{Book};
ghost use Rattle.flat.specs.Machine as F;
ghost use Rattle.flat.specs.Rules.{jobs};
ghost use Rattle.flat.specs.Tested as T;
ghost use Rattle.tables.specs.Layout.{steps_in, Rowed};
ghost use Rattle.term.specs.Present.{length_in};
ghost use Rattle.units.specs.Frames.{flat};
ghost use Rattle.units.specs.Stacks as K;
ghost use Rattle.point_frames.specs.Counting as C;
ghost use Rattle.point_frames.specs.Promises as P;
ghost use Rattle.point_frames.specs.Test as test;

use steps::Rest;
use units::{Exit, Frame, Job};

// OFFSETS

fn inside(n: usize, f: Frame) -> bool
    ensures { test.inside n (flat f) ≡ result }
{
    match f {
        Frame::Job(job) => casts::offset(job.offset) < n,
        _ => true,
    }
}

// Are the jobs of unit v inside a term of n symbols?
fn stack_inside(work: &[u8], cells: &[u32; 8], units: usize, n: usize, v: usize) -> bool
    requires { let k : K.Store = K.store work.now cells.now in C.Kept k units × (v < units) }
    ensures { let k : K.Store = K.store work.now cells.now in T.each_frame (λ i. test.inside n) (C.stack_in k units v) ≡ result }
{
    for h in (0..tally::height(cells, v)).rev() {
        if !inside(n, tally::frame(work, cells, units, v, h)) {
            return false;
        }
    }
    true
}

fn all_inside(work: &[u8], cells: &[u32; 8], units: usize, n: usize) -> bool
    requires { let k : K.Store = K.store work.now cells.now in C.Kept k units }
    ensures { let k : K.Store = K.store work.now cells.now in T.each_below (λ v. T.each_frame (λ i. test.inside n) (C.stack_in k units v)) units ≡ result }
{
    for v in (0..units).rev() {
        if !stack_inside(work, cells, units, n, v) {
            return false;
        }
    }
    true
}

// A FRAME BY ITSELF

// The steps that a job has left once its VISIT is carried out.
fn job_left(operators: &[u8; 4352], symbols: &[u32; 1024], job: Job) -> Rest
    requires { P.Termed operators.now symbols.now × (job.offset < length_in symbols.now) }
    ensures { P.Left operators.now symbols.now (F.Frame.job job.offset job.next job.count) result }
{
    if job.next == 0 {
        return steps::none();
    }
    let o = term::operator_at(symbols, casts::offset(job.offset));
    steps::from(operators, o, job.next - 1)
}

fn left(operators: &[u8; 4352], symbols: &[u32; 1024], f: Frame) -> Rest
    requires { P.Termed operators.now symbols.now × K.Below (length_in symbols.now) (flat f) }
    ensures { P.Left operators.now symbols.now (flat f) result }
{
    match f {
        Frame::Job(job) => job_left(operators, symbols, job),
        _ => steps::none(),
    }
}

// Is the job good by itself, r being the steps that it has left?
fn job_good(job: Job, r: Rest) -> bool
    ensures { P.JobTested job.offset job.next job.count r result }
{
    if job.next == 0 {
        return job.count == 0;
    }
    if !r.some {
        return false;
    }
    if r.group {
        return job.count <= r.count;
    }
    job.count == r.count
}

// Is its count that of its FORKs to come and the n EXITs that it awaits?
fn count_good(job: Job, r: Rest, n: usize) -> bool
    requires { n < 65536 }
    ensures { P.CountTested job.offset job.next job.count r n result }
{
    if !r.group {
        return true;
    }
    casts::index(job.count) == casts::index(r.forks) + n
}

// How many jobs stand at index i of unit v's stack: one or none.
fn jobs_there(work: &[u8], cells: &[u32; 8], units: usize, v: usize, i: usize) -> usize
    requires { let k : K.Store = K.store work.now cells.now in C.Kept k units }
    ensures { let k : K.Store = K.store work.now cells.now in (result ≡ jobs (C.frame_in k units v i ∷ [])) × (result ≤ 1) }
{
    match tally::frame(work, cells, units, v, i) {
        Frame::Job(_) => 1,
        _ => 0,
    }
}

// Has the job's term an argument for each that is still named and for m parts more?
fn room_good(operators: &[u8; 4352], symbols: &[u32; 1024], job: Job, r: Rest, m: usize) -> bool
    requires { P.Termed operators.now symbols.now × (job.offset < length_in symbols.now) × (m ≤ 65536) }
    ensures { P.RoomTested job.offset job.next job.count r operators.now symbols.now m result }
{
    if job.next == 0 {
        return true;
    }
    let o = term::operator_at(symbols, casts::offset(job.offset));
    casts::index(r.named) + m <= tables::arity(operators, o)
}

// The job at index i of unit v's stack.
fn job_frame_good(
    operators: &[u8; 4352],
    symbols: &[u32; 1024],
    work: &[u8],
    cells: &[u32; 8],
    units: usize,
    exits: &[u16; 8208],
    v: usize,
    i: usize,
    job: Job,
) -> bool
    requires readable { let k : K.Store = K.store work.now cells.now in P.Readable operators.now symbols.now k units × C.ExitsTallied k units exits.now }
    requires v_lt_units { (v < units) × (i < K.height_in cells.now v) × (job.offset < length_in symbols.now) }
    ensures { let k : K.Store = K.store work.now cells.now in P.ByPoint operators.now symbols.now k units (λ B s. T.frame_good B s v i (F.Frame.job job.offset job.next job.count)) result }
{
    let r = job_left(operators, symbols, job);
    if !job_good(job, r) {
        return false;
    }
    let n = casts::offset(exits[v * units::frames::HEIGHT + i]);
    if !count_good(job, r, n) {
        return false;
    }
    let above = jobs_there(work, cells, units, v, i + 1);
    room_good(operators, symbols, job, r, above + n)
}

fn exit_good(
    operators: &[u8; 4352],
    symbols: &[u32; 1024],
    work: &[u8],
    cells: &[u32; 8],
    units: usize,
    v: usize,
    exit: Exit,
) -> bool
    requires { let k : K.Store = K.store work.now cells.now in P.Readable operators.now symbols.now k units }
    ensures { let k : K.Store = K.store work.now cells.now in P.ByPoint operators.now symbols.now k units (λ B s. T.exit_good B s v exit.unit exit.index) result }
{
    let w = casts::index(exit.unit);
    if w == v {
        return false;
    }
    let f = tally::frame(work, cells, units, w, casts::offset(exit.index));
    left(operators, symbols, f).group
}

// The frame at index i of unit v's stack.
fn frame_good(
    operators: &[u8; 4352],
    symbols: &[u32; 1024],
    work: &[u8],
    cells: &[u32; 8],
    units: usize,
    exits: &[u16; 8208],
    v: usize,
    i: usize,
) -> bool
    requires readable { let k : K.Store = K.store work.now cells.now in P.Readable operators.now symbols.now k units × C.ExitsTallied k units exits.now }
    requires v_lt_units { (v < units) × (i < K.height_in cells.now v) }
    ensures { let k : K.Store = K.store work.now cells.now in P.ByPoint operators.now symbols.now k units (λ B s. T.frame_good B s v i (C.frame_in k units v i)) result }
{
    match tally::frame(work, cells, units, v, i) {
        Frame::Job(job) => {
            job_frame_good(operators, symbols, work, cells, units, exits, v, i, job)
        }
        Frame::Exit(exit) => exit_good(operators, symbols, work, cells, units, v, exit),
        _ => true,
    }
}

fn each_frame_good(
    operators: &[u8; 4352],
    symbols: &[u32; 1024],
    work: &[u8],
    cells: &[u32; 8],
    units: usize,
    exits: &[u16; 8208],
    v: usize,
) -> bool
    requires { let k : K.Store = K.store work.now cells.now in P.Readable operators.now symbols.now k units × C.ExitsTallied k units exits.now × (v < units) }
    ensures { let k : K.Store = K.store work.now cells.now in P.ByPoint operators.now symbols.now k units (λ B s. T.each_frame (T.frame_good B s v) (C.stack_in k units v)) result }
{
    for h in (0..tally::height(cells, v)).rev() {
        if !frame_good(operators, symbols, work, cells, units, exits, v, h) {
            return false;
        }
    }
    true
}

// A FRAME AND THE ONE BELOW IT

// Is argument x, at offset p, the term at offset a, and named by no step of operator o from step k on?
fn is_free(operators: &[u8; 4352], o: u8, k: u8, x: usize, p: usize, a: usize) -> bool
    requires { Rowed operators.now o }
    ensures { T.and (eqb a p) (T.unnamed x (drop k (steps_in operators.now o))) ≡ result }
{
    if a != p {
        return false;
    }
    steps::is_unnamed(operators, o, k, x)
}

// Is a the offset of an argument of the job's term, which the steps left don't name?
fn job_takes(operators: &[u8; 4352], symbols: &[u32; 1024], job: Job, a: usize) -> bool
    requires { P.Termed operators.now symbols.now × (job.offset < length_in symbols.now) }
    ensures { P.ByTerm operators.now symbols.now (λ B s. T.taken B s (F.Frame.job job.offset job.next job.count) a) result }
{
    if job.next == 0 {
        return false;
    }
    let b = casts::offset(job.offset);
    let o = term::operator_at(symbols, b);
    let n = tables::arity(operators, o);
    let k = job.next - 1;
    let mut p = b + 1;
    for x in 0..n {
        if is_free(operators, o, k, x, p, a) {
            return true;
        }
        p += term::size_at(symbols, p);
    }
    false
}

fn takes(operators: &[u8; 4352], symbols: &[u32; 1024], f: Frame, a: usize) -> bool
    requires { P.Termed operators.now symbols.now × K.Below (length_in symbols.now) (flat f) }
    ensures { P.ByTerm operators.now symbols.now (λ B s. T.taken B s (flat f) a) result }
{
    match f {
        Frame::Job(job) => job_takes(operators, symbols, job, a),
        _ => false,
    }
}

// May the job at offset a stand on the frame f?
fn carries(
    operators: &[u8; 4352],
    symbols: &[u32; 1024],
    work: &[u8],
    cells: &[u32; 8],
    units: usize,
    f: Frame,
    a: usize,
) -> bool
    requires { let k : K.Store = K.store work.now cells.now in P.Readable operators.now symbols.now k units × K.Below (length_in symbols.now) (flat f) }
    ensures { let k : K.Store = K.store work.now cells.now in P.ByPoint operators.now symbols.now k units (λ B s. T.carries B s a (flat f ∷ [])) result }
{
    match f {
        Frame::Job(job) => job_takes(operators, symbols, job, a),
        Frame::Exit(exit) => {
            let w = casts::index(exit.unit);
            let g = tally::frame(work, cells, units, w, casts::offset(exit.index));
            takes(operators, symbols, g, a)
        }
        Frame::Sleep => false,
        Frame::Bingo => a == 0,
    }
}

// May an EXIT stand on the frame f?
fn holds(operators: &[u8; 4352], symbols: &[u32; 1024], f: Frame) -> bool
    requires { P.Termed operators.now symbols.now × K.Below (length_in symbols.now) (flat f) }
    ensures { P.ByTerm operators.now symbols.now (λ B s. T.holds B s (flat f ∷ [])) result }
{
    match f {
        Frame::Job(job) => {
            let r = job_left(operators, symbols, job);
            if !r.joins {
                return false;
            }
            1 <= r.count
        }
        Frame::Sleep => true,
        _ => false,
    }
}

// Is f what unit v's stack ends in?
fn is_lowest(f: Frame, v: usize) -> bool
    ensures { (B : Book) (s : F.FlatState) → T.stack_good B s v (flat f ∷ []) ≡ result }
{
    match f {
        Frame::Sleep => v != 0,
        Frame::Bingo => v == 0,
        _ => false,
    }
}

// May the frame f stand on the frame below it?
fn stands_on(
    operators: &[u8; 4352],
    symbols: &[u32; 1024],
    work: &[u8],
    cells: &[u32; 8],
    units: usize,
    f: Frame,
    below: Frame,
) -> bool
    requires { let k : K.Store = K.store work.now cells.now in P.Readable operators.now symbols.now k units × K.Below (length_in symbols.now) (flat below) }
    ensures { let k : K.Store = K.store work.now cells.now in P.ByPoint operators.now symbols.now k units (λ B s. test.stands B s (flat f) (flat below)) result }
{
    match f {
        Frame::Job(job) => {
            let a = casts::offset(job.offset);
            carries(operators, symbols, work, cells, units, below, a)
        }
        Frame::Exit(_) => holds(operators, symbols, below),
        _ => false,
    }
}

fn stack_good(
    operators: &[u8; 4352],
    symbols: &[u32; 1024],
    work: &[u8],
    cells: &[u32; 8],
    units: usize,
    v: usize,
) -> bool
    requires { let k : K.Store = K.store work.now cells.now in P.Readable operators.now symbols.now k units × (v < units) }
    ensures { let k : K.Store = K.store work.now cells.now in P.ByPoint operators.now symbols.now k units (λ B s. T.stack_good B s v (C.stack_in k units v)) result }
{
    let height = tally::height(cells, v);
    if height == 0 {
        return false;
    }
    let mut f = tally::frame(work, cells, units, v, height - 1);
    for h in (0..height - 1).rev() {
        let below = tally::frame(work, cells, units, v, h);
        if !stands_on(operators, symbols, work, cells, units, f, below) {
            return false;
        }
        f = below;
    }
    is_lowest(f, v)
}

// ALL

fn each_unit_good(
    operators: &[u8; 4352],
    symbols: &[u32; 1024],
    work: &[u8],
    cells: &[u32; 8],
    units: usize,
    exits: &[u16; 8208],
) -> bool
    requires { let k : K.Store = K.store work.now cells.now in P.Readable operators.now symbols.now k units × C.ExitsTallied k units exits.now }
    ensures { let k : K.Store = K.store work.now cells.now in P.ByPoint operators.now symbols.now k units (λ B s. T.each_below (test.stack_tested B s) units) result }
{
    for v in (0..units).rev() {
        if !stack_good(operators, symbols, work, cells, units, v) {
            return false;
        }
        if !each_frame_good(operators, symbols, work, cells, units, exits, v) {
            return false;
        }
    }
    true
}

// Are the frames and stacks good?
pub fn frames_good(
    operators: &[u8; 4352],
    symbols: &[u32; 1024],
    work: &[u8],
    cells: &[u32; 8],
    units: usize,
) -> bool
    requires { let k : K.Store = K.store work.now cells.now in P.Termed operators.now symbols.now × C.Kept k units }
    ensures { let k : K.Store = K.store work.now cells.now in P.ByPoint operators.now symbols.now k units test.frames_tested result }
{
    let n = term::length(symbols);
    if !all_inside(work, cells, units, n) {
        return false;
    }
    let mut jobs = [0; 1024];
    let mut exits = [0; 8208];
    tally::count_all(work, cells, units, &mut jobs, &mut exits);
    if !tally::distinct(&jobs, n) {
        return false;
    }
    each_unit_good(operators, symbols, work, cells, units, &exits)
}
