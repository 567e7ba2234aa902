// The states and the stacks of all units (document 01, 'Orders of a unit'), as the engine keeps them: a lent work area with the stacks, and a cell for
// each unit, which is the place where its frames end and 65,536 times its rank. Rank 0 is busy; an idle unit's rank is its place in the idle queue, 1 for
// the first.
#![tactic(auto)]

pub mod frames;

ghost use Rattle.std.specs.Prelude.{◌≡◌, List, ℕ, ◌+◌, ◌-◌, ◌*◌, ◌/◌, ◌%◌, ◌<◌, ◌≤◌, set};
ghost use Rattle.flat.specs.Machine.{left};
ghost use Rattle.units.specs.Frames.{flat, InThreeBytes};
ghost use Rattle.units.specs.Stacks as K;
ghost use Rattle.units.specs.Promises as U;

pub use frames::{Exit, Frame, Job};

// The state of one unit, by value: its rank, and the place where its frames end.
// Kept: `wait` and `sleep` apart, and `wait_unit` and `sleep_unit`, since document 01 asks for a method of each ('Which form to use where').
#[derive(Clone, Copy, Debug, PartialEq, Eq)]
pub struct Unit {
    pub rank: usize,
    pub end: usize,
}

impl Unit {
    // A job was put on its stack, or the last EXIT for its JOIN came: it is busy.
    pub fn wake(mut self) -> Unit
        ensures { (result.rank ≡ 0) × (result.end ≡ self.end) }
    {
        self.rank = 0;
        self
    }

    // JOIN with a count above 0: it stays on the stack; the unit becomes idle.
    pub fn wait(mut self, rank: usize) -> Unit
        ensures { (result.rank ≡ rank) × (result.end ≡ self.end) }
    {
        self.rank = rank;
        self
    }

    // SLEEP: it stays on the stack; the unit becomes idle.
    pub fn sleep(mut self, rank: usize) -> Unit
        ensures { (result.rank ≡ rank) × (result.end ≡ self.end) }
    {
        self.rank = rank;
        self
    }

    // The unit of a rank leaves the idle queue: that one wakes, and one behind it moves up.
    fn move_up(mut self, rank: usize) -> Unit
        requires { 0 < rank }
        ensures { (result.rank ≡ left rank self.rank) × (result.rank ≤ self.rank) × (result.end ≡ self.end) }
    {
        if self.rank == rank {
            return self.wake();
        }
        if rank < self.rank {
            self.rank -= 1;
        }
        self
    }
}

// Kept: no `From`, which could not ask that both numbers are below 65,536.
fn cell_of(rank: usize, end: usize) -> u32
    requires { (rank < 65536) × (end < 65536) }
    ensures { result ≡ K.cell rank end }
{
    (rank * 65536 + end) as u32
}

fn rank_of(cell: u32) -> usize
    ensures { (result ≡ cell / 65536) × (result < 65536) }
{
    (cell / 65536) as usize
}

pub fn load(units: &[u32; 8], u: usize) -> Unit
    requires { u < 8 }
    ensures { U.StateOf units.now u result }
{
    let x = units[u];
    Unit {
        rank: rank_of(x),
        end: (x % 65536) as usize,
    }
}

// Is unit u busy?
pub fn is_busy(units: &[u32; 8], u: usize) -> bool
    requires { u < 8 }
    ensures { result ≡ K.busy_in units.now u }
{
    units[u] < 65536
}

pub fn store(units: &mut [u32; 8], u: usize, x: Unit)
    requires { (u < 8) × U.Small x }
    ensures { units.new ≡ set units.old u (K.cell x.rank x.end) }
{
    units[u] = cell_of(x.rank, x.end);
}

// The unit of a rank leaves the idle queue.
pub fn leave(units: &mut [u32; 8], rank: usize)
    requires { 0 < rank }
    ensures { U.CellsLeft rank units.old units.new }
{
    for u in 0..8 {
        store(units, u, load(units, u).move_up(rank));
    }
}

// Unit u is busy, and in no queue.
fn wake_unit(units: &mut [u32; 8], u: usize)
    requires { u < 8 }
    ensures { U.CellsLeft (K.rank_in units.old u) units.old units.new }
{
    let rank = rank_of(units[u]);
    if rank != 0 {
        leave(units, rank);
    }
}

// How many of count units are idle.
fn idle_count(units: &[u32; 8], count: usize) -> usize
    requires { count ≤ 8 }
    ensures { U.IdleCount units.now count result }
{
    units[..count].iter().filter(|&&cell| 65536 <= cell).count()
}

// Unit u, of count units, joins the idle queue.
pub fn wait_unit(units: &mut [u32; 8], count: usize, u: usize)
    requires { (count ≤ 8) × (u < 8) }
    ensures { U.CellIdled count u units.old units.new }
{
    let n = idle_count(units, count);
    store(units, u, load(units, u).wait(n + 1));
}

pub fn sleep_unit(units: &mut [u32; 8], count: usize, u: usize)
    requires { (count ≤ 8) × (u < 8) }
    ensures { U.CellIdled count u units.old units.new }
{
    let n = idle_count(units, count);
    store(units, u, load(units, u).sleep(n + 1));
}

// The first of the idle queue, of count units.
pub fn first_idle(units: &[u32; 8], count: usize) -> Option<usize>
    requires { count ≤ 8 }
    ensures { U.FirstIdle units.now count result }
{
    (0..count).find(|&v| rank_of(units[v]) == 1)
}

// The place where unit u's frames end: its top frame stands before it.
fn end_of(units: &[u32; 8], u: usize) -> usize
    requires { u < 8 }
    ensures { (result ≡ K.end_in units.now u) × (result < 65536) }
{
    (units[u] % 65536) as usize
}

// The stack index of unit u's top frame.
pub fn top_index(units: &[u32; 8], u: usize) -> u16
    requires { (u < 8) × (0 < K.height_in units.now u) }
    ensures { result ≡ K.height_in units.now u - 1 }
{
    (end_of(units, u) / 3 - u * frames::HEIGHT - 1) as u16
}

// The first frame of unit u's stack.
pub fn top(work: &[u8], units: &[u32; 8], u: usize) -> Frame
    requires { let s : K.Store = K.store work.now units.now in U.HasFrame s u 0 }
    ensures { let s : K.Store = K.store work.now units.now in U.TopIs u (flat result) s }
{
    frames::frame_at(work, end_of(units, u) - 3)
}

pub fn set_top(work: &mut [u8], units: &[u32; 8], u: usize, f: Frame)
    requires { let s : K.Store = K.store work.old units.now in U.HasFrame s u 0 × InThreeBytes (flat f) }
    ensures { let s : K.Store = K.store work.old units.now in U.Changed u (U.topped (flat f)) s (K.store work.new s.cells) }
{
    frames::put_frame(work, end_of(units, u) - 3, f);
}

pub fn drop_top(units: &mut [u32; 8], u: usize)
    requires { (u < 8) × (0 < K.height_in units.old u) }
    ensures { U.CellChanged u U.dropped units.old units.new }
{
    units[u] -= 3;
}

pub fn push(work: &mut [u8], units: &mut [u32; 8], u: usize, f: Frame)
    requires { let s : K.Store = K.store work.old units.old in U.HasRoom s u 1 × InThreeBytes (flat f) }
    ensures { let s : K.Store = K.store work.old units.old in U.Changed u (U.pushed (flat f)) s (K.store work.new units.new) }
{
    frames::put_frame(work, end_of(units, u), f);
    units[u] += 3;
}

// EXIT at unit v, which holds its JOIN: the count of the job at stack index i falls by one; if it is now 0, the unit is busy, and in no queue.
pub fn arrive(work: &mut [u8], units: &mut [u32; 8], v: usize, i: usize)
    requires { let s : K.Store = K.store work.old units.old in U.HasFrame s v i }
    ensures { let s : K.Store = K.store work.old units.old in U.Arrived v i s (K.store work.new units.new) }
{
    let at = frames::base_of(v) + 3 * i;
    frames::lower_at(work, at);
    if frames::is_zero_at(work, at) {
        wake_unit(units, v);
    }
}

// The symbols from offset a to offset e give way to k others: the offsets of the jobs of count units go along.
pub fn shift_units(work: &mut [u8], units: &[u32; 8], count: usize, a: usize, e: usize, k: usize)
    requires { let s : K.Store = K.store work.old units.now in U.Shiftable count a e k s }
    ensures { let s : K.Store = K.store work.old units.now in U.UnitsShifted count a e k s (K.store work.new s.cells) }
{
    for u in 0..count {
        frames::shift_stack(work, frames::base_of(u), end_of(units, u), a, e, k);
    }
}

// All units with SLEEP, each with its number as rank: unit 0 is busy, and the others are idle in the order 1, 2 and up.
fn sleep_all(work: &mut [u8], units: &mut [u32; 8])
    requires { U.EightRegions (K.store work.old units.old) }
    ensures { U.AsleepBelow 8 (K.store work.new units.new) }
{
    for u in 0..8 {
        let base = frames::base_of(u);
        frames::put_frame(work, base, Frame::Sleep);
        store(
            units,
            u,
            Unit {
                rank: u,
                end: base + 3,
            },
        );
    }
}

// Unit 0 busy with VISIT(root) over BINGO, the others idle with SLEEP.
pub fn start(work: &mut [u8], units: &mut [u32; 8])
    requires { U.EightRegions (K.store work.old units.old) }
    ensures { U.Started (K.store work.new units.new) }
{
    sleep_all(work, units);
    set_top(work, units, 0, Frame::Bingo);
    push(work, units, 0, Frame::Job(Job::new(0)));
}
