// The frames one by one; how many jobs stand at each offset, and how many EXITs name each frame.
ghost use Rattle.std.specs.Prelude.{[], ◌∷◌, ◌≡◌, ◌*◌, ◌/◌, ◌<◌, ◌≤◌, leb, get_or, replicate};
ghost use Rattle.flat.specs.Machine as F;
ghost use Rattle.flat.specs.Tested.{each_below};
ghost use Rattle.units.specs.Frames.{flat, InThreeBytes};
ghost use Rattle.units.specs.Stacks as K;
ghost use Rattle.point_frames.specs.Counting as C;

use units::{Exit, Frame, Job, frames};

// The number of frames of unit v's stack.
pub fn height(cells: &[u32; 8], v: usize) -> usize
    requires { (v < 8) × (v * K.height ≤ K.end_in cells.now v / 3) }
    ensures { result ≡ K.height_in cells.now v }
{
    casts::position(cells[v] % 65536) / 3 - v * frames::HEIGHT
}

// The frame at index i of unit v's stack, of so many units; SLEEP where there is none.
pub fn frame(work: &[u8], cells: &[u32; 8], units: usize, v: usize, i: usize) -> Frame
    requires { let k : K.Store = K.store work.now cells.now in C.Kept k units }
    ensures { let k : K.Store = K.store work.now cells.now in (C.frame_in k units v i ≡ flat result) × InThreeBytes (flat result) }
{
    if v < units && i < height(cells, v) {
        return frames::frame_at(work, frames::base_of(v) + 3 * i);
    }
    Frame::Sleep
}

// A job more at its offset.
fn count_job(jobs: &mut [u16; 1024], job: Job)
    requires { (job.offset < 1024) × C.JobsRoom (C.jobs_of (F.Frame.job job.offset job.next job.count ∷ [])) jobs.old }
    ensures { C.JobsAdded (C.jobs_of (F.Frame.job job.offset job.next job.count ∷ [])) jobs.old jobs.new }
{
    let a = casts::offset(job.offset);
    jobs[a] += 1;
}

// An EXIT more for the frame that it names, if there is one.
fn count_exit(cells: &[u32; 8], units: usize, exits: &mut [u16; 8208], exit: Exit)
    requires { C.Heights cells.now units × C.ExitsRoom cells.now units (C.exits_of (F.Frame.exit exit.unit exit.index ∷ [])) exits.old }
    ensures { C.ExitsAdded cells.now units (C.exits_of (F.Frame.exit exit.unit exit.index ∷ [])) exits.old exits.new }
{
    let v = casts::index(exit.unit);
    let i = casts::offset(exit.index);
    if v < units && i < height(cells, v) {
        let k = v * frames::HEIGHT + i;
        exits[k] += 1;
    }
}

// A frame more.
fn count(cells: &[u32; 8], units: usize, jobs: &mut [u16; 1024], exits: &mut [u16; 8208], f: Frame)
    requires heights { C.Heights cells.now units × InThreeBytes (flat f) }
    requires jobs_room { C.JobsRoom (C.jobs_of (flat f ∷ [])) jobs.old × C.ExitsRoom cells.now units (C.exits_of (flat f ∷ [])) exits.old }
    ensures jobs_added { C.JobsAdded (C.jobs_of (flat f ∷ [])) jobs.old jobs.new }
    ensures exits_added { C.ExitsAdded cells.now units (C.exits_of (flat f ∷ [])) exits.old exits.new }
{
    match f {
        Frame::Job(job) => {
            count_job(jobs, job);
        }
        Frame::Exit(exit) => {
            count_exit(cells, units, exits, exit);
        }
        _ => {}
    }
}

// The frames of unit v's stack.
fn count_stack(
    work: &[u8],
    cells: &[u32; 8],
    units: usize,
    jobs: &mut [u16; 1024],
    exits: &mut [u16; 8208],
    v: usize,
)
    requires kept { let k : K.Store = K.store work.now cells.now in C.Kept k units × (v < units) }
    requires jobs_room { let k : K.Store = K.store work.now cells.now in C.JobsRoom (C.jobs_of (C.stack_in k units v)) jobs.old × C.ExitsRoom cells.now units (C.exits_of (C.stack_in k units v)) exits.old }
    ensures jobs_added { let k : K.Store = K.store work.now cells.now in C.JobsAdded (C.jobs_of (C.stack_in k units v)) jobs.old jobs.new }
    ensures exits_added { let k : K.Store = K.store work.now cells.now in C.ExitsAdded cells.now units (C.exits_of (C.stack_in k units v)) exits.old exits.new }
{
    for h in (0..height(cells, v)).rev() {
        count(cells, units, jobs, exits, frame(work, cells, units, v, h));
    }
}

// All frames.
pub fn count_all(
    work: &[u8],
    cells: &[u32; 8],
    units: usize,
    jobs: &mut [u16; 1024],
    exits: &mut [u16; 8208],
)
    requires { let k : K.Store = K.store work.now cells.now in C.Kept k units × (jobs.old ≡ replicate 1024 0) × (exits.old ≡ replicate 8208 0) }
    ensures { let k : K.Store = K.store work.now cells.now in C.JobsTallied k units jobs.new × C.ExitsTallied k units exits.new }
{
    for v in (0..units).rev() {
        count_stack(work, cells, units, jobs, exits, v);
    }
}

// Is there at most one job at each of the first n offsets?
pub fn distinct(jobs: &[u16; 1024], n: usize) -> bool
    requires { n ≤ 1024 }
    ensures { each_below (λ x. leb (get_or jobs.now x 0) 1) n ≡ result }
{
    for x in (0..n).rev() {
        if 1 < jobs[x] {
            return false;
        }
    }
    true
}
