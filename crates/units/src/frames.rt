// The units' stacks (document 01, 'Orders of a unit'), kept as frames of three bytes in a lent work area. A frame is known by its place, that of its
// first byte. Unit u's stack is the frames from base_of(u) on, the lowest first.
ghost use Rattle.std.specs.Prelude.{◌≡◌, map, ℕ, ◌+◌, ◌*◌, ◌/◌, ◌%◌, ◌<◌, ◌≤◌, length, get_or};
ghost use Rattle.flat.specs.Machine.{lower, is_zero, shift_frame};
ghost use Rattle.units.specs.Frames.{flat, decode, frame_at, InThreeBytes};
ghost use Rattle.units.specs.Stacks.{base, stack_of, Below, Offsets};
ghost use Rattle.units.specs.Promises as U;

// The frames of a unit's region; height in specs/Stacks is the same number.
pub const HEIGHT: usize = 1026;

// A term in work: its offset; its next order, 0 if that is its VISIT and otherwise one more than the order's index in its operator's steps; the count
// of its next JOIN.
#[derive(Clone, Copy, Debug, PartialEq, Eq)]
pub struct Job {
    pub offset: u16,
    pub next: u8,
    pub count: u8,
}

impl Job {
    // A term that is to be visited.
    pub fn new(offset: u16) -> Job
        ensures { result ≡ U.fresh_job offset }
    {
        Job {
            offset,
            next: 0,
            count: 0,
        }
    }
}

// An EXIT: the unit of its JOIN, and the index of its JOIN's job on that unit's stack.
#[derive(Clone, Copy, Debug, PartialEq, Eq)]
pub struct Exit {
    pub unit: u8,
    pub index: u16,
}

#[derive(Clone, Copy, Debug, PartialEq, Eq)]
pub enum Frame {
    Job(Job),
    Exit(Exit),
    Sleep,
    Bingo,
}

// Where the frames of unit u start.
pub fn base_of(u: usize) -> usize
    requires { u < 256 }
    ensures { result ≡ base u }
{
    3 * (u * HEIGHT)
}

// A frame's low byte and its high one go together as a word, here and in put_word: the compiler then makes one load and one store of them, and a
// frame that has just been put is read without waiting for two stores.
fn word_at(work: &[u8], at: usize) -> u16
    requires { at + 3 ≤ length work.now }
    ensures { (result % 256 ≡ get_or work.now (at + 1) 0) × (result / 256 ≡ get_or work.now (at + 2) 0) }
{
    u16::from(work[at + 1]) + u16::from(work[at + 2]) * 256
}

fn put_word(work: &mut [u8], at: usize, kind: u8, word: u16)
    requires { at + 3 ≤ length work.old }
    ensures { U.FramePut at (decode kind (word % 256) (word / 256)) work.old work.new }
{
    work[at] = kind;
    work[at + 1] = (word % 256) as u8;
    work[at + 2] = (word / 256) as u8;
}

// The frame of a kind and a word. A job's kind is its next order; its word's ten low bits are its offset, the six others its count. An EXIT's word is
// its stack index.
fn frame_of(kind: u8, word: u16) -> Frame
    ensures { (flat result ≡ decode kind (word % 256) (word / 256)) × InThreeBytes (flat result) }
{
    match kind {
        0..=31 => Frame::Job(Job {
            offset: word % 1024,
            next: kind,
            count: (word / 1024) as u8,
        }),
        32..=39 => Frame::Exit(Exit {
            unit: kind - 32,
            index: word,
        }),
        40 => Frame::Sleep,
        _ => Frame::Bingo,
    }
}

pub fn frame_at(work: &[u8], at: usize) -> Frame
    requires { at + 3 ≤ length work.now }
    ensures { (flat result ≡ frame_at work.now at) × InThreeBytes (flat result) }
{
    frame_of(work[at], word_at(work, at))
}

pub fn put_frame(work: &mut [u8], at: usize, f: Frame)
    requires { (at + 3 ≤ length work.old) × InThreeBytes (flat f) }
    ensures { U.FramePut at (flat f) work.old work.new }
{
    match f {
        Frame::Job(job) => put_word(work, at, job.next, job.offset + u16::from(job.count) * 1024),
        Frame::Exit(exit) => put_word(work, at, exit.unit + 32, exit.index),
        Frame::Sleep => put_word(work, at, 40, 0),
        Frame::Bingo => put_word(work, at, 41, 0),
    }
}

// The word of a frame whose count, if it is a job's, falls by one.
fn lowered(kind: u8, word: u16) -> u16
    ensures { decode kind (result % 256) (result / 256) ≡ lower (decode kind (word % 256) (word / 256)) }
{
    if kind < 32 && 1024 <= word {
        return word - 1024;
    }
    word
}

// The count of a job falls by one.
pub fn lower_at(work: &mut [u8], at: usize)
    requires { at + 3 ≤ length work.old }
    ensures { U.FramePut at (lower (frame_at work.old at)) work.old work.new }
{
    let kind = work[at];
    let word = word_at(work, at);
    put_word(work, at, kind, lowered(kind, word));
}

fn zero_count(kind: u8, high: u8) -> bool
    ensures { (low : ℕ) → is_zero (decode kind low high) ≡ result }
{
    kind < 32 && high < 4
}

// Is the frame a job with count 0?
pub fn is_zero_at(work: &[u8], at: usize) -> bool
    requires { at + 3 ≤ length work.now }
    ensures { is_zero (frame_at work.now at) ≡ result }
{
    zero_count(work[at], work[at + 2])
}

// The word of a frame whose offset, if it is a job's, is moved.
fn moved(kind: u8, word: u16, a: usize, e: usize, n: usize) -> u16
    requires { Below 1024 (shift_frame a e n (decode kind (word % 256) (word / 256))) }
    ensures { decode kind (result % 256) (result / 256) ≡ shift_frame a e n (decode kind (word % 256) (word / 256)) }
{
    let x = (word % 1024) as usize;
    if kind < 32 && e <= x {
        return (a + n + (x - e)) as u16 + word / 1024 * 1024;
    }
    word
}

fn shift_at(work: &mut [u8], at: usize, a: usize, e: usize, n: usize)
    requires { (at + 3 ≤ length work.old) × Below 1024 (shift_frame a e n (frame_at work.old at)) }
    ensures { U.FramePut at (shift_frame a e n (frame_at work.old at)) work.old work.new }
{
    let kind = work[at];
    let word = word_at(work, at);
    put_word(work, at, kind, moved(kind, word, a, e, n));
}

// The symbols from offset a to offset e give way to n others: the offset of each job of the stack from one place to another goes along. From its top
// down, since the compiler would take two frames at a time upwards, and divide by three to know whether one is left over.
// Kept: a loop that counts by hand, since `step_by(3).rev()` divides by three at each step.
pub fn shift_stack(work: &mut [u8], from: usize, end: usize, a: usize, e: usize, n: usize)
    requires end_value { (end ≡ from + 3 * U.frames from end) × (end ≤ length work.old) }
    requires offsets { Offsets 1024 (map (shift_frame a e n) (stack_of work.old from (U.frames from end))) }
    ensures { U.StackShifted from (U.frames from end) a e n work.old work.new }
{
    let mut at = end;
    while from < at {
        at -= 3;
        shift_at(work, at, a, e, n);
    }
}
