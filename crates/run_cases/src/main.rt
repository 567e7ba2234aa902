// Cases from standard input, each a head of 20 bytes, then a name, a book, a line and a schedule. The head: 1 byte name length, 2 bytes book
// length, 2 bytes line length, 1 byte units, 4 bytes budget, 2 bytes day, 2 bytes schedule length, 2 bytes each for the lengths of work area, net and
// output (most significant byte first). For each, a line with the name, what the run answers and its term in hexadecimal, and what became of the work
// area, of the net and of the output behind the term.
#![tactic(auto)]

ghost use Rattle.std.specs.Prelude.{◌≡◌, ◌<◌, ◌≤◌, length};

use cases::{say, say_front, say_number, say_refused};
use run::Run;

// What the lent buffers hold before a run, so that a byte that is written shows.
const WORK_FILLER: u8 = 0x5a;

const NET_FILLER: u8 = 0x3c;

const OUTPUT_FILLER: u8 = 0xa5;

// What a case's head says.
#[derive(Drop)]
struct Head {
    name: usize,
    book: usize,
    line: usize,
    units: u8,
    budget: u32,
    day: u16,
    schedule: usize,
    work: usize,
    net: usize,
    output: usize,
    ghost name_fits: { name < 256 },
    ghost parts_fit: { (book < 65536) × (line < 65536) × (schedule < 65536) },
    ghost areas_fit: { (work < 65536) × (net < 65536) × (output < 65536) },
}

// Two numbers of two bytes as one, the most significant first.
fn long_number(high: usize, low: usize) -> u32
    requires { (high < 65536) × (low < 65536) }
{
    (high * 65536 + low) as u32
}

fn head_of(bytes: &[u8; 20]) -> Head {
    Head {
        name: usize::from(bytes[0]),
        book: cases::number(bytes[1], bytes[2]),
        line: cases::number(bytes[3], bytes[4]),
        units: bytes[5],
        budget: long_number(
            cases::number(bytes[6], bytes[7]),
            cases::number(bytes[8], bytes[9]),
        ),
        day: cases::number(bytes[10], bytes[11]) as u16,
        schedule: cases::number(bytes[12], bytes[13]),
        work: cases::number(bytes[14], bytes[15]),
        net: cases::number(bytes[16], bytes[17]),
        output: cases::number(bytes[18], bytes[19]),
    }
}

// What became of a buffer: the word if all of it is of one value.
fn say_area(name: &[u8], area: &[u8], value: u8, word: &[u8]) {
    say(name);
    say(if area.iter().all(|&byte| byte == value) {
        word
    } else {
        b"CHANGED"
    });
}

fn say_run(run: Run, output: &[u8])
    requires { run.length ≤ length output.now }
{
    say(b"end ");
    say_number(run::ending_number(run.ending));
    say(b" rewrites ");
    say_number(run.rewrites as usize);
    say(b" entries ");
    say_number(run.entries);
    say(b" granted ");
    say_number(run.granted);
    say(b" kept ");
    say_number(run.kept);
    say(b" term ");
    say_front(output, run.length);
}

// The line of a run, behind its name.
fn try_run(
    book: &[u8],
    line: &[u8],
    units: u8,
    budget: u32,
    day: u16,
    schedule: &[u8],
    work: &mut [u8],
    net: &mut [u8],
    output: &mut [u8],
) {
    match engine::reduce(book, line, units, budget, day, schedule, work, net, output) {
        Err(e) => {
            say_refused(e.number());
            say_area(b" work ", work, WORK_FILLER, b"kept");
            say_area(b" net ", net, NET_FILLER, b"kept");
            say_area(b" output ", output, OUTPUT_FILLER, b"kept");
        }
        Ok(run) => {
            let behind = run.length;
            say_run(run, output);
            say_area(b" work ", work, 0, b"zero");
            say_area(b" net ", net, 0, b"zero");
            say_area(b" output ", &output[behind..], OUTPUT_FILLER, b"kept");
        }
    }
    say(b"\n");
}

fn filled(value: u8) -> [u8; 65536]
    ensures { 65536 ≡ length result }
{
    [value; 65536]
}

// A run with a work area of `area` bytes, a net of `ways` bytes and an output of `room` bytes.
fn try_lengths(
    book: &[u8],
    line: &[u8],
    units: u8,
    budget: u32,
    day: u16,
    schedule: &[u8],
    area: usize,
    ways: usize,
    room: usize,
)
    requires { (area < 65536) × (ways < 65536) × (room < 65536) }
{
    let mut work = filled(WORK_FILLER);
    let mut net = filled(NET_FILLER);
    let mut output = filled(OUTPUT_FILLER);
    try_run(
        book,
        line,
        units,
        budget,
        day,
        schedule,
        &mut work[..area],
        &mut net[..ways],
        &mut output[..room],
    );
}

// A case behind its name. False where the input ends before it does.
fn try_head(head: Head) -> bool {
    let mut book = io::large_buffer();
    let mut line = io::large_buffer();
    let mut schedule = io::large_buffer();
    if !cases::read_front(&mut book, head.book)
        || !cases::read_front(&mut line, head.line)
        || !cases::read_front(&mut schedule, head.schedule)
    {
        return false;
    }
    try_lengths(
        &book[..head.book],
        &line[..head.line],
        head.units,
        head.budget,
        head.day,
        &schedule[..head.schedule],
        head.work,
        head.net,
        head.output,
    );
    true
}

// Passes a name of n bytes on. False where the input ends before it does.
fn pass_name(n: usize) -> bool
    requires { n < 256 }
{
    let mut name = io::buffer();
    if !cases::read_front(&mut name, n) {
        return false;
    }
    say(&name[..n]);
    say(b": ");
    true
}

// The next case. False at the end of the input.
fn try_case() -> bool {
    let mut bytes = [0u8; 20];
    if !cases::read_front(&mut bytes, 20) {
        return false;
    }
    let head = head_of(&bytes);
    pass_name(head.name) && try_head(head)
}

// As many turns as no input uses up, so that the loop ends.
fn main() {
    for _ in 0..u64::MAX {
        if !try_case() {
            return;
        }
    }
}
