// Cases from standard input, each 2 bytes book length, 2 bytes output length, 2 bytes day (most significant byte first) and the book. For each, a line
// with what the reader answers on that day, what the writer answers, and the writer's output in hexadecimal, whole.
#![tactic(auto)]

ghost use Rattle.std.specs.Prelude.{◌≡◌, ◌<◌, ◌≤◌, length};

use cases::{say, say_number, say_refused};

// What the reader answers.
fn try_reader(bytes: &[u8], day: u16)
    requires { length bytes.now ≤ 65536 }
{
    let mut operators = [0u8; 4352];
    let mut rules = [0u32; 512];
    match book::read_book(bytes, day, &mut operators, &mut rules) {
        Err(e) => say_refused(e.number()),
        Ok(n) => {
            say(b"read ");
            say_number(n);
            say(b" ");
            say_number(tables::count(&rules));
        }
    }
}

// What the writer answers, and its output.
fn try_writer(bytes: &[u8], output: &mut [u8]) {
    match writer::write_book(bytes, output) {
        Err(e) => say_refused(e.number()),
        Ok(n) => {
            say(b"written ");
            say_number(n);
        }
    }
    say(b" ");
    cases::say_front(output, output.len());
}

// The line of one book.
fn try_book(bytes: &[u8], day: u16, output: &mut [u8])
    requires { length bytes.now ≤ 65536 }
{
    try_reader(bytes, day);
    say(b" ");
    try_writer(bytes, output);
    say(b"\n");
}

// An output in which a byte that is written shows.
fn untouched() -> [u8; 65536]
    ensures { 65536 ≡ length result }
{
    [0xa5; 65536]
}

// A book of len bytes, with an output of room bytes. False where the input ends before it.
fn try_sizes(len: usize, room: usize, day: u16) -> bool
    requires { (len < 65536) × (room < 65536) }
{
    let mut space = io::large_buffer();
    let mut output = untouched();
    if !cases::read_front(&mut space, len) {
        return false;
    }
    try_book(&space[..len], day, &mut output[..room]);
    true
}

// The next case. False at the end of the input.
fn try_case() -> bool {
    let mut head = [0u8; 6];
    if !cases::read_front(&mut head, 6) {
        return false;
    }
    try_sizes(
        cases::number(head[0], head[1]),
        cases::number(head[2], head[3]),
        cases::number(head[4], head[5]) as u16,
    )
}

// As many turns as no input uses up, so that the loop ends.
fn main() {
    for _ in 0..u64::MAX {
        if !try_case() {
            return;
        }
    }
}
