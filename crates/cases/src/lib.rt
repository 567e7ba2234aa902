// What the programs that try cases share: numbers and bytes from standard input, and words, numbers and bytes to standard output.
#![tactic(auto)]

ghost use Rattle.std.specs.Prelude.{◌≡◌, ◌+◌, ◌*◌, ◌<◌, ◌≤◌, length};

// The descriptors of standard input and output.
const STDIN_FILENO: i32 = 0;

const STDOUT_FILENO: i32 = 1;

// Two bytes as one number, the most significant first.
pub fn number(high: u8, low: u8) -> usize
    ensures { (result ≡ high * 256 + low) × (result < 65536) }
{
    usize::from(u16::from_be_bytes([high, low]))
}

pub fn say(text: &[u8]) {
    io::write_all(STDOUT_FILENO, text);
}

pub fn say_number(x: usize) {
    io::print_decimal(STDOUT_FILENO, x as u64);
}

pub fn say_refused(k: u8) {
    say(b"refused ");
    say_number(usize::from(k));
}

// The first n bytes, in hexadecimal.
pub fn say_front(bytes: &[u8], n: usize)
    requires { n ≤ length bytes.now }
{
    for &byte in &bytes[..n] {
        io::print_hex(STDOUT_FILENO, u64::from(byte), 2);
    }
}

// Reads n bytes to the front of space. False where the input ends before.
pub fn read_front(space: &mut [u8], n: usize) -> bool
    requires { n ≤ length space.old }
    ensures { length space.new ≡ length space.old }
{
    io::read_full(STDIN_FILENO, &mut space[..n]) == n
}
