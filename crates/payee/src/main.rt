// The second program: the page of its standard input, in which a payee's text stands where the term stood.
#![tactic(auto)]

use engine::Form;

// The descriptors of standard input and output.
const STDIN_FILENO: i32 = 0;

const STDOUT_FILENO: i32 = 1;

fn main() {
    let mut input = [0u8; page::INPUT];
    let n = io::read_full(STDIN_FILENO, &mut input);
    let mut sheet = [0u8; page::PAGE];
    let k = page::of_buffer(Form::Text, &input, n, &mut sheet);
    io::write_all(STDOUT_FILENO, &sheet[..k]);
}
