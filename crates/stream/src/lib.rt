// Bytes in a row: numbers of some bytes, the most significant first, and parts behind their length.
#![tactic(auto)]

ghost use Rattle.std.specs.Prelude.{◌≡◌, ◌+◌, ◌≤◌, ◌<◌, length, take, drop};
ghost use Rattle.paper.specs.Page.{number};
ghost use Rattle.stream.specs.Promises as C;

// Two bytes as one number.
pub fn pair(input: &[u8], at: usize) -> usize
    requires { at + 2 ≤ length input.now }
    ensures { (result ≡ number 0 (take 2 (drop at input.now))) × (result < 65536) }
{
    casts::index(input[at]) * 256 + casts::index(input[at + 1])
}

// The position behind the bytes whose length stands at position at; none if they are cut short.
pub fn part_end(input: &[u8], at: usize) -> Option<usize>
    requires { at ≤ length input.now }
    ensures { C.PartEnds input.now at result }
{
    if input.len() - at < 2 {
        return None;
    }
    let n = pair(input, at);
    let start = at + 2;
    if input.len() - start < n {
        return None;
    }
    Some(start + n)
}

// The last n bytes of a number, at position at; the position behind them.
pub fn put_number(output: &mut [u8], at: usize, n: usize, v: usize) -> usize
    requires { at + n ≤ length output.old }
    ensures { C.WrittenAt at (C.bytes n v) output.old output.new result }
{
    let mut left = v;
    for i in (0..n).rev() {
        output[at + i] = (left % 256) as u8;
        left /= 256;
    }
    at + n
}
