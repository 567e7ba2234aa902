// Packed fields: n bits at a bit position of some bytes, most significant bit first (document 01, 'The book, bit by bit').
// A field of up to 16 bits stands in three bytes at most; they are read and written as one number of 24 bits, the window.
#![tactic(auto)]

ghost use Rattle.std.specs.Prelude.{◌≡◌, ◌+◌, ◌-◌, ◌*◌, ◌/◌, ◌%◌, ◌^◌, ◌<◌, ◌≤◌, length, get_or, set};
ghost use Rattle.bits.specs.Field.{Answers, Pair, Nine, Written};
ghost use Rattle.bits.specs.Window.{Window, renewed, set3};

// A field's value, and the position behind it.
#[derive(Clone, Copy, Debug, PartialEq, Eq)]
pub struct Bits {
    pub value: u16,
    pub next: usize,
}

// The byte at i. Past the end it counts as 0.
fn byte_at(s: &[u8], i: usize) -> usize
    ensures { (result ≡ get_or s.now i 0) × (result < 256) }
{
    if i < s.len() { usize::from(s[i]) } else { 0 }
}

// The three bytes from i on, as one number.
fn window(s: &[u8], i: usize) -> usize
    requires { i < 2 ^ 62 }
    ensures { Window s.now i result }
{
    (byte_at(s, i) * 256 + byte_at(s, i + 1)) * 256 + byte_at(s, i + 2)
}

fn power(k: usize) -> usize
    requires { k ≤ 24 }
    ensures { (result ≡ 2 ^ k) × (0 < result) }
{
    1 << k
}

// The n bits of w that stand above its lowest low bits.
fn middle(w: usize, low: usize, n: usize) -> u16
    requires { (low ≤ 24) × (n ≤ 16) }
    ensures { result ≡ w / 2 ^ low % 2 ^ n }
{
    (w / power(low) % power(n)) as u16
}

// How many bits stand from position at on.
pub fn left(s: &[u8], at: usize) -> usize
    requires { length s.now ≤ 2 ^ 60 }
    ensures { result ≡ 8 * length s.now - at }
{
    let all = s.len() * 8;
    if at < all { all - at } else { 0 }
}

// The field of n bits at position at; none if the bits run out.
pub fn field(s: &[u8], at: usize, n: usize) -> Option<Bits>
    requires { (length s.now ≤ 2 ^ 60) × (n ≤ 16) }
    ensures { Answers s.now at n result }
{
    if left(s, at) < n {
        return None;
    }
    let w = window(s, at / 8);
    Some(Bits {
        value: middle(w, 24 - at % 8 - n, n),
        next: at + n,
    })
}

// The two bytes from i on, as one number. Where both are there, one test tells.
fn pair(s: &[u8], i: usize) -> usize
    requires { i < 2 ^ 62 }
    ensures { Pair s.now i result }
{
    if i + 1 < s.len() {
        return usize::from(s[i]) * 256 + usize::from(s[i + 1]);
    }
    byte_at(s, i) * 256
}

// The nine bits at position at, as a number; past the end they count as 0. They stand in two bytes.
pub fn nine(s: &[u8], at: usize) -> usize
    ensures { Nine s.now at result }
{
    let i = at / 8;
    let w = pair(s, i);
    w / power(7 - at % 8) % 512
}

// Stores a byte, where there is one at i.
fn set_byte(out: &mut [u8], i: usize, v: usize)
    requires { v < 256 }
    ensures { out.new ≡ set out.old i v }
{
    if i < out.len() {
        out[i] = v as u8;
    }
}

fn set_window(out: &mut [u8], i: usize, w: usize)
    requires { (i < 2 ^ 62) × (w < 2 ^ 24) }
    ensures { out.new ≡ set3 out.old i w }
{
    set_byte(out, i, w / 65536);
    set_byte(out, i + 1, w / 256 % 256);
    set_byte(out, i + 2, w % 256);
}

// The window w with v in the n bits above its lowest low bits.
fn renew(w: usize, low: usize, n: usize, v: u16) -> usize
    requires { (w < 2 ^ 24) × (n + low ≤ 24) × (v < 2 ^ n) }
    ensures { (result ≡ renewed w low n v) × (result < 2 ^ 24) }
{
    let p = power(low);
    let q = power(n);
    (w / p / q * q + v as usize) * p + w % p
}

// Writes the n low bits of v at position at, where they fit, and leaves every other bit.
pub fn put(out: &mut [u8], at: usize, n: usize, v: u16)
    requires { (n ≤ 16) × (v < 2 ^ n) × (at + n ≤ 8 * length out.old) }
    ensures { Written out.old at n v out.new }
{
    let i = at / 8;
    let w = window(out, i);
    let x = renew(w, 24 - at % 8 - n, n, v);
    set_window(out, i, x);
}
