// Casts between widths, said once: each says the value and its range, so that a caller's sums and indices are bounded without a proof.
#![tactic(auto)]

ghost use Rattle.std.specs.Prelude.{◌≡◌, ◌<◌, ◌^◌};

// A byte as an index.
pub fn index(x: u8) -> usize
    ensures { (result ≡ x) × (result < 256) }
{
    x as usize
}

// A 16-bit number as an index.
pub fn offset(x: u16) -> usize
    ensures { (result ≡ x) × (result < 65536) }
{
    x as usize
}

// A 32-bit number as a position.
pub fn position(x: u32) -> usize
    ensures { (result ≡ x) × (result < 2 ^ 32) }
{
    x as usize
}

pub fn byte(x: usize) -> u8
    requires { x < 256 }
    ensures { result ≡ x }
{
    x as u8
}

// The low byte of a field of at most eight bits.
pub fn low_byte(x: u16) -> u8
    requires { x < 256 }
    ensures { result ≡ x }
{
    x as u8
}

pub fn short(x: usize) -> u16
    requires { x < 65536 }
    ensures { result ≡ x }
{
    x as u16
}

pub fn word(x: usize) -> u32
    requires { x < 2 ^ 32 }
    ensures { result ≡ x }
{
    x as u32
}
