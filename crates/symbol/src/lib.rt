// A symbol's record in the working array: its operator, its mark and its size, the number of symbols under and including it, in one number.
#![tactic(auto)]

ghost use Rattle.std.specs.Prelude.{true, false, ◌≡◌, ◌+◌, ◌-◌, ◌≤◌, ◌<◌};
ghost use Rattle.symbol.specs.Record as R;

// A symbol without mark.
pub fn make(o: u8, n: usize) -> u32
    requires { n ≤ 1024 }
    ensures { (R.operator result ≡ o) × (R.size result ≡ n) × (R.marked result ≡ false) }
{
    o as u32 + 512 * (n as u32)
}

pub fn operator(x: u32) -> u8
    ensures { result ≡ R.operator x }
{
    (x % 256) as u8
}

pub fn is_marked(x: u32) -> bool
    ensures { result ≡ R.marked x }
{
    x / 256 % 2 == 1
}

// The same symbol with its mark.
pub fn mark(x: u32) -> u32
    ensures { (R.operator result ≡ R.operator x) × (R.size result ≡ R.size x) × (R.marked result ≡ true) }
{
    if is_marked(x) { x } else { x + 256 }
}

// The size in as many bits as the record, so that the sizes of several records are compared at a time.
pub fn size32(x: u32) -> u32
    ensures { (result ≡ R.size x) × (result < 8388608) }
{
    x / 512
}

pub fn size(x: u32) -> usize
    ensures { (result ≡ R.size x) × (result < 8388608) }
{
    size32(x) as usize
}

// The same operator and mark with another size: `less` symbols go, `more` come.
pub fn resized(x: u32, less: u32, more: u32) -> u32
    requires { (less ≤ R.size x) × (R.size x ≤ 1024) × (more ≤ 1024) }
    ensures { (R.operator result ≡ R.operator x) × (R.size result ≡ R.size x - less + more) × (R.marked result ≡ R.marked x) }
{
    x - 512 * less + 512 * more
}
