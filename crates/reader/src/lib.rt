// A bit reader: some bytes and a position in their bits (document 01: 'Fields are packed most significant bit first').
// The functions are few and thin: the work is `bits::field`'s.
#![tactic(auto)]

ghost use Rattle.std.specs.Prelude.{◌≡◌, ◌+◌, ◌^◌, ◌<◌, ◌≤◌, length};
ghost use Rattle.reader.specs.Promises.{FieldAt};

use bits::Bits;
use refusal::Refusal;

#[derive(Clone, Copy)]
pub struct Reader<'a> {
    pub bytes: &'a [u8],
    pub at: usize,
}

impl<'a> Reader<'a> {
    // A reader that stands at the first bit.
    pub fn new(bytes: &'a [u8]) -> Reader<'a>
        ensures { (result.bytes ≡ bytes.entry) × (result.at ≡ 0) }
    {
        Reader { bytes, at: 0 }
    }

    // The reader, n bits on.
    pub fn skip(self, n: usize) -> Reader<'a>
        requires { self.at + n < 2 ^ 64 }
        ensures { (result.bytes ≡ self.entry.bytes) × (result.at ≡ self.entry.at + n) }
    {
        Reader {
            at: self.at + n,
            ..self
        }
    }

    // The next n bits: their value and the position behind them, unless the book's bits run out.
    pub fn next(self, n: usize) -> Result<Bits, Refusal>
        requires { (length self.bytes.now ≤ 2 ^ 60) × (n ≤ 16) }
        ensures { FieldAt self.entry.bytes.now self.entry.at n result }
    {
        bits::field(self.bytes, self.at, n).ok_or(Refusal::BookRunsOut)
    }
}

// The field of n bits at position at.
pub fn field(bytes: &[u8], at: usize, n: usize) -> Result<Bits, Refusal>
    requires { (length bytes.now ≤ 2 ^ 60) × (n ≤ 16) }
    ensures { FieldAt bytes.now at n result }
{
    Reader::new(bytes).skip(at).next(n)
}
