// The record of an answer, written at a position of a buffer.
#![tactic(auto)]

ghost use Rattle.std.specs.Prelude.{◌∷◌, [], ◌+◌, ◌≤◌, ◌≡◌, length, take};
ghost use Rattle.symbol.specs.Record as Y;
ghost use Rattle.stream.specs.Promises.{WrittenAt};
ghost use Rattle.engine.specs.Spec.{values};
ghost use Rattle.records.specs.Record.{longest, value_bytes};

use run::Run;

// The bytes of the longest record.
pub const LONGEST: usize = 1056;

// The record of the refusal of number k, at a position; the position behind it.
// Kept: a number, since any may be given here, and a reason is one of 24.
pub fn put_refusal(k: u8, answers: &mut [u8], at: usize) -> usize
    requires { at + longest ≤ length answers.old }
    ensures { WrittenAt at (k ∷ []) answers.old answers.new result }
{
    answers[at] = k;
    at + 1
}

// The operators of the first n symbols, at a position; the position behind them.
fn put_term(symbols: &[u32; 1024], n: usize, answers: &mut [u8], at: usize) -> usize
    requires { (n ≤ 1024) × (at + n ≤ length answers.old) }
    ensures { WrittenAt at (Y.operators (take n symbols.now)) answers.old answers.new result }
{
    for i in 0..n {
        answers[at + i] = symbol::operator(symbols[i]);
    }
    at + n
}

// The record of a run whose present term is in the symbols, at a position; the position behind it.
pub fn put_run(run: Run, symbols: &[u32; 1024], answers: &mut [u8], at: usize) -> usize
    requires { (run.length ≤ 1024) × (at + longest ≤ length answers.old) }
    ensures { WrittenAt at (value_bytes (values (Ok run)) (Y.operators (take run.length symbols.now))) answers.old
        answers.new result }
{
    let a = stream::put_number(answers, at, 2, run::ending_number(run.ending));
    let b = stream::put_number(answers, a, 4, run.rewrites as usize);
    let c = stream::put_number(answers, b, 8, run.entries);
    let d = stream::put_number(answers, c, 8, run.granted);
    let e = stream::put_number(answers, d, 8, run.kept);
    let f = stream::put_number(answers, e, 2, run.length);
    put_term(symbols, run.length, answers, f)
}
