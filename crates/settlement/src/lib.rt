// A run, and the fee and parts of what it posts. Whether a posting can be charged is known behind the run alone, so the run is made in areas of its own, and
// nothing lent is written before the last check has passed.
#![tactic(auto)]

ghost use Rattle.std.specs.Prelude.{◌++◌, ◌≡◌, ◌≤◌, length, drop};
ghost use Rattle.run.specs.Promises.{ending};
ghost use Rattle.engine.specs.Spec.{reader};
ghost use Rattle.settlement.specs.Spec as X;
ghost use Rattle.settlement.specs.Promises as C;

use engine::Form;
use refusal::Refusal;
use run::{Ending, Run};

// A run that did not finish; or a finished run, and the fee of its posting.
#[derive(Clone, Copy, Debug, PartialEq, Eq)]
pub enum Settled {
    Ended(Run),
    Posted(Run, i64),
}

// The term's bytes, to the front of the output.
fn hand_out(term: &[u8], output: &mut [u8])
    requires { length term.now ≤ length output.old }
    ensures { output.new ≡ term.now ++ drop (length term.now) output.old }
{
    output[..term.len()].copy_from_slice(term);
}

// What a run left is its term: it is charged, if the run finished, and handed out.
fn settle_run(
    run: Run,
    term: &[u8],
    rates: &[u8],
    amount: i64,
    shares: &[u16],
    output: &mut [u8],
    parts: &mut [i64; 16],
) -> Result<Settled, Refusal>
    requires { length term.now ≤ length output.old }
    ensures { C.RunSettled run term.now (X.charged (ending run.ending) term.now rates.now amount shares.now)
        output.old output.new parts.old parts.new result }
{
    if run.ending != Ending::Finished {
        hand_out(term, output);
        return Ok(Settled::Ended(run));
    }
    let fee = fees::charge(term, rates, amount, shares, parts)?;
    hand_out(term, output);
    Ok(Settled::Posted(run, fee))
}

// The run of a line or text by the rules of a book that stand on a day, and the charge of what it posts.
pub fn settle(
    form: Form,
    book: &[u8],
    line: &[u8],
    units: u8,
    budget: u32,
    day: u16,
    schedule: &[u8],
    rates: &[u8],
    amount: i64,
    shares: &[u16],
    output: &mut [u8],
    parts: &mut [i64; 16],
) -> Result<Settled, Refusal>
    ensures { X.SettledBy (reader form) book.now line.now units budget day schedule.now rates.now amount
        shares.now output.old parts.old output.new parts.new result }
{
    engine::check_frame(units, engine::WORK, engine::NET, output.len())?;
    let mut work = [0u8; engine::WORK];
    let mut net = [0u8; engine::NET];
    let mut term = [0u8; engine::OUTPUT];
    let run = engine::reduce_form(
        form, book, line, units, budget, day, schedule, &mut work, &mut net, &mut term,
    )?;
    let n = run.length;
    settle_run(run, &term[..n], rates, amount, shares, output, parts)
}
