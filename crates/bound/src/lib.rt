// How long a schedule suffices: S and F of a book and a line, told by a run of one unit.
#![tactic(auto)]

ghost use Rattle.std.specs.Prelude.{◌≡◌, ◌+◌, ◌≤◌};
ghost use Rattle.paper.specs.Result.{accepted};
ghost use Rattle.run.specs.Promises.{ending};
ghost use Rattle.engine.specs.Spec.{reader};
ghost use Rattle.bound.specs.Spec as X;

use engine::Form;
use refusal::Refusal;
use run::{Ending, Run};

// The entries that the run has at most.
pub const ENTRIES: usize = 65536;

// The ending of a run that did not finish; or S, the orders that the run carries out, and F, its FORKs.
#[derive(Clone, Copy, Debug, PartialEq, Eq)]
pub enum Bound {
    Unknown(Ending),
    Told(usize, usize),
}

// What a run of one unit tells: its entries and its FORKs, if it finished.
fn tell(run: Run) -> Bound
    requires { run.granted + run.kept ≤ run.entries }
    ensures { X.bound_told result ≡ X.tells (ending run.ending) run.entries (run.granted + run.kept) }
{
    match run.ending {
        Ending::Finished => Bound::Told(run.entries, run.granted + run.kept),
        ending => Bound::Unknown(ending),
    }
}

// S and F of a line or text by the rules of a book that stand on a day, if a run of one unit finishes within the budget.
pub fn bound_form(
    form: Form,
    book: &[u8],
    line: &[u8],
    budget: u32,
    day: u16,
    work: &mut [u8],
    net: &mut [u8],
) -> Result<Bound, Refusal>
    ensures { X.BoundBy (reader form) book.now line.now budget day work.old net.old
        work.new net.new result }
{
    let schedule = [0u8; ENTRIES];
    let mut output = [0u8; engine::OUTPUT];
    let run = engine::reduce_form(
        form,
        book,
        line,
        1,
        budget,
        day,
        &schedule,
        work,
        net,
        &mut output,
    )?;
    Ok(tell(run))
}
