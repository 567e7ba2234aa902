// The run over a schedule (document 01, 'How a run ends'), whole or in parts (document 02, Change 11).
#![tactic(auto)]

ghost use Rattle.std.specs.Prelude.{◌≡◌, ◌<◌};
ghost use Rattle.paper.specs.Page.{ending_number};
ghost use Rattle.flat.specs.Machine.{FlatState};
ghost use Rattle.entry.specs.State as S;
ghost use Rattle.run.specs.Promises as R;

pub use entry::Ending;
use whole::{Limits, Progress};

// What a run answers: its ending, rewrites made, entries used, FORKs granted and kept, and the present term's length.
#[derive(Clone, Copy, Debug, PartialEq, Eq)]
pub struct Run {
    pub ending: Ending,
    pub rewrites: u32,
    pub entries: usize,
    pub granted: usize,
    pub kept: usize,
    pub length: usize,
}

// The ending's number.
pub fn ending_number(e: Ending) -> usize
    ensures { (result ≡ ending_number (R.ending e)) × (result < 4) }
{
    e as usize
}

// A run that ended so after so many entries, the present term being left in the symbols.
fn ended(ending: Ending, entries: usize, p: Progress, symbols: &[u32; 1024]) -> Run
    ensures { result ≡ R.ended ending entries p symbols.now }
{
    Run {
        ending,
        rewrites: p.rewrites,
        entries,
        granted: p.granted,
        kept: p.kept,
        length: term::length(symbols),
    }
}

// The run of a schedule from where the arrays stand, with so many rewrites made before and nothing else counted yet: what it counts is of this part alone,
// but for the rewrites, which the budget bounds over all parts. The arrays are left where the run stands, and scratch as it comes.
pub fn run_schedule(
    book: &[u8],
    operators: &[u8; 4352],
    net: &[u8],
    symbols: &mut [u32; 1024],
    scratch: &mut [u32; 1024],
    work: &mut [u8],
    units: &mut [u32; 8],
    order: &mut [u16; 1024],
    rewrites: u32,
    l: Limits,
    schedule: &[u8],
) -> Run
    requires arrays { S.Arrays symbols.old scratch.old work.old units.old order.old l }
    requires runnable { let s : FlatState = S.state symbols.old work.old units.old order.old (R.begun rewrites) l in R.Runnable book.now operators.now net.now l schedule.now s }
    ensures { let s : FlatState = S.state symbols.old work.old units.old order.old (R.begun rewrites) l in R.Ran book.now net.now l schedule.now s symbols.new scratch.new work.new units.new order.new result }
{
    let mut p = Progress {
        rewrites,
        granted: 0,
        kept: 0,
    };
    for (i, &u) in schedule.iter().enumerate() {
        match entry::enter(
            book,
            operators,
            net,
            symbols,
            scratch,
            work,
            units,
            order,
            usize::from(u),
            p,
            l,
        ) {
            Ok(next) => p = next,
            Err(ending) => return ended(ending, i + 1, p, symbols),
        }
    }
    ended(Ending::Cut, schedule.len(), p, symbols)
}
