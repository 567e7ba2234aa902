// A book's net, and a rewrite, for the benchmark.
#![tactic(auto)]

ghost use Rattle.std.specs.Prelude.{true, ◌≡◌, ◌≤◌, ◌<◌, length, get_or, take};
ghost use Rattle.flat.specs.Rules.{spells};
ghost use Rattle.tables.specs.Layout.{arity_in, day_in};
ghost use Rattle.tables.specs.Tables.{TablesOf};
ghost use Rattle.symbol.specs.Record.{operator};
ghost use Rattle.term.specs.Present.{length_in};
ghost use Rattle.net.specs.Layout.{published};
ghost use Rattle.lookup.specs.Promises.{Present};
ghost use Rattle.units.specs.Stacks.{store};
ghost use Rattle.units.specs.Promises.{EightRegions};
ghost use Rattle.whole.specs.Promises.{UnitsDue};

use whole::{Limits, Place, Progress, Whole};

// The units of a run's start.
#[unsafe(no_mangle)]
pub extern "C" fn bench_rule_start(work: &mut [u8], units: &mut [u32; 8])
    requires { EightRegions (store work.old units.old) }
{
    units::start(work, units);
}

// The term of the line's first n bytes, each symbol with its size.
#[unsafe(no_mangle)]
pub extern "C" fn bench_rule_load(
    symbols: &mut [u32; 1024],
    operators: &[u8; 4352],
    line: &[u8; 1024],
    n: usize,
)
    requires { (length symbols.old ≡ 1024) × (length line.now ≡ 1024) × (n ≤ 1024) × (spells (arity_in operators.now) 1 (take n line.now) ≡ true) }
{
    term::load(symbols, operators, line, n);
}

// The net of a book by its tables. A caller has these from bench_book_read of the same bytes.
#[unsafe(no_mangle)]
pub extern "C" fn bench_rule_build(
    bytes: &[u8],
    operators: &[u8; 4352],
    rules: &[u32; 512],
    net: &mut [u8],
)
    requires { TablesOf bytes.now operators.now rules.now × (length bytes.now ≤ 65536) × (published ≤ length net.old) × (day_in rules.now < 65536) }
{
    insertion::build(bytes, operators, rules, net);
}

// WHOLE of the term at an offset, by the only unit: the new term's length, or 0. A caller has the operators from bench_book_read of the same bytes, the
// net from bench_rule_build, the symbols from bench_rule_load, and the units from bench_rule_start.
#[unsafe(no_mangle)]
pub extern "C" fn bench_rule_rewrite(
    bytes: &[u8],
    operators: &[u8; 4352],
    net: &[u8],
    symbols: &mut [u32; 1024],
    offset: usize,
    scratch: &mut [u32; 1024],
    work: &mut [u8],
    units: &[u32; 8],
) -> usize
    requires { Present bytes.now operators.now net.now symbols.old offset × (length scratch.old ≡ 1024) × UnitsDue (store work.old units.now) 1 (record { unit = 0; offset = offset; operator = operator (get_or symbols.old offset 0) }) (length_in symbols.old) }
{
    match whole::rewrite(
        bytes,
        operators,
        net,
        symbols,
        scratch,
        work,
        units,
        Place {
            unit: 0,
            offset,
            operator: term::operator_at(symbols, offset),
        },
        Progress {
            rewrites: 0,
            granted: 0,
            kept: 0,
        },
        Limits {
            units: 1,
            budget: 1,
        },
    ) {
        Whole::Rewrote => term::length(symbols),
        Whole::Missed | Whole::Spent | Whole::Full => 0,
    }
}
