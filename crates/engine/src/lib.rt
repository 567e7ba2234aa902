// The entry points of a run: any book, line or text, units, budget, schedule, work area, net and output are taken. What is asked is checked in the order
// of document 01's table, then the run is made; nothing lent is written before the last check has passed.
#![tactic(auto)]

ghost use Rattle.std.specs.Prelude.{◌++◌, ◌≡◌, ℕ, ◌^◌, ◌≤◌, ◌<◌, length, take, drop, replicate};
ghost use Rattle.paper.specs.Page.{all_below};
ghost use Rattle.flat.specs.Machine.{FlatState};
ghost use Rattle.flat.specs.Meets.{PointRules};
ghost use Rattle.symbol.specs.Record as S;
ghost use Rattle.tables.specs.Layout.{day_in};
ghost use Rattle.net.specs.Net.{book_by};
ghost use Rattle.entry.specs.State as E;
ghost use Rattle.run.specs.Promises.{begun, Ran};
ghost use Rattle.engine.specs.Spec as R;
ghost use Rattle.engine.specs.Promises as C;

use refusal::Refusal;
use run::Run;
use whole::Limits;

// The published lengths of the work area and of the net's, and the length that an output must have; published in specs/Spec has the same numbers.
pub const WORK: usize = 24624;

pub const NET: usize = net::NET;

pub const OUTPUT: usize = 1024;

// What stands where the term stands: a term, or a payee's text.
#[derive(Clone, Copy)]
pub enum Form {
    Term,
    Text,
}

fn larger(x: u8, y: u8) -> u8
    ensures { (x ≤ result) × (y ≤ result) × ((u : ℕ) → x < u → y < u → result < u) }
{
    if x < y { y } else { x }
}

// Does every entry name one of the units? The largest is looked for, which takes no early leave, so that many are compared at a time.
pub fn names_units(schedule: &[u8], units: usize) -> bool
    requires { 0 < units }
    ensures { result ≡ all_below units schedule.now }
{
    let mut most = 0;
    for &u in schedule {
        most = larger(most, u);
    }
    casts::index(most) < units
}

// The line's symbols, to the front of the array.
fn load(symbols: &mut [u8; 1024], line: &[u8])
    requires { (length symbols.old ≡ 1024) × (length line.now ≤ 1024) }
    ensures { symbols.new ≡ line.now ++ drop (length line.now) symbols.old }
{
    // Kept as a loop: `copy_from_slice` would have the static library need `memmove` from outside.
    for i in 0..line.len() {
        symbols[i] = line[i];
    }
}

// The operators of the first n symbols, to the front of the output.
pub fn hand_out(symbols: &[u32; 1024], n: usize, output: &mut [u8])
    requires { (length symbols.now ≡ 1024) × (n ≤ 1024) × (1024 ≤ length output.old) }
    ensures { output.new ≡ S.operators (take n symbols.now) ++ drop n output.old }
{
    for i in 0..n {
        output[i] = symbol::operator(symbols[i]);
    }
}

// Every byte becomes 0.
pub fn clear(area: &mut [u8])
    ensures { area.new ≡ replicate (length area.old) 0 }
{
    area.fill(0);
}

// The run of the term that the line's first n symbols are, by a book's operators and the net of its rules. The arrays are left where the run stands, the present term
// in the symbols; nothing depends on what they held.
pub fn post_into(
    book: &[u8],
    operators: &[u8; 4352],
    net: &[u8],
    line: &[u8; 1024],
    n: usize,
    limits: Limits,
    schedule: &[u8],
    symbols: &mut [u32; 1024],
    scratch: &mut [u32; 1024],
    work: &mut [u8],
    cells: &mut [u32; 8],
    order: &mut [u16; 1024],
) -> Run
    requires opened { C.Opened book.now operators.now net.now }
    requires given { C.Given (book_by book.now net.now) line.now n }
    requires asked { C.Asked limits schedule.now (length work.old) }
    requires lent { C.Lent symbols.old scratch.old cells.old order.old }
    ensures posted { C.Posted (book_by book.now net.now) (take n line.now) limits schedule.now symbols.new result }
    ensures ran { Ran book.now net.now limits schedule.now (C.first (book_by book.now net.now) limits (take n line.now))
        symbols.new scratch.new work.new cells.new order.new result }
{
    term::load(symbols, operators, line, n);
    units::start(work, cells);
    // No part is pending.
    order[0] = 0;
    run::run_schedule(
        book, operators, net, symbols, scratch, work, cells, order, 0, limits, schedule,
    )
}

// The same run where nobody resumes it: the present term is left in the symbols.
pub fn post(
    book: &[u8],
    operators: &[u8; 4352],
    net: &[u8],
    line: &[u8; 1024],
    n: usize,
    limits: Limits,
    schedule: &[u8],
    symbols: &mut [u32; 1024],
    scratch: &mut [u32; 1024],
    work: &mut [u8],
) -> Run
    requires opened { C.Opened book.now operators.now net.now }
    requires given { C.Given (book_by book.now net.now) line.now n }
    requires asked { C.Asked limits schedule.now (length work.old) }
    requires symbols_len { (length symbols.old ≡ 1024) × (length scratch.old ≡ 1024) }
    ensures posted { C.Posted (book_by book.now net.now) (take n line.now) limits schedule.now
        symbols.new result }
    ensures scratch_long { length scratch.new ≡ 1024 }
{
    let mut cells = [0u32; 8];
    let mut order = [0u16; 1024];
    post_into(
        book, operators, net, line, n, limits, schedule, symbols, scratch, work, &mut cells,
        &mut order,
    )
}

// A parked run goes on from the point that the arrays hold, with so many rewrites made in the parts before; entries and FORKs are counted from zero. The arrays are left
// where the run stands.
pub fn resume(
    book: &[u8],
    operators: &[u8; 4352],
    net: &[u8],
    rewrites: u32,
    limits: Limits,
    schedule: &[u8],
    symbols: &mut [u32; 1024],
    scratch: &mut [u32; 1024],
    work: &mut [u8],
    cells: &mut [u32; 8],
    order: &mut [u16; 1024],
) -> Run
    requires arrays { E.Arrays symbols.old scratch.old work.old cells.old order.old limits }
    requires opened { C.Opened book.now operators.now net.now }
    requires point_rules { let s : FlatState = E.state symbols.old work.old cells.old order.old (begun rewrites) limits in PointRules (book_by book.now net.now) (E.limited limits.budget) s }
    requires asked { C.Asked limits schedule.now (length work.old) }
    ensures { let s : FlatState = E.state symbols.old work.old cells.old order.old (begun rewrites) limits in Ran book.now net.now limits schedule.now s
        symbols.new scratch.new work.new cells.new order.new result }
{
    run::run_schedule(
        book, operators, net, symbols, scratch, work, cells, order, rewrites, limits, schedule,
    )
}

// The net is built and the term in front of the line run, if every entry of the schedule names one of the units. Work area and net are cleared whole behind it.
fn run_checked(
    book: &[u8],
    operators: &[u8; 4352],
    rules: &[u32; 512],
    line: &[u8; 1024],
    length: usize,
    limits: Limits,
    schedule: &[u8],
    work: &mut [u8],
    net: &mut [u8],
    output: &mut [u8],
) -> Result<Run, Refusal>
    requires framed { C.Framed book.now limits.units work.old net.old output.old }
    requires loaded { C.Loaded book.now operators.now rules.now line.now length }
    requires budget_bound { limits.budget < 2 ^ 32 }
    ensures { R.Reduced book.now (take length line.now) limits.units limits.budget (day_in rules.now)
        schedule.now work.old net.old output.old work.new net.new output.new result }
{
    if !names_units(schedule, limits.units) {
        return Err(Refusal::UnknownUnitInSchedule);
    }
    insertion::build(book, operators, rules, net);
    let mut symbols = [0u32; 1024];
    let mut scratch = [0u32; 1024];
    let run = post(
        book,
        operators,
        net,
        line,
        length,
        limits,
        schedule,
        &mut symbols,
        &mut scratch,
        work,
    );
    hand_out(&symbols, run.length, output);
    clear(work);
    clear(net);
    Ok(run)
}

// Reads what stands where the term stands, by the table of a book of n operators, to the front of the symbols.
pub fn read_term(
    form: Form,
    line: &[u8],
    n: usize,
    operators: &[u8; 4352],
    symbols: &mut [u8; 1024],
) -> Result<usize, Refusal>
    requires { length symbols.old ≡ 1024 }
    ensures { C.TermRead (R.reader form) n operators.now line.now symbols.new result }
{
    match form {
        Form::Term => {
            line::check_line(line, n, operators)?;
            load(symbols, line);
            Ok(line.len())
        }
        Form::Text => text::read_text(line, n, operators, symbols),
    }
}

// A book of at most 65,536 bytes. The line or text that is given is read into a line of its own.
fn reduce_book(
    form: Form,
    book: &[u8],
    given: &[u8],
    units: u8,
    budget: u32,
    day: u16,
    schedule: &[u8],
    work: &mut [u8],
    net: &mut [u8],
    output: &mut [u8],
) -> Result<Run, Refusal>
    requires { C.Framed book.now units work.old net.old output.old }
    ensures { R.ReducedBy (R.reader form) book.now given.now units budget day schedule.now work.old
        net.old output.old work.new net.new output.new result }
{
    let mut operators = [0u8; tables::OPERATORS];
    let mut rules = [0u32; tables::RULES];
    let mut line = [0u8; 1024];
    let n = book::read_book(book, day, &mut operators, &mut rules)?;
    let length = read_term(form, given, n, &operators, &mut line)?;
    run_checked(
        book,
        &operators,
        &rules,
        &line,
        length,
        Limits {
            units: casts::index(units),
            budget,
        },
        schedule,
        work,
        net,
        output,
    )
}

// Checks the run's frame: units not 1 to 8, work area or net too short, output too short.
pub fn check_frame(units: u8, work: usize, net: usize, output: usize) -> Result<(), Refusal>
    ensures { C.frame_number result ≡ C.fault units work net output }
{
    if units == 0 || 8 < units {
        return Err(Refusal::BadUnits);
    }
    if work < WORK || net < NET {
        return Err(Refusal::WorkTooShort);
    }
    if output < OUTPUT {
        return Err(Refusal::OutputTooShort);
    }
    Ok(())
}

// The run of a line or text by the rules of a book that stand on a day: `units` units share the work as the schedule says, and make at most `budget`
// rewrites. An undated book ignores the day.
pub fn reduce_form(
    form: Form,
    book: &[u8],
    line: &[u8],
    units: u8,
    budget: u32,
    day: u16,
    schedule: &[u8],
    work: &mut [u8],
    net: &mut [u8],
    output: &mut [u8],
) -> Result<Run, Refusal>
    ensures { R.ReducedBy (R.reader form) book.now line.now units budget day schedule.now work.old
        net.old output.old work.new net.new output.new result }
{
    check_frame(units, work.len(), net.len(), output.len())?;
    // What stands behind a book's first 65,536 bytes does not change what it reads as.
    if 65536 < book.len() {
        return reduce_book(
            form,
            &book[0..65536],
            line,
            units,
            budget,
            day,
            schedule,
            work,
            net,
            output,
        );
    }
    reduce_book(
        form, book, line, units, budget, day, schedule, work, net, output,
    )
}

// The run of a line by a book.
pub fn reduce(
    book: &[u8],
    line: &[u8],
    units: u8,
    budget: u32,
    day: u16,
    schedule: &[u8],
    work: &mut [u8],
    net: &mut [u8],
    output: &mut [u8],
) -> Result<Run, Refusal>
    ensures { R.Reduced book.now line.now units budget day schedule.now work.old
        net.old output.old work.new net.new output.new result }
{
    reduce_form(
        Form::Term,
        book,
        line,
        units,
        budget,
        day,
        schedule,
        work,
        net,
        output,
    )
}

// The run of a payee's text, which stands where the line's term stood.
pub fn payee(
    book: &[u8],
    text: &[u8],
    units: u8,
    budget: u32,
    day: u16,
    schedule: &[u8],
    work: &mut [u8],
    net: &mut [u8],
    output: &mut [u8],
) -> Result<Run, Refusal>
    ensures { R.PayeeReduced book.now text.now units budget day schedule.now work.old
        net.old output.old work.new net.new output.new result }
{
    reduce_form(
        Form::Text,
        book,
        text,
        units,
        budget,
        day,
        schedule,
        work,
        net,
        output,
    )
}
