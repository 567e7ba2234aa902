// The entry point of a run with a name (document 02, Change 11), which is saved if it is cut, and what a resumption shares with it. Points are checked just before the
// schedule; nothing lent is written before the last check has passed.
#![tactic(auto)]

ghost use Rattle.std.specs.Prelude.{◌++◌, ◌≡◌, ◌+◌, ◌≤◌, ◌<◌, ◌^◌, length, take, drop, replicate};
ghost use Rattle.paper.specs.Line.{read_line};
ghost use Rattle.flat.specs.Parts.{kept_count};
ghost use Rattle.tables.specs.Layout.{day_in};
ghost use Rattle.point.specs.Saved.{Arrays, arrays, saved};
ghost use Rattle.point_writer.specs.Promises.{Savable};
ghost use Rattle.parking.specs.Form.{slot_length, write_point};
ghost use Rattle.parking.specs.Points.{put};
ghost use Rattle.checking.specs.Promises.{Inside};
ghost use Rattle.engine.specs.Spec as R;
ghost use Rattle.engine.specs.Promises as E;
ghost use Rattle.points.specs.Spec as P;
ghost use Rattle.points.specs.Promises as C;

use engine::Form;
use point::Numbers;
use refusal::Refusal;
use run::{Ending, Run};
use whole::Limits;

// The length that a buffer of points must have; published in parking/specs/Points.
pub const POINTS: usize = names::POINTS;

// A count over all parts of a run.
fn total(a: usize, b: usize) -> usize
    ensures { result ≡ kept_count (a + b) }
{
    a.saturating_add(b)
}

// A part's run, with what the parts before it counted.
pub fn added(x: Numbers, run: Run) -> Run
    ensures { result ≡ C.added x run }
{
    Run {
        entries: total(x.entries, run.entries),
        granted: total(x.granted, run.granted),
        kept: total(x.kept, run.kept),
        ..run
    }
}

// What is saved of a run.
fn numbers(l: Limits, run: Run) -> Numbers
    ensures { result ≡ C.numbers l run }
{
    Numbers {
        units: l.units,
        budget: l.budget,
        rewrites: run.rewrites,
        entries: run.entries,
        granted: run.granted,
        kept: run.kept,
    }
}

fn is_cut(ending: Ending) -> bool
    ensures { result ≡ C.is_cut ending }
{
    matches!(ending, Ending::Cut)
}

// Slot k becomes the point of what the arrays hold.
fn save(
    points: &mut [u8],
    k: usize,
    name: &[u8],
    book: &[u8],
    day: u16,
    x: Numbers,
    symbols: &[u32; 1024],
    work: &[u8],
    cells: &[u32; 8],
    order: &[u16; 1024],
)
    requires { let a : Arrays = arrays symbols.now work.now cells.now order.now in Savable x a × C.CanSave k points.old name.now book.now }
    ensures { let a : Arrays = arrays symbols.now work.now cells.now order.now in points.new ≡ put k (write_point (C.point name.now book.now day (saved x a))) points.old }
{
    let start = k * names::SLOT;
    let end = start + names::SLOT;
    slots::write_slot(
        &mut points[start..end],
        name,
        book,
        day,
        x,
        symbols,
        work,
        cells,
        order,
    );
}

// Slot k becomes free.
fn free(points: &mut [u8], k: usize)
    requires { Inside points.old k }
    ensures { points.new ≡ put k (replicate slot_length 0) points.old }
{
    let start = k * names::SLOT;
    let end = start + names::SLOT;
    slots::clear(&mut points[start..end]);
}

// A run that was cut is saved in slot k; any other leaves the points as they are.
fn keep(
    points: &mut [u8],
    k: usize,
    name: &[u8],
    book: &[u8],
    day: u16,
    l: Limits,
    run: Run,
    symbols: &[u32; 1024],
    work: &[u8],
    cells: &[u32; 8],
    order: &[u16; 1024],
)
    requires { let a : Arrays = arrays symbols.now work.now cells.now order.now in C.SavableCut l run a × C.CanSave k points.old name.now book.now }
    ensures { let a : Arrays = arrays symbols.now work.now cells.now order.now in points.new ≡ C.behind_cut k name.now book.now day l run a points.old points.old }
{
    if is_cut(run.ending) {
        let x = numbers(l, run);
        save(points, k, name, book, day, x, symbols, work, cells, order);
    }
}

// A run that was cut is saved in slot k once more; any other frees it.
pub fn replace(
    points: &mut [u8],
    k: usize,
    name: &[u8],
    book: &[u8],
    day: u16,
    l: Limits,
    run: Run,
    symbols: &[u32; 1024],
    work: &[u8],
    cells: &[u32; 8],
    order: &[u16; 1024],
)
    requires { let a : Arrays = arrays symbols.now work.now cells.now order.now in C.SavableCut l run a × C.CanSave k points.old name.now book.now }
    ensures { let a : Arrays = arrays symbols.now work.now cells.now order.now in points.new ≡ C.behind_cut k name.now book.now day l run a points.old
        (put k (replicate slot_length 0) points.old) }
{
    if is_cut(run.ending) {
        let x = numbers(l, run);
        save(points, k, name, book, day, x, symbols, work, cells, order);
    } else {
        free(points, k);
    }
}

// The present term, of n symbols, is handed out, and work area and net are cleared whole.
pub fn leave(symbols: &[u32; 1024], n: usize, work: &mut [u8], net: &mut [u8], output: &mut [u8])
    requires { (length symbols.now ≡ 1024) × (n ≤ 1024) × (1024 ≤ length output.old) }
    ensures { C.LeftBy symbols.now n work.old net.old output.old work.new net.new output.new }
{
    engine::hand_out(symbols, n, output);
    engine::clear(work);
    engine::clear(net);
}

// The net is built and the term in front of the line run, if every entry of the schedule names one of the units; a run that was cut is saved in slot k. Work area and net
// are cleared whole behind it.
fn run_named(
    book: &[u8],
    operators: &[u8; 4352],
    rules: &[u32; 512],
    line: &[u8; 1024],
    length: usize,
    limits: Limits,
    day: u16,
    schedule: &[u8],
    name: &[u8],
    k: usize,
    work: &mut [u8],
    net: &mut [u8],
    points: &mut [u8],
    output: &mut [u8],
) -> Result<Run, Refusal>
    requires framed { E.Framed book.now limits.units work.old net.old output.old }
    requires loaded { E.Loaded book.now operators.now rules.now line.now length }
    requires budget_bound { (limits.budget < 2 ^ 32) × (day ≡ day_in rules.now) }
    requires placed { C.Placed k name.now points.old }
    ensures { P.ParkedBy read_line book.now (take length line.now) limits.units limits.budget day schedule.now name.now
        work.old net.old points.old output.old work.new net.new points.new output.new result }
{
    if !engine::names_units(schedule, limits.units) {
        return Err(Refusal::UnknownUnitInSchedule);
    }
    insertion::build(book, operators, rules, net);
    let mut symbols = [0u32; 1024];
    let mut scratch = [0u32; 1024];
    let mut cells = [0u32; 8];
    let mut order = [0u16; 1024];
    let run = engine::post_into(
        book,
        operators,
        net,
        line,
        length,
        limits,
        schedule,
        &mut symbols,
        &mut scratch,
        work,
        &mut cells,
        &mut order,
    );
    keep(
        points, k, name, book, day, limits, run, &symbols, work, &cells, &order,
    );
    leave(&symbols, run.length, work, net, output);
    Ok(run)
}

// The run of the term in front of the line, where a run with the name has its place.
fn park_term(
    book: &[u8],
    operators: &[u8; 4352],
    rules: &[u32; 512],
    line: &[u8; 1024],
    length: usize,
    limits: Limits,
    day: u16,
    schedule: &[u8],
    name: &[u8],
    work: &mut [u8],
    net: &mut [u8],
    points: &mut [u8],
    output: &mut [u8],
) -> Result<Run, Refusal>
    requires framed { E.Framed book.now limits.units work.old net.old output.old }
    requires loaded { E.Loaded book.now operators.now rules.now line.now length }
    requires budget_bound { (limits.budget < 2 ^ 32) × (day ≡ day_in rules.now) }
    ensures { P.ParkedBy read_line book.now (take length line.now) limits.units limits.budget day schedule.now name.now
        work.old net.old points.old output.old work.new net.new points.new output.new result }
{
    let k = checking::place(name, points)?;
    run_named(
        book, operators, rules, line, length, limits, day, schedule, name, k, work, net, points,
        output,
    )
}

// A book of at most 65,536 bytes. The line or text that is given is read into a line of its own.
fn park_book(
    form: Form,
    book: &[u8],
    given: &[u8],
    units: u8,
    budget: u32,
    day: u16,
    schedule: &[u8],
    name: &[u8],
    work: &mut [u8],
    net: &mut [u8],
    points: &mut [u8],
    output: &mut [u8],
) -> Result<Run, Refusal>
    requires { E.Framed book.now units work.old net.old output.old }
    ensures { P.ParkedBy (R.reader form) book.now given.now units budget day schedule.now name.now work.old net.old
        points.old output.old work.new net.new points.new output.new result }
{
    let mut operators = [0u8; tables::OPERATORS];
    let mut rules = [0u32; tables::RULES];
    let mut line = [0u8; 1024];
    let n = book::read_book(book, day, &mut operators, &mut rules)?;
    let length = engine::read_term(form, given, n, &operators, &mut line)?;
    park_term(
        book,
        &operators,
        &rules,
        &line,
        length,
        Limits {
            units: usize::from(units),
            budget,
        },
        day,
        schedule,
        name,
        work,
        net,
        points,
        output,
    )
}

// A run with a name: as `engine::reduce_form`, and if it ends cut it is saved under the name.
pub fn park(
    form: Form,
    book: &[u8],
    line: &[u8],
    units: u8,
    budget: u32,
    day: u16,
    schedule: &[u8],
    name: &[u8],
    work: &mut [u8],
    net: &mut [u8],
    points: &mut [u8],
    output: &mut [u8],
) -> Result<Run, Refusal>
    ensures { P.ParkedBy (R.reader form) book.now line.now units budget day schedule.now name.now work.old net.old
        points.old output.old work.new net.new points.new output.new result }
{
    engine::check_frame(units, work.len(), net.len(), output.len())?;
    // What stands behind a book's first 65,536 bytes does not change what it reads as.
    let front = &book[..book.len().min(65536)];
    park_book(
        form, front, line, units, budget, day, schedule, name, work, net, points, output,
    )
}
