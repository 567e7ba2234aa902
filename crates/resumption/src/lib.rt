// The second entry point of runs with a name (document 02, Change 11): a point's run goes on. A resumption takes a name, buffers and a schedule; book, day, units and
// budget are the point's. Nothing lent is written before the last check has passed.
#![tactic(auto)]

ghost use Rattle.std.specs.Prelude.{◌≡◌, ◌≤◌, length};
ghost use Rattle.units.specs.Stacks.{store};
ghost use Rattle.point.specs.Saved.{arrays};
ghost use Rattle.checking.specs.Promises.{Inside};
ghost use Rattle.opening.specs.Promises as O;
ghost use Rattle.points.specs.Spec as P;
ghost use Rattle.points.specs.Promises.{CanSave};
ghost use Rattle.resumption.specs.Promises as C;

use point::Numbers;
use refusal::Refusal;
use run::Run;
use whole::Limits;

// The most bytes that a book has.
const BOOK: usize = 41473;

// Where the part of a slot behind the name begins, and how long it is.
const NAME: usize = 17;

const PART: usize = 65519;

// A point's numbers, the length of its book and its day.
#[derive(Clone, Copy)]
struct Loaded {
    numbers: Numbers,
    book: usize,
    day: u16,
}

// The bytes, to the front of the book.
fn copy(book: &mut [u8; 41473], bytes: &[u8])
    requires { length bytes.now ≤ 41473 }
    ensures { C.Copied bytes.now book.new }
{
    book[..bytes.len()].copy_from_slice(bytes);
}

// How many units the run in slot k has, if the slot holds one. It is opened in arrays that are given up again.
fn unit_count(points: &[u8], k: usize) -> Option<usize>
    requires { Inside points.now k }
    ensures { C.CountsUnits (C.part_in k points.now) result }
{
    let start = k * names::SLOT + NAME;
    let end = start + PART;
    let mut operators = [0u8; 4352];
    let mut rules = [0u32; 512];
    let mut symbols = [0u32; 1024];
    let mut work = [0u8; 24624];
    let mut cells = [0u32; 8];
    let mut order = [0u16; 1024];
    let opened = opening::open(
        &points[start..end],
        &mut operators,
        &mut rules,
        &mut symbols,
        &mut work,
        &mut cells,
        &mut order,
    )?;
    Some(opened.numbers.units)
}

// The part of a slot behind the name, opened, with its book copied out of it.
fn load_part(
    part: &[u8],
    book: &mut [u8; 41473],
    operators: &mut [u8; 4352],
    rules: &mut [u32; 512],
    symbols: &mut [u32; 1024],
    work: &mut [u8],
    cells: &mut [u32; 8],
    order: &mut [u16; 1024],
) -> Option<Loaded>
    requires { O.Room part.now operators.old symbols.old order.old (store work.old cells.old) × (length book.old ≡ 41473) }
    ensures { C.LoadedAs part.now book.new operators.new rules.new
        (arrays symbols.new work.new cells.new order.new) result }
{
    let opened = opening::open(part, operators, rules, symbols, work, cells, order)?;
    copy(book, &part[4..4 + opened.book]);
    Some(Loaded {
        numbers: opened.numbers,
        book: opened.book,
        day: stream::pair(part, 2) as u16,
    })
}

// The same of slot k.
fn load(
    points: &[u8],
    k: usize,
    book: &mut [u8; 41473],
    operators: &mut [u8; 4352],
    rules: &mut [u32; 512],
    symbols: &mut [u32; 1024],
    work: &mut [u8],
    cells: &mut [u32; 8],
    order: &mut [u16; 1024],
) -> Option<Loaded>
    requires { Inside points.now k × C.Room book.old operators.old symbols.old order.old (store work.old cells.old) }
    ensures { C.LoadedAs (C.part_in k points.now) book.new operators.new rules.new
        (arrays symbols.new work.new cells.new order.new) result }
{
    let start = k * names::SLOT + NAME;
    let end = start + PART;
    load_part(
        &points[start..end],
        book,
        operators,
        rules,
        symbols,
        work,
        cells,
        order,
    )
}

// The run that the arrays hold goes on, by the point's book, and is saved in slot k once more if it is cut; any other ending frees the slot. Work area and net are cleared
// whole behind it.
fn go_on(
    book: &[u8],
    operators: &[u8; 4352],
    rules: &[u32; 512],
    day: u16,
    x: Numbers,
    name: &[u8],
    k: usize,
    schedule: &[u8],
    symbols: &mut [u32; 1024],
    work: &mut [u8],
    cells: &mut [u32; 8],
    order: &mut [u16; 1024],
    net: &mut [u8],
    points: &mut [u8],
    output: &mut [u8],
) -> Run
    requires point_in { C.PointIn book.now operators.now rules.now day x (arrays symbols.old work.old cells.old order.old) }
    requires asked { C.Asked x.units schedule.now work.old net.old output.old × CanSave k points.old name.now book.now }
    ensures { C.GoneOn schedule.now
        (C.found k name.now book.now day x (arrays symbols.old work.old cells.old order.old))
        work.old net.old points.old output.old
        work.new net.new points.new output.new result }
{
    insertion::build(book, operators, rules, net);
    let mut scratch = [0u32; 1024];
    let limits = Limits {
        units: x.units,
        budget: x.budget,
    };
    let part = engine::resume(
        book,
        operators,
        net,
        x.rewrites,
        limits,
        schedule,
        symbols,
        &mut scratch,
        work,
        cells,
        order,
    );
    let run = points::added(x, part);
    points::replace(
        points, k, name, book, day, limits, run, symbols, work, cells, order,
    );
    points::leave(symbols, run.length, work, net, output);
    run
}

// The point in slot k, which bears the name, is loaded and goes on.
fn resume_point(
    name: &[u8],
    schedule: &[u8],
    k: usize,
    work: &mut [u8],
    net: &mut [u8],
    points: &mut [u8],
    output: &mut [u8],
) -> Result<Run, Refusal>
    requires { C.Ready name.now schedule.now k work.old net.old points.old output.old }
    ensures { P.ResumedBy name.now schedule.now work.old net.old points.old output.old
        work.new net.new points.new output.new result }
{
    let mut book = [0u8; BOOK];
    let mut operators = [0u8; 4352];
    let mut rules = [0u32; 512];
    let mut symbols = [0u32; 1024];
    let mut cells = [0u32; 8];
    let mut order = [0u16; 1024];
    // A slot that was checked is not broken.
    let point = load(
        points,
        k,
        &mut book,
        &mut operators,
        &mut rules,
        &mut symbols,
        work,
        &mut cells,
        &mut order,
    )
    .ok_or(Refusal::BadPointOrName)?;
    Ok(go_on(
        &book[..point.book],
        &operators,
        &rules,
        point.day,
        point.numbers,
        name,
        k,
        schedule,
        &mut symbols,
        work,
        &mut cells,
        &mut order,
        net,
        points,
        output,
    ))
}

// The run that was saved under the name goes on with the schedule.
pub fn resume(
    name: &[u8],
    schedule: &[u8],
    work: &mut [u8],
    net: &mut [u8],
    points: &mut [u8],
    output: &mut [u8],
) -> Result<Run, Refusal>
    ensures { P.ResumedBy name.now schedule.now work.old net.old points.old output.old
        work.new net.new points.new output.new result }
{
    // The units are the point's, so that a frame of one stands for the areas alone.
    engine::check_frame(1, work.len(), net.len(), output.len())?;
    let k = checking::find(name, points)?;
    let units = unit_count(points, k).ok_or(Refusal::BadPointOrName)?;
    if !engine::names_units(schedule, units) {
        return Err(Refusal::UnknownUnitInSchedule);
    }
    resume_point(name, schedule, k, work, net, points, output)
}
