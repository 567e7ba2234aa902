// Many lines by one book: the book is read and its net built once, then each line is reduced as by itself and gets its record, one after another. Nothing lent
// is written before frame and book have been checked.
#![tactic(auto)]

ghost use Rattle.std.specs.Prelude.{◌≡◌, ◌+◌, ◌≤◌, length};
ghost use Rattle.paper.specs.Line.{symbol_limit};
ghost use Rattle.paper.specs.Page.{all_below};
ghost use Rattle.engine.specs.Spec.{reader};
ghost use Rattle.engine.specs.Promises.{fault};
ghost use Rattle.records.specs.Record.{longest};
ghost use Rattle.batch.specs.Spec as B;
ghost use Rattle.batch.specs.Promises as C;

use engine::Form;
use refusal::Refusal;
use whole::Limits;

// Why no more lines were done: there are none, the next is cut short, or the longest record would not fit.
#[derive(Clone, Copy, Debug, PartialEq, Eq)]
pub enum Stop {
    End = 0,
    Cut = 1,
    Room = 2,
}

// How many lines were done, how many bytes of the lines those are, how many bytes of records they got, and why no more.
#[derive(Clone, Copy, Debug, PartialEq, Eq)]
pub struct Done {
    pub lines: usize,
    pub read: usize,
    pub written: usize,
    pub stop: Stop,
}

// The position behind the line at a position, where so many bytes are left for records, or why it isn't done.
fn next_line(lines: &[u8], at: usize, left: usize) -> Result<usize, Stop>
    requires { at ≤ length lines.now }
    ensures { C.GoesOn lines.now at left result }
{
    if lines.len() <= at {
        return Err(Stop::End);
    }
    let Some(end) = stream::part_end(lines, at) else {
        return Err(Stop::Cut);
    };
    if left < records::LONGEST {
        return Err(Stop::Room);
    }
    Ok(end)
}

// A line by an open book of n operators, its record at a position; the position behind it. Every entry of the schedule names one of the units, or not.
fn answer_line(
    form: Form,
    book: &[u8],
    n: usize,
    operators: &[u8; 4352],
    net: &[u8],
    given: &[u8],
    limits: Limits,
    named: bool,
    schedule: &[u8],
    line: &mut [u8; 1024],
    symbols: &mut [u32; 1024],
    scratch: &mut [u32; 1024],
    work: &mut [u8],
    answers: &mut [u8],
    at: usize,
) -> usize
    requires fact { C.Open book.now n operators.now net.now limits (length work.old) }
    requires arrays { C.Arrays line.old symbols.old scratch.old }
    requires named_value { (named ≡ all_below limits.units schedule.now) × (at + longest ≤ length answers.old) }
    ensures line_done { C.LineDone (reader form) book.now net.now limits schedule.now (length work.old)
        given.now answers.old answers.new at result }
    ensures arrays_after { C.Arrays line.new symbols.new scratch.new }
{
    match engine::read_term(form, given, n, operators, line) {
        Err(e) => records::put_refusal(e.number(), answers, at),
        Ok(length) => {
            if !named {
                let k = Refusal::UnknownUnitInSchedule.number();
                return records::put_refusal(k, answers, at);
            }
            let run = engine::post(
                book, operators, net, line, length, limits, schedule, symbols, scratch, work,
            );
            records::put_run(run, symbols, answers, at)
        }
    }
}

// The lines by an open book of n operators, from the first on.
fn answer_lines(
    form: Form,
    book: &[u8],
    n: usize,
    operators: &[u8; 4352],
    net: &[u8],
    lines: &[u8],
    limits: Limits,
    schedule: &[u8],
    work: &mut [u8],
    answers: &mut [u8],
) -> Done
    requires { C.Open book.now n operators.now net.now limits (length work.old) }
    ensures { C.AllDone (reader form) book.now net.now limits schedule.now (length work.old)
        lines.now answers.old answers.new result }
{
    let named = engine::names_units(schedule, limits.units);
    let mut line = [0u8; 1024];
    let mut symbols = [0u32; 1024];
    let mut scratch = [0u32; 1024];
    let mut count = 0;
    let mut read = 0;
    let mut written = 0;
    loop {
        match next_line(lines, read, answers.len() - written) {
            Err(stop) => {
                return Done {
                    lines: count,
                    read,
                    written,
                    stop,
                };
            }
            Ok(end) => {
                let start = read + 2;
                written = answer_line(
                    form,
                    book,
                    n,
                    operators,
                    net,
                    &lines[start..end],
                    limits,
                    named,
                    schedule,
                    &mut line,
                    &mut symbols,
                    &mut scratch,
                    work,
                    answers,
                    written,
                );
                count += 1;
                read = end;
            }
        }
    }
}

// A book of at most 65,536 bytes. Both areas are cleared whole behind the last line.
fn lines_book(
    form: Form,
    book: &[u8],
    lines: &[u8],
    units: u8,
    budget: u32,
    day: u16,
    schedule: &[u8],
    work: &mut [u8],
    net: &mut [u8],
    answers: &mut [u8],
) -> Result<Done, Refusal>
    requires { (fault units (length work.old) (length net.old) symbol_limit ≡ 0) × (length book.now ≤ 65536) }
    ensures { B.LinesBy (reader form) book.now lines.now units budget day schedule.now work.old
        net.old answers.old work.new net.new answers.new result }
{
    let mut operators = [0u8; tables::OPERATORS];
    let mut rules = [0u32; tables::RULES];
    let n = book::read_book(book, day, &mut operators, &mut rules)?;
    insertion::build(book, &operators, &rules, net);
    let limits = Limits {
        units: usize::from(units),
        budget,
    };
    let done = answer_lines(
        form, book, n, &operators, net, lines, limits, schedule, work, answers,
    );
    engine::clear(work);
    engine::clear(net);
    Ok(done)
}

// Lines or texts by the rules of a book that stand on a day, each as by itself: `units` units share a line's work as the schedule says, and make at most `budget`
// rewrites. An undated book ignores the day.
pub fn lines_form(
    form: Form,
    book: &[u8],
    lines: &[u8],
    units: u8,
    budget: u32,
    day: u16,
    schedule: &[u8],
    work: &mut [u8],
    net: &mut [u8],
    answers: &mut [u8],
) -> Result<Done, Refusal>
    ensures { B.LinesBy (reader form) book.now lines.now units budget day schedule.now work.old
        net.old answers.old work.new net.new answers.new result }
{
    engine::check_frame(units, work.len(), net.len(), engine::OUTPUT)?;
    // What stands behind a book's first 65,536 bytes does not change what it reads as.
    if 65536 < book.len() {
        return lines_book(
            form,
            &book[0..65536],
            lines,
            units,
            budget,
            day,
            schedule,
            work,
            net,
            answers,
        );
    }
    lines_book(
        form, book, lines, units, budget, day, schedule, work, net, answers,
    )
}

// Lines by a book.
pub fn reduce_lines(
    book: &[u8],
    lines: &[u8],
    units: u8,
    budget: u32,
    day: u16,
    schedule: &[u8],
    work: &mut [u8],
    net: &mut [u8],
    answers: &mut [u8],
) -> Result<Done, Refusal>
    ensures { B.LinesReduced book.now lines.now units budget day schedule.now work.old
        net.old answers.old work.new net.new answers.new result }
{
    lines_form(
        Form::Term,
        book,
        lines,
        units,
        budget,
        day,
        schedule,
        work,
        net,
        answers,
    )
}

// Payees' texts by a book.
pub fn payee_lines(
    book: &[u8],
    texts: &[u8],
    units: u8,
    budget: u32,
    day: u16,
    schedule: &[u8],
    work: &mut [u8],
    net: &mut [u8],
    answers: &mut [u8],
) -> Result<Done, Refusal>
    ensures { B.PayeesReduced book.now texts.now units budget day schedule.now work.old
        net.old answers.old work.new net.new answers.new result }
{
    lines_form(
        Form::Text,
        book,
        texts,
        units,
        budget,
        day,
        schedule,
        work,
        net,
        answers,
    )
}
