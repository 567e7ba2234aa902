// The library for C and Rust: a run, runs of many lines by one book, how long a schedule suffices, the book's writer, the charge of what was posted, the strict
// profile, and the published lengths, on numbers and slices of them. A slice is passed as a pointer and a length, an array as a pointer.
#![tactic(auto)]

ghost use Rattle.std.specs.Prelude.{◌≡◌};
ghost use Rattle.engine.specs.Spec.{published, values};
ghost use Rattle.parking.specs.Points.{points_length};
ghost use Rattle.records.specs.Record.{longest};
ghost use Rattle.batch.specs.Spec as B;
ghost use Rattle.bound.specs.Spec as N;
ghost use Rattle.settlement.specs.Spec as S;
ghost use Rattle.kurvneist.specs.Spec as X;

use batch::Done;
use bound::Bound;
use engine::Form;
use refusal::Refusal;
use run::Run;
use settlement::Settled;

// The bytes of a work area.
#[unsafe(no_mangle)]
pub extern "C" fn kurvneist_work_length() -> usize
    ensures { result ≡ published.work }
{
    engine::WORK
}

// The bytes of a net's area.
#[unsafe(no_mangle)]
pub extern "C" fn kurvneist_net_length() -> usize
    ensures { result ≡ published.net }
{
    engine::NET
}

// The bytes that an output must have.
#[unsafe(no_mangle)]
pub extern "C" fn kurvneist_output_length() -> usize
    ensures { result ≡ 1024 }
{
    engine::OUTPUT
}

// The refusal's number, or 0. The numbers are ending, rewrites, entries, granted, kept and length, or zeros.
fn put_answer(a: Result<Run, Refusal>, answer: &mut [u64; 6]) -> u8
    ensures { (result ≡ X.refusal (values a)) × (answer.new ≡ X.value_numbers (values a)) }
{
    match a {
        Err(e) => {
            *answer = [0; 6];
            e.number()
        }
        Ok(run) => {
            *answer = [
                run::ending_number(run.ending) as u64,
                run.rewrites as u64,
                run.entries as u64,
                run.granted as u64,
                run.kept as u64,
                run.length as u64,
            ];
            0
        }
    }
}

// A run of a line by the rules that stand on a day, which an undated book ignores: the refusal's number, or 0.
#[unsafe(no_mangle)]
pub extern "C" fn kurvneist_reduce(
    book: &[u8],
    line: &[u8],
    units: u8,
    budget: u32,
    day: u16,
    schedule: &[u8],
    work: &mut [u8],
    net: &mut [u8],
    output: &mut [u8],
    answer: &mut [u64; 6],
) -> u8
    ensures { X.ReducedInNumbers book.now line.now units budget day schedule.now work.old
        net.old output.old work.new net.new output.new answer.new result }
{
    let a = engine::reduce(book, line, units, budget, day, schedule, work, net, output);
    put_answer(a, answer)
}

// A run of a payee's text.
#[unsafe(no_mangle)]
pub extern "C" fn kurvneist_payee(
    book: &[u8],
    text: &[u8],
    units: u8,
    budget: u32,
    day: u16,
    schedule: &[u8],
    work: &mut [u8],
    net: &mut [u8],
    output: &mut [u8],
    answer: &mut [u64; 6],
) -> u8
    ensures { X.PayeeInNumbers book.now text.now units budget day schedule.now work.old
        net.old output.old work.new net.new output.new answer.new result }
{
    let a = engine::payee(book, text, units, budget, day, schedule, work, net, output);
    put_answer(a, answer)
}

// The bytes of a buffer of named points.
#[unsafe(no_mangle)]
pub extern "C" fn kurvneist_points_length() -> usize
    ensures { result ≡ points_length }
{
    points::POINTS
}

// A run of a line under a name: if it ends cut, it is saved in the points.
#[unsafe(no_mangle)]
pub extern "C" fn kurvneist_park(
    book: &[u8],
    line: &[u8],
    units: u8,
    budget: u32,
    day: u16,
    schedule: &[u8],
    name: &[u8],
    work: &mut [u8],
    net: &mut [u8],
    points: &mut [u8],
    output: &mut [u8],
    answer: &mut [u64; 6],
) -> u8
    ensures { X.ParkedInNumbers book.now line.now units budget day schedule.now name.now work.old
        net.old points.old output.old work.new net.new points.new output.new answer.new result }
{
    let a = points::park(
        Form::Term,
        book,
        line,
        units,
        budget,
        day,
        schedule,
        name,
        work,
        net,
        points,
        output,
    );
    put_answer(a, answer)
}

// The same of a payee's text.
#[unsafe(no_mangle)]
pub extern "C" fn kurvneist_park_payee(
    book: &[u8],
    text: &[u8],
    units: u8,
    budget: u32,
    day: u16,
    schedule: &[u8],
    name: &[u8],
    work: &mut [u8],
    net: &mut [u8],
    points: &mut [u8],
    output: &mut [u8],
    answer: &mut [u64; 6],
) -> u8
    ensures { X.PayeeParkedInNumbers book.now text.now units budget day schedule.now name.now work.old
        net.old points.old output.old work.new net.new points.new output.new answer.new result }
{
    let a = points::park(
        Form::Text,
        book,
        text,
        units,
        budget,
        day,
        schedule,
        name,
        work,
        net,
        points,
        output,
    );
    put_answer(a, answer)
}

// The run that was saved under a name goes on.
#[unsafe(no_mangle)]
pub extern "C" fn kurvneist_resume(
    name: &[u8],
    schedule: &[u8],
    work: &mut [u8],
    net: &mut [u8],
    points: &mut [u8],
    output: &mut [u8],
    answer: &mut [u64; 6],
) -> u8
    ensures { X.ResumedInNumbers name.now schedule.now work.old net.old points.old output.old
        work.new net.new points.new output.new answer.new result }
{
    let a = resumption::resume(name, schedule, work, net, points, output);
    put_answer(a, answer)
}

// The bytes that an answers buffer must have left for a line to be done.
#[unsafe(no_mangle)]
pub extern "C" fn kurvneist_record_length() -> usize
    ensures { result ≡ longest }
{
    records::LONGEST
}

// The refusal's number, or 0. The numbers are lines done, bytes of the lines, bytes of records and the stop's number, or zeros.
fn put_done(b: Result<Done, Refusal>, done: &mut [u64; 4]) -> u8
    ensures { (result ≡ X.refusal (B.values b)) × (done.new ≡ X.done_numbers (B.values b)) }
{
    match b {
        Err(e) => {
            *done = [0; 4];
            e.number()
        }
        Ok(d) => {
            *done = [
                d.lines as u64,
                d.read as u64,
                d.written as u64,
                d.stop as u64,
            ];
            0
        }
    }
}

// Lines one after another, each behind its length in two bytes, by the rules that stand on a day: the refusal's number of frame or book, or 0.
#[unsafe(no_mangle)]
pub extern "C" fn kurvneist_reduce_lines(
    book: &[u8],
    lines: &[u8],
    units: u8,
    budget: u32,
    day: u16,
    schedule: &[u8],
    work: &mut [u8],
    net: &mut [u8],
    answers: &mut [u8],
    done: &mut [u64; 4],
) -> u8
    ensures { X.LinesInNumbers book.now lines.now units budget day schedule.now work.old
        net.old answers.old work.new net.new answers.new done.new result }
{
    let b = batch::reduce_lines(
        book, lines, units, budget, day, schedule, work, net, answers,
    );
    put_done(b, done)
}

// Payees' texts.
#[unsafe(no_mangle)]
pub extern "C" fn kurvneist_payee_lines(
    book: &[u8],
    texts: &[u8],
    units: u8,
    budget: u32,
    day: u16,
    schedule: &[u8],
    work: &mut [u8],
    net: &mut [u8],
    answers: &mut [u8],
    done: &mut [u64; 4],
) -> u8
    ensures { X.PayeesInNumbers book.now texts.now units budget day schedule.now work.old
        net.old answers.old work.new net.new answers.new done.new result }
{
    let b = batch::payee_lines(
        book, texts, units, budget, day, schedule, work, net, answers,
    );
    put_done(b, done)
}

// The refusal's number, or 0. The numbers are the ending of the one-unit run, S and F, or zeros.
fn put_bound(b: Result<Bound, Refusal>, answer: &mut [u64; 3]) -> u8
    ensures { (result ≡ X.refusal (N.values b)) × (answer.new ≡ X.bound_numbers (N.values b)) }
{
    match b {
        Err(e) => {
            *answer = [0; 3];
            e.number()
        }
        Ok(Bound::Unknown(e)) => {
            *answer = [run::ending_number(e) as u64, 0, 0];
            0
        }
        Ok(Bound::Told(s, f)) => {
            *answer = [0, s as u64, f as u64];
            0
        }
    }
}

// How long a schedule suffices for a line by the rules that stand on a day: the refusal's number, or 0. S + 4 * F rounds, each naming every unit, never end cut.
#[unsafe(no_mangle)]
pub extern "C" fn kurvneist_bound(
    book: &[u8],
    line: &[u8],
    budget: u32,
    day: u16,
    work: &mut [u8],
    net: &mut [u8],
    answer: &mut [u64; 3],
) -> u8
    ensures { X.BoundInNumbers book.now line.now budget day work.old net.old work.new
        net.new answer.new result }
{
    let b = bound::bound_form(Form::Term, book, line, budget, day, work, net);
    put_bound(b, answer)
}

// The same for a payee's text.
#[unsafe(no_mangle)]
pub extern "C" fn kurvneist_bound_payee(
    book: &[u8],
    text: &[u8],
    budget: u32,
    day: u16,
    work: &mut [u8],
    net: &mut [u8],
    answer: &mut [u64; 3],
) -> u8
    ensures { X.PayeeBoundInNumbers book.now text.now budget day work.old net.old work.new
        net.new answer.new result }
{
    let b = bound::bound_form(Form::Text, book, text, budget, day, work, net);
    put_bound(b, answer)
}

// The book's writer: the refusal's number, or 0 and how many bytes are written.
#[unsafe(no_mangle)]
pub extern "C" fn kurvneist_write_book(book: &[u8], output: &mut [u8], size: &mut [u64; 1]) -> u8
    ensures { X.WroteInNumbers book.now output.old output.new size.new result }
{
    match writer::write_book(book, output) {
        Err(e) => {
            *size = [0];
            e.number()
        }
        Ok(n) => {
            *size = [n as u64];
            0
        }
    }
}

// The charge of an amount, by the rate of the root of a term that was posted: the refusal's number, or 0, and the fee, or 0. The parts stand in front of
// the array; a refusal leaves it as it was.
#[unsafe(no_mangle)]
pub extern "C" fn kurvneist_charge(
    term: &[u8],
    rates: &[u8],
    amount: i64,
    shares: &[u16],
    parts: &mut [i64; 16],
    fee: &mut [i64; 1],
) -> u8
    ensures { X.ChargedInNumbers term.now rates.now amount shares.now parts.old parts.new
        fee.new result }
{
    match fees::charge(term, rates, amount, shares, parts) {
        Err(e) => {
            *fee = [0];
            e.number()
        }
        Ok(f) => {
            *fee = [f];
            0
        }
    }
}

// The refusal's number, or 0; the run's numbers; the fee, and 1 if there is one.
fn put_settled(
    s: Result<Settled, Refusal>,
    answer: &mut [u64; 6],
    fee: &mut [i64; 1],
    charged: &mut [u64; 1],
) -> u8
    ensures { X.SettledNumbers (S.values (S.told s)) answer.new fee.new charged.new result }
{
    match s {
        Err(e) => {
            *fee = [0];
            *charged = [0];
            put_answer(Err(e), answer)
        }
        Ok(Settled::Ended(run)) => {
            *fee = [0];
            *charged = [0];
            put_answer(Ok(run), answer)
        }
        Ok(Settled::Posted(run, f)) => {
            *fee = [f];
            *charged = [1];
            put_answer(Ok(run), answer)
        }
    }
}

// A run of a line, and the charge of what it posts: the refusal's number, or 0.
#[unsafe(no_mangle)]
pub extern "C" fn kurvneist_settle(
    book: &[u8],
    line: &[u8],
    units: u8,
    budget: u32,
    day: u16,
    schedule: &[u8],
    rates: &[u8],
    amount: i64,
    shares: &[u16],
    output: &mut [u8],
    parts: &mut [i64; 16],
    answer: &mut [u64; 6],
    fee: &mut [i64; 1],
    charged: &mut [u64; 1],
) -> u8
    ensures { X.LineSettled book.now line.now units budget day schedule.now rates.now amount
        shares.now output.old parts.old output.new parts.new answer.new fee.new
        charged.new result }
{
    let s = settlement::settle(
        Form::Term,
        book,
        line,
        units,
        budget,
        day,
        schedule,
        rates,
        amount,
        shares,
        output,
        parts,
    );
    put_settled(s, answer, fee, charged)
}

// A run of a payee's text, and the charge of what it posts.
#[unsafe(no_mangle)]
pub extern "C" fn kurvneist_settle_payee(
    book: &[u8],
    text: &[u8],
    units: u8,
    budget: u32,
    day: u16,
    schedule: &[u8],
    rates: &[u8],
    amount: i64,
    shares: &[u16],
    output: &mut [u8],
    parts: &mut [i64; 16],
    answer: &mut [u64; 6],
    fee: &mut [i64; 1],
    charged: &mut [u64; 1],
) -> u8
    ensures { X.PayeeSettled book.now text.now units budget day schedule.now rates.now amount
        shares.now output.old parts.old output.new parts.new answer.new fee.new
        charged.new result }
{
    let s = settlement::settle(
        Form::Text,
        book,
        text,
        units,
        budget,
        day,
        schedule,
        rates,
        amount,
        shares,
        output,
        parts,
    );
    put_settled(s, answer, fee, charged)
}

// The strict profile: the refusal's number, or 0. With 25 the numbers are those of two rules that match one term, else zeros.
#[unsafe(no_mangle)]
pub extern "C" fn kurvneist_strict_book(book: &[u8], pair: &mut [u64; 2]) -> u8
    ensures { X.StrictInNumbers book.now pair.new result }
{
    match strict::strict_book(book) {
        Err(e) => {
            *pair = [0; 2];
            e.number()
        }
        Ok(Some((i, j))) => {
            *pair = [i as u64, j as u64];
            Refusal::RulesOverlap.number()
        }
        Ok(None) => {
            *pair = [0; 2];
            0
        }
    }
}
