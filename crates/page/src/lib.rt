// The program's page for its standard input (document 01, 'The program and its page'; document 02, Changes 1, 2 and 5).
#![tactic(auto)]

ghost use Rattle.std.specs.Prelude.{◌∷◌, [], ◌≡◌, ◌+◌, ◌≤◌, ◌<◌, length, take, drop};
ghost use Rattle.paper.specs.Page.{number, spaced, line, term_word, answer_lines, own_lengths, answer_by};
ghost use Rattle.stream.specs.Promises.{WrittenAt};
ghost use Rattle.engine.specs.Spec.{run_values, reader};
ghost use Rattle.page.specs.Spec as S;
ghost use Rattle.page.specs.Promises as C;

use engine::Form;
use refusal::Refusal;
use run::Run;

// The length that a page has room in.
pub const PAGE: usize = 8192;

// The length of a buffer for the standard input: one byte more than the longest input that 17 does not refuse, so that 17 tells of every input that
// fills it.
pub const INPUT: usize = 163850;

// How many schedule bytes may follow.
const SCHEDULE: usize = 32768;

// The positions behind the book and behind the line, the day, and where the schedule begins.
#[derive(Clone, Copy, Debug, PartialEq, Eq)]
struct Parts {
    book: usize,
    line: usize,
    day: u16,
    schedule: usize,
}

// The input

// Four bytes as one number.
fn quad(input: &[u8], at: usize) -> u32
    requires { at + 4 ≤ length input.now }
    ensures { result ≡ number 0 (take 4 (drop at input.now)) }
{
    (stream::pair(input, at) * 65536 + stream::pair(input, at + 2)) as u32
}

// The run's day and the position behind it: the two bytes at position at, if the book is dated; 0 stands for the day that an undated one ignores. None if
// they are cut short.
fn day_at(input: &[u8], at: usize, dated: bool) -> Option<(u16, usize)>
    requires { at ≤ length input.now }
    ensures { C.DayStands input.now at dated result }
{
    if !dated {
        return Some((0, at));
    }
    if input.len() - at < 2 {
        return None;
    }
    Some((stream::pair(input, at) as u16, at + 2))
}

// Where the parts of the input stand; none if it is refused by 17.
fn parts_of(input: &[u8]) -> Option<Parts>
    ensures { C.PartsStand input.now result }
{
    let book = stream::part_end(input, 0)?;
    let line = stream::part_end(input, book)?;
    if input.len() - line < 5 {
        return None;
    }
    let dated = book::is_dated(&input[2..book]);
    let (day, schedule) = day_at(input, line + 5, dated)?;
    if SCHEDULE < input.len() - schedule {
        return None;
    }
    Some(Parts {
        book,
        line,
        day,
        schedule,
    })
}

// Writing: each function answers the position behind what it wrote.

fn put(bytes: &[u8], page: &mut [u8; PAGE], at: usize) -> usize
    requires { at + length bytes.now ≤ 8192 }
    ensures { WrittenAt at bytes.now page.old page.new result }
{
    let end = at + bytes.len();
    page[at..end].copy_from_slice(bytes);
    end
}

// The digits of v at the end of d, the last one first; the position of the first digit.
fn digits(v: usize, d: &mut [u8; 20]) -> usize
    ensures { C.DigitsFrom v d.new result }
{
    let mut left = v;
    for i in (0..20).rev() {
        d[i] = b'0' + (left % 10) as u8;
        if left < 10 {
            return i;
        }
        left /= 10;
    }
    0
}

// A decimal field, with a space before it.
fn decimal_field(v: usize, page: &mut [u8; PAGE], at: usize) -> usize
    requires { at + 21 ≤ 8192 }
    ensures { WrittenAt at (C.decimal_field v) page.old page.new result × (result ≤ at + 21) }
{
    let mut d = [0u8; 20];
    let i = digits(v, &mut d);
    let p = put(b" ", page, at);
    put(&d[i..], page, p)
}

// A line: a word and one field.
fn line(word: &[u8], v: usize, page: &mut [u8; PAGE], at: usize) -> usize
    requires { (length word.now ≤ 8) × (at + 30 ≤ 8192) }
    ensures { WrittenAt at (line word.now (v ∷ [])) page.old page.new result × (result ≤ at + 30) }
{
    let p = put(word, page, at);
    let q = decimal_field(v, page, p);
    put(b"\n", page, q)
}

// A field for each symbol: at most three digits each.
fn symbols(term: &[u8], page: &mut [u8; PAGE], at: usize) -> usize
    requires { (length term.now ≤ 1024) × (at ≤ 4000) }
    ensures { WrittenAt at (spaced term.now) page.old page.new result × (result ≤ at + 4096) }
{
    let mut p = at;
    for &symbol in term {
        p = decimal_field(usize::from(symbol), page, p);
    }
    p
}

fn term_line(term: &[u8], page: &mut [u8; PAGE], at: usize) -> usize
    requires { (length term.now ≤ 1024) × (at ≤ 3000) }
    ensures { WrittenAt at (line term_word term.now) page.old page.new result }
{
    let p = put(b"term", page, at);
    let q = symbols(term, page, p);
    put(b"\n", page, q)
}

// The lines of a run and its term.
fn run_lines(r: Run, term: &[u8], page: &mut [u8; PAGE], at: usize) -> usize
    requires { (length term.now ≤ 1024) × (at ≤ 1000) }
    ensures { WrittenAt at (C.run_lines (run_values r) term.now) page.old page.new result }
{
    let a = line(b"end", run::ending_number(r.ending), page, at);
    let b = line(b"rewrites", r.rewrites as usize, page, a);
    let c = line(b"entries", r.entries, page, b);
    let d = line(b"granted", r.granted, page, c);
    let e = line(b"kept", r.kept, page, d);
    term_line(term, page, e)
}

// The lines of the engine's answer, whose term stands at the front of the output.
fn answer(a: Result<Run, Refusal>, output: &[u8], page: &mut [u8; PAGE], at: usize) -> usize
    requires { (C.TermFits a output.now) × (at ≤ 1000) }
    ensures { WrittenAt at (C.lines a output.now) page.old page.new result }
{
    match a {
        Err(e) => line(b"refused", usize::from(e.number()), page, at),
        Ok(r) => {
            let n = r.length;
            run_lines(r, &output[..n], page, at)
        }
    }
}

// The run of a whole input, and its lines. The buffers that are lent are of just the lengths that are asked for.
fn run_page(form: Form, input: &[u8], parts: Parts, page: &mut [u8; PAGE], at: usize) -> usize
    requires { C.PartsWithin input.now parts × (at ≤ 1000) }
    ensures { WrittenAt at (answer_lines (answer_by (reader form) own_lengths (C.request_of input.now parts))) page.old page.new result }
{
    let mut work = [0u8; engine::WORK];
    let mut net = [0u8; engine::NET];
    let mut output = [0u8; engine::OUTPUT];
    let Parts {
        book,
        line,
        day,
        schedule,
    } = parts;
    let start = book + 2;
    let budget = quad(input, line + 1);
    let a = engine::reduce_form(
        form,
        &input[2..book],
        &input[start..line],
        input[line],
        budget,
        day,
        &input[schedule..],
        &mut work,
        &mut net,
        &mut output,
    );
    answer(a, &output, page, at)
}

// The page of a whole standard input, at the front of the buffer; how many bytes it has.
fn page(form: Form, input: &[u8], page: &mut [u8; PAGE]) -> usize
    ensures { S.Paged (reader form) input.now page.old page.new result }
{
    let at = put(b"REDUCE 1\n", page, 0);
    match parts_of(input) {
        None => line(b"refused", Refusal::BadInput as usize, page, at),
        Some(parts) => run_page(form, input, parts, page, at),
    }
}

// The page of the standard input of which n bytes were read to the front of the buffer, up to its end or until the buffer was full. The page stands
// at the front of the sheet; how many bytes it has.
pub fn of_buffer(form: Form, buffer: &[u8; INPUT], n: usize, sheet: &mut [u8; PAGE]) -> usize
    ensures { S.PagedFrom (reader form) buffer.now n sheet.old sheet.new result }
{
    let bytes: &[u8] = buffer;
    if n < bytes.len() {
        return page(form, &bytes[..n], sheet);
    }
    page(form, bytes, sheet)
}

// Are these the bytes of a page, as its first line says?
pub fn is_page(bytes: &[u8]) -> bool
    ensures { result ≡ S.begins S.fixed_line bytes.now }
{
    bytes.starts_with(b"REDUCE 1\n")
}
