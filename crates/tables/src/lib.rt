// The two tables of a book that a run reads: its operators and its rules. Their layout (specs/Layout) is known here alone.
#![tactic(auto)]

ghost use Rattle.std.specs.Prelude.{◌≡◌, ◌+◌, ◌*◌, ◌<◌, ◌^◌, length, set};
ghost use Rattle.tables.specs.Layout as L;

// The lengths of the two tables.
pub const OPERATORS: usize = 4352;

pub const RULES: usize = 512;

// A step of an operator's settled strategy: VISIT or FORK of an argument, JOIN with its count, WHOLE; or none, behind the last.
#[derive(Drop)]
pub enum Step {
    None,
    Whole,
    Visit(u8),
    Fork(u8),
    Join(u8),
}

// Operators

pub fn arity(operators: &[u8; 4352], o: u8) -> usize
    ensures { (result ≡ L.arity_in operators.now o) × (result < 256) }
{
    casts::index(operators[casts::index(o)])
}

pub fn put_arity(operators: &mut [u8; 4352], o: usize, arity: u8)
    requires { o < 256 }
    ensures { operators.new ≡ set operators.old o arity }
{
    operators[o] = arity;
}

// The step that a code stands for.
fn step_of(code: u8) -> Step
    ensures { L.step result ≡ L.step_of code }
{
    if code == 0 {
        return Step::None;
    }
    if code < 8 {
        return Step::Whole;
    }
    if code < 16 {
        return Step::Visit(code - 8);
    }
    if code < 24 {
        return Step::Fork(code - 16);
    }
    Step::Join(code - 24)
}

// Step k of operator o.
pub fn step_at(operators: &[u8; 4352], o: u8, k: u8) -> Step
    requires { k < 16 }
    ensures { L.step result ≡ L.step_of (L.code_in operators.now o k) }
{
    step_of(operators[256 + 16 * casts::index(o) + casts::index(k)])
}

// The codes of steps, for whoever lays them out.
pub const WHOLE: u8 = 1;

pub fn visit_code(i: u8) -> u8
    requires { i < 8 }
    ensures { result ≡ 8 + i }
{
    8 + i
}

pub fn fork_code(i: u8) -> u8
    requires { i < 8 }
    ensures { result ≡ 16 + i }
{
    16 + i
}

pub fn join_code(c: u8) -> u8
    requires { c < 64 }
    ensures { result ≡ 24 + c }
{
    24 + c
}

// Where the codes of operator o begin.
pub fn row_start(o: usize) -> usize
    requires { o < 256 }
    ensures { result ≡ 256 + 16 * o }
{
    256 + 16 * o
}

// Rules

// The day whose rules these are.
pub fn put_day(rules: &mut [u32; 512], day: u16)
    ensures { rules.new ≡ L.with_day rules.old day }
{
    rules[255] = casts::word(casts::offset(day));
}

pub fn day(rules: &[u32; 512]) -> usize
    ensures { (result ≡ L.day_in rules.now) × (result < 2 ^ 32) }
{
    casts::position(rules[255])
}

// How many rules there are.
pub fn put_count(rules: &mut [u32; 512], count: usize)
    requires { count < 256 }
    ensures { rules.new ≡ L.with_count rules.old count }
{
    rules[511] = casts::word(count);
}

pub fn count(rules: &[u32; 512]) -> usize
    ensures { (result ≡ L.count_in rules.now) × (result < 2 ^ 32) }
{
    casts::position(rules[511])
}

// The bit positions of the sides of rule i.
pub fn left_side(rules: &[u32; 512], i: usize) -> usize
    requires { i < 255 }
    ensures { (result ≡ L.left_in rules.now i) × (result < 2 ^ 32) }
{
    casts::position(rules[i])
}

pub fn right_side(rules: &[u32; 512], i: usize) -> usize
    requires { i < 255 }
    ensures { (result ≡ L.right_in rules.now i) × (result < 2 ^ 32) }
{
    casts::position(rules[256 + i])
}

pub fn put_sides(rules: &mut [u32; 512], i: usize, left: usize, right: usize)
    requires { (i < 255) × (left < 2 ^ 32) × (right < 2 ^ 32) }
    ensures { rules.new ≡ L.with_sides rules.old i left right }
{
    rules[i] = casts::word(left);
    rules[256 + i] = casts::word(right);
}
