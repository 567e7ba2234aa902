// What is left of an operator's steps, read once from the last to the first.
ghost use Rattle.std.specs.Prelude.{not, List, [], ◌≡◌, drop};
ghost use Rattle.paper.specs.Strategy as P;
ghost use Rattle.flat.specs.Tested.{and, unnamed};
ghost use Rattle.tables.specs.Layout.{step, steps_in, Rowed};
ghost use Rattle.point_frames.specs.Steps.{prepend, Told, Countable};

use tables::Step;

// Of some steps: whether there is one, whether the next is a JOIN, whether a JOIN comes before any WHOLE, the count of the next JOIN, the FORKs before it, and
// how many arguments they name.
#[derive(Clone, Copy)]
pub struct Rest {
    pub some: bool,
    pub joins: bool,
    pub group: bool,
    pub count: u8,
    pub forks: u8,
    pub named: u8,
}

pub fn none() -> Rest
    ensures { Told [] result }
{
    Rest {
        some: false,
        joins: false,
        group: false,
        count: 0,
        forks: 0,
        named: 0,
    }
}

// The same with a step in front.
fn prepended(first: Step, r: Rest) -> Rest
    requires { Countable r }
    ensures { (ss : List P.Step) → Told ss r → Told (prepend (step first) ss) result }
{
    match first {
        Step::None => r,
        Step::Whole => Rest {
            some: true,
            joins: false,
            group: false,
            count: r.count,
            forks: r.forks,
            named: r.named,
        },
        Step::Visit(_) => Rest {
            some: true,
            joins: false,
            group: r.group,
            count: r.count,
            forks: r.forks,
            named: r.named + 1,
        },
        Step::Fork(_) => Rest {
            some: true,
            joins: false,
            group: r.group,
            count: r.count,
            forks: r.forks + 1,
            named: r.named + 1,
        },
        Step::Join(c) => Rest {
            some: true,
            joins: true,
            group: true,
            count: c,
            forks: 0,
            named: r.named,
        },
    }
}

// The steps of operator o from step k on.
pub fn from(operators: &[u8; 4352], o: u8, k: u8) -> Rest
    requires { Rowed operators.now o }
    ensures { Told (drop k (steps_in operators.now o)) result }
{
    let mut r = none();
    for i in (k..16).rev() {
        r = prepended(tables::step_at(operators, o, i), r);
    }
    r
}

// Does the step name argument x?
fn names(first: Step, x: usize) -> bool
    ensures { (ss : List P.Step) → unnamed x (prepend (step first) ss) ≡ and (not result) (unnamed x ss) }
{
    match first {
        Step::Visit(i) => x == casts::index(i),
        Step::Fork(i) => x == casts::index(i),
        _ => false,
    }
}

// Is argument x named by no step of operator o from step k on?
pub fn is_unnamed(operators: &[u8; 4352], o: u8, k: u8, x: usize) -> bool
    requires { Rowed operators.now o }
    ensures { unnamed x (drop k (steps_in operators.now o)) ≡ result }
{
    for i in k..16 {
        if names(tables::step_at(operators, o, i), x) {
            return false;
        }
    }
    true
}
