// A saved run in arrays (document 02, Change 11): its numbers, by value. What it is in arrays and numbers is said in specs/Saved.
#![tactic(auto)]

// How many units share the work, the budget, and what all parts of the run have counted.
#[derive(Clone, Copy)]
pub struct Numbers {
    pub units: usize,
    pub budget: u32,
    pub rewrites: u32,
    pub entries: usize,
    pub granted: usize,
    pub kept: usize,
}
