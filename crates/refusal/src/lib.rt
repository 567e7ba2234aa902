// Why something is refused. Each reason has a number (document 01, 'What is checked where'; document 02), by which programs and C are told.
#![tactic(auto)]

ghost use Rattle.std.specs.Prelude.{◌≡◌, ◌<◌};
ghost use Rattle.refusal.specs.Numbers.{number};

use std::error::Error;
use std::fmt;

/// A reason to refuse, by its name in the Rust and C interfaces. 6 is given no longer.
#[derive(Clone, Copy, Debug, PartialEq, Eq)]
pub enum Refusal {
    BookRunsOut = 1,
    NoOperator = 2,
    BadStrategy = 3,
    UnknownOperatorInRule = 4,
    LeftSideIsVariable = 5,
    RightSideAddsVariable = 7,
    SideTooLong = 8,
    BookLeftOver = 9,
    LineIsNoTerm = 10,
    UnknownOperatorInLine = 11,
    LineTooLong = 12,
    BadUnits = 13,
    UnknownUnitInSchedule = 14,
    WorkTooShort = 15,
    OutputTooShort = 16,
    BadInput = 17,
    TextTooLong = 18,
    NoLetters = 19,
    BadPointOrName = 20,
    NinthName = 21,
    AmountOutOfRange = 22,
    BadRateOrShares = 23,
    OutsideStrictProfile = 24,
    RulesOverlap = 25,
}

impl Refusal {
    /// Its number, which is never 0.
    pub fn number(self) -> u8
        ensures value { result ≡ number self }
        ensures told { 0 < result }
    {
        self as u8
    }
}

impl From<Refusal> for u8 {
    ghost from_gives = { λ r n. n ≡ number r };

    fn from(refusal: Refusal) -> u8 {
        refusal.number()
    }
}

impl fmt::Display for Refusal {
    fn fmt<W: fmt::Write>(&self, f: &mut fmt::Formatter<W>) -> fmt::Result {
        write!(f, "refused {}", self.number())
    }
}

impl Error for Refusal {}
