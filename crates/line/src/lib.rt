// The line, checked against a book's operators (document 01, the row Term of 'What is checked where').
#![tactic(auto)]

ghost use Rattle.std.specs.Prelude.{◌≡◌};
ghost use Rattle.tables.specs.Layout.{arity_in};
ghost use Rattle.line.specs.Line.{judgement, told};

use refusal::Refusal;

// A line against n operators: one term of them, or refused. 12, over 1,024 bytes; 11, operator n or above where a symbol is due; 10, empty, incomplete, or bytes left over.
pub fn check_line(line: &[u8], n: usize, operators: &[u8; 4352]) -> Result<(), Refusal>
    ensures { told result ≡ judgement n (arity_in operators.now) line.now }
{
    if 1024 < line.len() {
        return Err(Refusal::LineTooLong);
    }
    let mut due = 1;
    for &o in line {
        if due == 0 {
            return Err(Refusal::LineIsNoTerm);
        }
        if n <= casts::index(o) {
            return Err(Refusal::UnknownOperatorInLine);
        }
        due = due - 1 + tables::arity(operators, o);
    }
    if due == 0 {
        Ok(())
    } else {
        Err(Refusal::LineIsNoTerm)
    }
}
