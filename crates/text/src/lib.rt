// A payee's text as the symbols of its term (document 02, Change 1).
#![tactic(auto)]

ghost use Rattle.std.specs.Prelude.{◌≡◌, ◌<◌, length};
ghost use Rattle.paper.specs.Text as T;
ghost use Rattle.tables.specs.Layout.{arity_in};
ghost use Rattle.text.specs.Promises.{Classed, Put, Filled, TextRead};

use refusal::Refusal;

// The class of each byte, in rows of 20 (hexadecimal), so that a small letter stands below its capital; 0 separates.
const CLASSES: [u8; 256] = *b"\
    \x00\x00\x00\x00\x00\x00\x00\x00\x00\x00\x00\x00\x00\x00\x00\x00\x00\x00\x00\x00\x00\x00\x00\x00\x00\x00\x00\x00\x00\x00\x00\x00\
    \x00\x00\x00\x00\x00\x00\x00\x00\x00\x00\x00\x00\x00\x00\x00\x00\x20\x21\x22\x23\x24\x25\x26\x27\x28\x29\x00\x00\x00\x00\x00\x00\
    \x00\x01\x02\x03\x04\x05\x06\x07\x08\x09\x0a\x0b\x0c\x0d\x0e\x0f\x10\x11\x12\x13\x14\x15\x16\x17\x18\x19\x1a\x00\x00\x00\x00\x00\
    \x00\x01\x02\x03\x04\x05\x06\x07\x08\x09\x0a\x0b\x0c\x0d\x0e\x0f\x10\x11\x12\x13\x14\x15\x16\x17\x18\x19\x1a\x00\x00\x00\x00\x00\
    \x00\x00\x00\x00\x00\x00\x00\x00\x00\x00\x00\x00\x00\x00\x00\x00\x00\x00\x00\x00\x00\x00\x00\x00\x00\x00\x00\x00\x00\x00\x00\x00\
    \x00\x00\x00\x00\x00\x00\x00\x00\x00\x00\x00\x00\x00\x00\x00\x00\x00\x00\x00\x00\x00\x00\x00\x00\x00\x00\x00\x00\x00\x00\x00\x00\
    \x01\x01\x01\x01\x01\x01\x1b\x03\x05\x05\x05\x05\x09\x09\x09\x09\x1c\x0e\x0f\x0f\x0f\x0f\x0f\x00\x1d\x15\x15\x15\x15\x19\x1e\x1f\
    \x01\x01\x01\x01\x01\x01\x1b\x03\x05\x05\x05\x05\x09\x09\x09\x09\x1c\x0e\x0f\x0f\x0f\x0f\x0f\x00\x1d\x15\x15\x15\x15\x19\x1e\x19";

// The table, made once for a text.
fn classes() -> [u8; 256]
    ensures { Classed result }
{
    CLASSES
}

fn class(classes: &[u8; 256], b: u8) -> u8
    requires { Classed classes.now }
    ensures { result ≡ T.class b }
{
    classes[casts::index(b)]
}

// Are operators 0 to 42 there, `end` without argument, the classes with one?
fn has_classes(n: usize, operators: &[u8; 4352]) -> bool
    ensures { result ≡ T.has_classes n (arity_in operators.now) }
{
    if n < 43 {
        return false;
    }
    if tables::arity(operators, 0) != 0 {
        return false;
    }
    for o in 1..43 {
        if tables::arity(operators, o) != 1 {
            return false;
        }
    }
    true
}

// A letter or digit of class c, and a gap in front of it, behind k symbols. Answers how many there are then; none if these were more than 1,023.
fn put(symbols: &mut [u8; 1024], k: usize, gap: bool, c: u8) -> Option<usize>
    requires { (length symbols.old ≡ 1024) × (k < 1024) }
    ensures { Put k gap c symbols.old symbols.new result }
{
    if gap {
        if 1021 < k {
            return None;
        }
        symbols[k] = 42;
        symbols[k + 1] = c;
        Some(k + 2)
    } else {
        if 1022 < k {
            return None;
        }
        symbols[k] = c;
        Some(k + 1)
    }
}

// The classes of the text, squeezed. Answers how many they are; none if they are more than 1,023.
fn fill(text: &[u8], classes: &[u8; 256], symbols: &mut [u8; 1024]) -> Option<usize>
    requires { Classed classes.now × (length symbols.old ≡ 1024) }
    ensures { Filled text.now symbols.old symbols.new result }
{
    let mut k = 0;
    let mut gap = false;
    for &b in text {
        let c = class(classes, b);
        if c == 0 {
            gap = 0 < k;
            continue;
        }
        k = put(symbols, k, gap, c)?;
        gap = false;
    }
    Some(k)
}

// A text against n operators: how many symbols its term has. Refused: 19, operators 0 to 42 lack their arities; then 18, the term would pass 1,024 symbols.
pub fn read_text(
    text: &[u8],
    n: usize,
    operators: &[u8; 4352],
    symbols: &mut [u8; 1024],
) -> Result<usize, Refusal>
    requires { length symbols.old ≡ 1024 }
    ensures { TextRead n (arity_in operators.now) text.now symbols.old symbols.new result }
{
    if !has_classes(n, operators) {
        return Err(Refusal::NoLetters);
    }
    let table = classes();
    let Some(m) = fill(text, &table, symbols) else {
        return Err(Refusal::TextTooLong);
    };
    symbols[m] = 0;
    Ok(m + 1)
}
