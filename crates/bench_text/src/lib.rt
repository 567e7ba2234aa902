// A payee's text read for the benchmark: the table of operators is the caller's.
#![tactic(auto)]

ghost use Rattle.std.specs.Prelude.{◌≡◌, length};

// The term's symbols at the front of symbols; how many, or 0 for a refusal.
#[unsafe(no_mangle)]
pub extern "C" fn bench_text_read(
    text: &[u8],
    n: usize,
    operators: &[u8; 4352],
    symbols: &mut [u8; 1024],
) -> usize
    requires { length symbols.old ≡ 1024 }
{
    text::read_text(text, n, operators, symbols).unwrap_or(0)
}
