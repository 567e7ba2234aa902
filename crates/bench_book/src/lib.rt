// The reader of books for the benchmark: its tables are the caller's, so that they can be compared. An undated book ignores the day.
#![tactic(auto)]

ghost use Rattle.std.specs.Prelude.{◌≡◌, length};

// 0, or the number of the refusal; 255 for a book of over 65,536 bytes.
#[unsafe(no_mangle)]
pub extern "C" fn bench_book_read(
    bytes: &[u8],
    day: u16,
    operators: &mut [u8; 4352],
    rules: &mut [u32; 512],
) -> u8
    requires { length operators.old ≡ 4352 }
{
    if 65536 < bytes.len() {
        return 255;
    }
    match book::read_book(bytes, day, operators, rules) {
        Ok(_) => 0,
        Err(e) => e.number(),
    }
}
