// The place of a named point (document 02, Change 11), as specs/Slot says: its name, and behind the name what was saved under it.
#![tactic(auto)]

ghost use Rattle.std.specs.Prelude.{◌++◌, ◌≡◌, ◌+◌, ◌≤◌, length, drop, replicate};
ghost use Rattle.stream.specs.Promises.{WrittenAt};
ghost use Rattle.point.specs.Saved.{Arrays, arrays, saved};
ghost use Rattle.point_writer.specs.Promises.{Savable};
ghost use Rattle.slots.specs.Slot.{name_bytes, point_bytes, slot_bytes, padded};
ghost use Rattle.slots.specs.Promises as C;

use point::Numbers;

// Where the name ends: its length is one byte, and 16 are its own.
pub const NAME: usize = 17;

// Every byte becomes 0.
pub fn clear(area: &mut [u8])
    ensures { area.new ≡ replicate (length area.old) 0 }
{
    area.fill(0);
}

// Some bytes, at a position; the position behind them.
fn put_bytes(output: &mut [u8], at: usize, bytes: &[u8]) -> usize
    requires { at + length bytes.now ≤ length output.old }
    ensures { WrittenAt at bytes.now output.old output.new result }
{
    // Kept as a loop: `copy_from_slice` would have the static library need `memmove` from outside.
    for i in 0..bytes.len() {
        output[at + i] = bytes[i];
    }
    at + bytes.len()
}

// The name, with zeros behind it.
pub fn put_name(slot: &mut [u8], name: &[u8])
    requires { (length name.now ≤ 16) × (17 ≤ length slot.old) }
    ensures { slot.new ≡ name_bytes name.now ++ drop 17 slot.old }
{
    let a = stream::put_number(slot, 0, 1, name.len());
    let b = put_bytes(slot, a, name);
    stream::put_number(slot, b, NAME - b, 0);
}

// The part of a slot behind the name. Every byte of it is written.
pub fn write_part(
    part: &mut [u8],
    book: &[u8],
    day: u16,
    x: Numbers,
    symbols: &[u32; 1024],
    work: &[u8],
    cells: &[u32; 8],
    order: &[u16; 1024],
)
    requires { let a : Arrays = arrays symbols.now work.now cells.now order.now in Savable x a × C.PartRoom book.now part.old }
    ensures { let a : Arrays = arrays symbols.now work.now cells.now order.now in part.new ≡ padded (length part.old) (point_bytes book.now day (saved x a)) }
{
    clear(part);
    let a = stream::put_number(part, 0, 2, book.len());
    let b = stream::put_number(part, a, 2, usize::from(day));
    let c = put_bytes(part, b, book);
    point_writer::save(part, 8 * c, x, symbols, work, cells, order);
}

// A whole slot: the name, and the part behind it, which is lent to its writer.
pub fn write_slot(
    slot: &mut [u8],
    name: &[u8],
    book: &[u8],
    day: u16,
    x: Numbers,
    symbols: &[u32; 1024],
    work: &[u8],
    cells: &[u32; 8],
    order: &[u16; 1024],
)
    requires { let a : Arrays = arrays symbols.now work.now cells.now order.now in Savable x a × C.SlotRoom name.now book.now slot.old }
    ensures { let a : Arrays = arrays symbols.now work.now cells.now order.now in slot.new ≡ slot_bytes (length slot.old) name.now book.now day (saved x a) }
{
    put_name(slot, name);
    write_part(&mut slot[NAME..], book, day, x, symbols, work, cells, order);
}
