// The area of a discrimination net (document 02, Change 8): what stands in it, found and put. Its layout (specs/Layout) is known here alone.
#![tactic(auto)]

ghost use Rattle.std.specs.Prelude.{◌≡◌, ◌+◌, ◌*◌, ◌^◌, ◌<◌, ◌≤◌, length};
ghost use Rattle.net.specs.Layout as L;
ghost use Rattle.net.specs.Promises as C;

// The length that an area must have.
pub const NET: usize = 3840;

// The key of a variable, whichever it is. No operator has this number.
pub const PART: u8 = 255;

fn cell(net: &[u8], column: usize, i: usize) -> usize
    requires { (L.published ≤ length net.now) × (column < 15) × (i < 256) }
    ensures { (result ≡ L.cell net.now column i) × (result < 256) }
{
    usize::from(net[256 * column + i])
}

// The rule that a cell of a column tells: its number is its index plus 1, and 0 is none.
fn rule(net: &[u8], column: usize, i: usize) -> Option<usize>
    requires { (L.published ≤ length net.now) × (column < 15) × (i < 256) }
    ensures { (L.number result ≡ L.cell net.now column i) × (L.number result < 256) }
{
    cell(net, column, i).checked_sub(1)
}

fn put(net: &mut [u8], column: usize, i: usize, v: u8)
    requires { (L.published ≤ length net.old) × (column < 15) × (i < 256) }
    ensures { C.CellPut net.old column i v net.new }
{
    net[256 * column + i] = v;
}

// The first rule of root o.
pub fn root(net: &[u8], o: u8) -> Option<usize>
    requires { L.published ≤ length net.now }
    ensures { (L.number result ≡ L.root_in net.now o) × (L.number result < 256) }
{
    rule(net, 0, usize::from(o))
}

// The depth behind the last one at which rules leave rule i.
pub fn last(net: &[u8], i: usize) -> usize
    requires { (L.published ≤ length net.now) × (i < 256) }
    ensures { (result ≡ L.last_in net.now i) × (result < 256) }
{
    cell(net, 1, i)
}

// The depth behind the last one at which they do so by a variable, or where rule i has one.
pub fn choice(net: &[u8], i: usize) -> usize
    requires { (L.published ≤ length net.now) × (i < 256) }
    ensures { (result ≡ L.choice_in net.now i) × (result < 256) }
{
    cell(net, 2, i)
}

// The next rule with the path of rule i.
pub fn same(net: &[u8], i: usize) -> Option<usize>
    requires { (L.published ≤ length net.now) × (i < 256) }
    ensures { (L.number result ≡ L.same_in net.now i) × (L.number result < 256) }
{
    rule(net, 3, i)
}

// A bit position in three columns.
fn position(net: &[u8], column: usize, i: usize) -> usize
    requires { (L.published ≤ length net.now) × (column < 13) × (i < 256) }
    ensures { (result ≡ L.cell net.now column i + 256 * L.cell net.now (column + 1) i + 65536 * L.cell net.now (column + 2) i) × (result < 2 ^ 24) }
{
    cell(net, column, i) + 256 * cell(net, column + 1, i) + 65536 * cell(net, column + 2, i)
}

// Where the sides of rule i stand in the book's bits.
pub fn left_side(net: &[u8], i: usize) -> usize
    requires { (L.published ≤ length net.now) × (i < 256) }
    ensures { (result ≡ L.left_of net.now i) × (result < 2 ^ 24) }
{
    position(net, 9, i)
}

pub fn right_side(net: &[u8], i: usize) -> usize
    requires { (L.published ≤ length net.now) × (i < 256) }
    ensures { (result ≡ L.right_of net.now i) × (result < 2 ^ 24) }
{
    position(net, 12, i)
}

fn bucket(i: usize, d: usize, k: u8) -> usize
    requires { (i < 256) × (d < 256) }
    ensures { (result ≡ L.bucket i d k) × (result < 256) }
{
    (37 * i + 11 * d + usize::from(k)) % 256
}

// Does rule j leave rule i at depth d by the key k?
fn leaves(net: &[u8], j: usize, i: usize, d: usize, k: u8) -> bool
    requires { (L.published ≤ length net.now) × (j < 256) }
    ensures { result ≡ L.leaves net.now j i d k }
{
    cell(net, 6, j) == i && cell(net, 7, j) == d && cell(net, 8, j) == usize::from(k)
}

// The rule that leaves rule i at depth d by the key k.
pub fn way(net: &[u8], i: usize, d: usize, k: u8) -> Option<usize>
    requires { (L.published ≤ length net.now) × (i < 256) × (d < 256) × L.Chained net.now }
    ensures { (L.number result ≡ L.way_in net.now i d k) × (L.number result < 256) }
{
    let mut next = rule(net, 4, bucket(i, d, k));
    while let Some(j) = next {
        if leaves(net, j, i, d, k) {
            return next;
        }
        next = rule(net, 5, j);
    }
    None
}

// Nothing is in the net. Columns that are written before they are read are left as they are.
pub fn start(net: &mut [u8])
    requires { L.published ≤ length net.old }
    ensures { C.Empty net.old net.new }
{
    net[..1536].fill(0);
}

// Rule j is the first of root o.
pub fn put_root(net: &mut [u8], o: u8, j: usize)
    requires { (L.published ≤ length net.old) × (j < 255) }
    ensures { C.CellPut net.old 0 o (j + 1) net.new }
{
    put(net, 0, usize::from(o), (j + 1) as u8);
}

// Rule j has the path of rule i, and is told next behind it.
pub fn put_same(net: &mut [u8], i: usize, j: usize)
    requires { (L.published ≤ length net.old) × (i < 256) × (j < 255) }
    ensures { C.CellPut net.old 3 i (j + 1) net.new }
{
    put(net, 3, i, (j + 1) as u8);
}

// A bit position in three columns.
fn put_position(net: &mut [u8], column: usize, i: usize, position: usize)
    requires { (L.published ≤ length net.old) × (column < 13) × (i < 256) × (position < 2 ^ 24) }
    ensures { C.PositionPut net.old column i position net.new }
{
    put(net, column, i, (position % 256) as u8);
    put(net, column + 1, i, (position / 256 % 256) as u8);
    put(net, column + 2, i, (position / 65536) as u8);
}

// Where the sides of rule i stand.
pub fn put_sides(net: &mut [u8], i: usize, left: usize, right: usize)
    requires { (L.published ≤ length net.old) × (i < 256) × (left < 2 ^ 24) × (right < 2 ^ 24) }
    ensures { C.SidesPut net.old i left right net.new }
{
    put_position(net, 9, i, left);
    put_position(net, 12, i, right);
}

// The day whose rules these are; nothing stands where the right side of a 256th rule would.
pub fn put_day(net: &mut [u8], day: usize)
    requires { (L.published ≤ length net.old) × (day < 65536) }
    ensures { C.SidesPut net.old 255 day 0 net.new }
{
    put_sides(net, 255, day, 0);
}

// The cell is d at least.
fn raise(net: &mut [u8], column: usize, i: usize, d: usize)
    requires { (L.published ≤ length net.old) × (column < 4) × (i < 256) × (d < 256) }
    ensures { C.CellPut net.old column i (C.larger (L.cell net.old column i) d) net.new }
{
    if cell(net, column, i) < d {
        put(net, column, i, d as u8);
    }
}

// Rule j is put in front of the bucket of its way; it leaves rule i at depth d by the key k.
fn link(net: &mut [u8], i: usize, d: usize, k: u8, j: usize)
    requires { (L.published ≤ length net.old) × (i < 256) × (d < 255) × (j < 255) × L.Descends net.old j }
    ensures { C.WayLinked net.old i d k j net.new }
{
    let b = bucket(i, d, k);
    put(net, 5, j, cell(net, 4, b) as u8);
    put(net, 6, j, i as u8);
    put(net, 7, j, d as u8);
    put(net, 8, j, k);
    put(net, 4, b, (j + 1) as u8);
}

// Rule j leaves rule i at depth d by the key k; `choice` says whether one of the two goes on by a variable there.
pub fn put_way(net: &mut [u8], i: usize, d: usize, k: u8, j: usize, choice: bool)
    requires { (L.published ≤ length net.old) × (i < 256) × (d < 255) × (j < 255) × L.Descends net.old j }
    ensures { C.WayPut net.old i d k j choice net.new }
{
    link(net, i, d, k, j);
    raise(net, 1, i, d + 1);
    if choice {
        raise(net, 2, i, d + 1);
    }
}
