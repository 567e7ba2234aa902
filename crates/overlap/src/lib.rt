// Places and nodes of a book's left sides (document 02, Change 13). A place is a way down from the root, by operators and arguments; a node is an operator
// at a place. Each operator of a left side has a cell with the number of its node.
#![tactic(auto)]

ghost use Rattle.std.specs.Prelude.{◌++◌, ◌≡◌, ◌+◌, ◌-◌, ◌*◌, ◌<◌, ◌≤◌, length, drop, set};
ghost use Rattle.tables.specs.Layout.{arity_in};
ghost use Rattle.tables.specs.Tables.{TablesOf, book_of};
ghost use Rattle.overlap.specs.Trie.{trie, upto, Linked};
ghost use Rattle.overlap.specs.Promises as C;

use side::Standing;

// A side has at most 64 symbols.
const SYMBOLS: usize = 64;

// The node of o at a place; as an error the slot where its number goes, as of a binary search. A place has the slot of its number, node y two slots from
// 16384 + 2 * y on; the bits of o, lowest first, say which of the two comes next.
fn seek(links: &[u16; 49152], codes: &[u8; 16384], place: usize, o: u8) -> Result<usize, usize>
    requires { C.Seekable links.now codes.now × (place < 16384) }
    ensures { C.Sought links.now codes.now place o result }
{
    let mut slot = place;
    let mut turns = usize::from(o);
    while links[slot] != 0 {
        let y = usize::from(links[slot]);
        if codes[y] == o {
            return Ok(y);
        }
        slot = 16384 + 2 * y + turns % 2;
        turns /= 2;
    }
    Err(slot)
}

// The node y of o at a place. Its arguments have the places from base on.
fn put_node(
    links: &mut [u16; 49152],
    codes: &mut [u8; 16384],
    bases: &mut [u16; 16384],
    places: &mut [u16; 16384],
    slot: usize,
    y: usize,
    o: u8,
    base: usize,
    place: usize,
)
    requires { (slot < 49152) × (y < 16384) × (base < 65536) × (place < 65536) }
    ensures { (links.new ≡ set links.old slot y) × (codes.new ≡ set codes.old y o) × (bases.new ≡ set bases.old y base) × (places.new ≡ set places.old y place) }
{
    links[slot] = y as u16;
    codes[y] = o;
    bases[y] = base as u16;
    places[y] = place as u16;
}

// The node of o at a place: one that is there, or the cell, whose node it becomes.
fn node_of(
    links: &mut [u16; 49152],
    codes: &mut [u8; 16384],
    bases: &mut [u16; 16384],
    places: &mut [u16; 16384],
    place: usize,
    o: u8,
    cell: usize,
    base: usize,
) -> usize
    requires { C.Seekable links.old codes.old × (place < 16384) × (cell < 16384) × (base < 65536) }
    ensures { C.NodeOf links.old codes.old bases.old places.old place o cell base links.new codes.new bases.new places.new result }
{
    match seek(links, codes, place, o) {
        Ok(z) => z,
        Err(slot) => {
            put_node(links, codes, bases, places, slot, cell, o, base, place);
            cell
        }
    }
}

// An operator at a place, met at a cell: its node.
fn enter(
    links: &mut [u16; 49152],
    codes: &mut [u8; 16384],
    bases: &mut [u16; 16384],
    places: &mut [u16; 16384],
    nodes: &mut [u16; 16384],
    place: usize,
    o: u8,
    cell: usize,
    base: usize,
) -> usize
    requires { Linked (trie links.old codes.old bases.old places.old nodes.old) cell × (place < 16384) × (0 < cell) × (cell < 16384) × (base < 65536) }
    ensures { C.Entered (trie links.old codes.old bases.old places.old nodes.old) place o cell base (trie links.new codes.new bases.new places.new nodes.new) result }
{
    let z = node_of(links, codes, bases, places, place, o, cell, base);
    nodes[cell] = z as u16;
    z
}

// The places of n arguments, from base on, in front of those that are due from top on.
fn push(stack: &mut [u16; 64], top: usize, base: usize, n: usize) -> usize
    requires { (length stack.old ≡ 64) × (n ≤ top) × (top ≤ 64) × (base + n ≤ 65536) }
    ensures { (result ≡ top - n) × (length stack.new ≡ 64) × (drop result stack.new ≡ upto base n ++ drop top stack.old) }
{
    let at = top - n;
    for i in (0..n).rev() {
        stack[at + i] = (base + i) as u16;
    }
    at
}

// The cells of the left side at a position, from first + 64 on, and how many they are. The places of its nodes' arguments are above first.
fn walk(
    book: &[u8],
    at: usize,
    operators: &[u8; 4352],
    first: usize,
    links: &mut [u16; 49152],
    codes: &mut [u8; 16384],
    bases: &mut [u16; 16384],
    places: &mut [u16; 16384],
    nodes: &mut [u16; 16384],
) -> usize
    requires { C.Walkable book.now at operators.now first (trie links.old codes.old bases.old places.old nodes.old) }
    ensures { C.SideWalked book.now at operators.now first (trie links.old codes.old bases.old places.old nodes.old) (trie links.new codes.new bases.new places.new nodes.new) result }
{
    // The places of the terms that are due, the first one's at top.
    let mut stack = [0u16; 64];
    let mut top = 63;
    let mut p = at;
    let mut base = first + 1;
    let mut k: usize = 0;
    for _ in 0..SYMBOLS {
        if top == 64 {
            break;
        }
        match side::symbol_at(book, p) {
            Standing::Variable(_, next) => {
                top += 1;
                p = next;
            }
            Standing::Operator(o, next) => {
                let place = usize::from(stack[top]);
                let z = enter(
                    links,
                    codes,
                    bases,
                    places,
                    nodes,
                    place,
                    o,
                    first + 64 + k,
                    base,
                );
                let arity = tables::arity(operators, o);
                top = push(&mut stack, top + 1, usize::from(bases[z]), arity);
                base += arity;
                k += 1;
                p = next;
            }
        }
    }
    k
}

// The cells of m rules' left sides: those of rule i from 64 * i + 64 on, as many as counts has.
pub fn build(
    book: &[u8],
    operators: &[u8; 4352],
    rules: &[u32; 512],
    m: usize,
    places: &mut [u16; 16384],
    nodes: &mut [u16; 16384],
    counts: &mut [u8; 256],
)
    requires { TablesOf book.now operators.now rules.now × (length book.now ≤ 65536) × (m ≡ length (book_of book.now rules.now).rules) }
    ensures { C.Built (arity_in operators.now) (book_of book.now rules.now).rules places.new nodes.new counts.new }
{
    *places = [0; 16384];
    *nodes = [0; 16384];
    *counts = [0; 256];
    let mut links = [0u16; 49152];
    let mut codes = [0u8; 16384];
    let mut bases = [0u16; 16384];
    for i in 0..m {
        let left = tables::left_side(rules, i);
        let n = walk(
            book,
            left,
            operators,
            64 * i,
            &mut links,
            &mut codes,
            &mut bases,
            places,
            nodes,
        );
        counts[i] = n as u8;
    }
}
