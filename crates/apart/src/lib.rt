// Which left sides of a book no term matches together (document 02, Change 13), for all pairs of rules at once. Two left sides are apart exactly if they
// have different nodes at one place, where a variable has none. Which rules have a place or a node is kept as bits, 64 rules in a word: a rule's row has
// a bit for each rule that is apart from it.
#![tactic(auto)]

ghost use Rattle.std.specs.Prelude.{◌≡◌, ◌+◌, ◌*◌, ◌^◌, ◌<◌, ◌≤◌, length, replicate};
ghost use Rattle.tables.specs.Tables.{TablesOf, book_of};
ghost use Rattle.overlap.specs.Trie.{cells};
ghost use Rattle.apart.specs.Rows as R;
ghost use Rattle.apart.specs.Promises as C;

// Marks, by a bit, the nodes of n cells and their places.
fn mark(
    nodes: &[u16; 16384],
    places: &[u16; 16384],
    start: usize,
    n: usize,
    bit: u64,
    holders: &mut [u64; 16384],
    sharers: &mut [u64; 16384],
)
    requires { C.CellsIn nodes.now places.now start n }
    ensures { (holders.new ≡ R.mark_all bit (R.places_of places.now (cells nodes.now start n)) holders.old) × (sharers.new ≡ R.mark_all bit (cells nodes.now start n) sharers.old) }
{
    for node in &nodes[start..start + n] {
        let z = usize::from(*node);
        let c = usize::from(places[z]);
        holders[c] |= bit;
        sharers[z] |= bit;
    }
}

// Marks the cells of up to 64 of the m rules, from rule `first` on, whose bit is the lowest.
fn mark_word(
    nodes: &[u16; 16384],
    places: &[u16; 16384],
    counts: &[u8; 256],
    m: usize,
    first: usize,
    holders: &mut [u64; 16384],
    sharers: &mut [u64; 16384],
)
    requires { C.AllCells nodes.now places.now counts.now m × (holders.old ≡ replicate 16384 0) × (sharers.old ≡ replicate 16384 0) × (first < 256) }
    ensures { C.Marked nodes.now places.now counts.now m first holders.new sharers.new }
{
    for j in first..m.min(first + 64) {
        mark(
            nodes,
            places,
            64 * j + 64,
            usize::from(counts[j]),
            1 << (j - first),
            holders,
            sharers,
        );
    }
}

// The rules, by their bits, that have another node at the place of one of n cells.
fn row(
    nodes: &[u16; 16384],
    places: &[u16; 16384],
    start: usize,
    n: usize,
    holders: &[u64; 16384],
    sharers: &[u64; 16384],
) -> u64
    requires { C.CellsIn nodes.now places.now start n }
    ensures { result ≡ R.differ_all places.now holders.now sharers.now (cells nodes.now start n) 0 }
{
    let mut apart = 0;
    for node in &nodes[start..start + n] {
        let z = usize::from(*node);
        let c = usize::from(places[z]);
        apart |= holders[c] ^ sharers[z];
    }
    apart
}

// Word w of each rule's row: which of the rules from 64 * w on are apart from it.
fn put_word(
    nodes: &[u16; 16384],
    places: &[u16; 16384],
    counts: &[u8; 256],
    m: usize,
    w: usize,
    holders: &[u64; 16384],
    sharers: &[u64; 16384],
    rows: &mut [u64; 1024],
)
    requires { C.AllCells nodes.now places.now counts.now m × (w < 4) × (length rows.old ≡ 1024) }
    ensures { C.WordPut nodes.now places.now counts.now m w holders.now sharers.now rows.old rows.new × (length rows.new ≡ 1024) }
{
    for i in 0..m {
        let n = usize::from(counts[i]);
        rows[4 * i + w] = row(nodes, places, 64 * i + 64, n, holders, sharers);
    }
}

// The bits of the rules from 64 * w on.
fn find_word(
    nodes: &[u16; 16384],
    places: &[u16; 16384],
    counts: &[u8; 256],
    m: usize,
    w: usize,
    rows: &mut [u64; 1024],
)
    requires { C.AllCells nodes.now places.now counts.now m × (w < 4) × (length rows.old ≡ 1024) }
    ensures { C.WordFound nodes.now places.now counts.now m w rows.old rows.new × (length rows.new ≡ 1024) }
{
    let mut holders = [0u64; 16384];
    let mut sharers = [0u64; 16384];
    mark_word(nodes, places, counts, m, 64 * w, &mut holders, &mut sharers);
    put_word(nodes, places, counts, m, w, &holders, &sharers, rows);
}

// Which of m rules are apart, by their cells.
fn find_rows(
    nodes: &[u16; 16384],
    places: &[u16; 16384],
    counts: &[u8; 256],
    m: usize,
    rows: &mut [u64; 1024],
)
    requires { C.AllCells nodes.now places.now counts.now m }
    ensures { C.RowsFound nodes.now places.now counts.now m rows.new }
{
    *rows = [0; 1024];
    for w in 0..m.div_ceil(64) {
        find_word(nodes, places, counts, m, w, rows);
    }
}

// Which of a book's m left sides are apart: a row of four words for each rule.
pub fn find(
    book: &[u8],
    operators: &[u8; 4352],
    rules: &[u32; 512],
    m: usize,
    rows: &mut [u64; 1024],
)
    requires { TablesOf book.now operators.now rules.now × (length book.now ≤ 65536) × (m ≡ length (book_of book.now rules.now).rules) }
    ensures { R.Rows (book_of book.now rules.now).rules rows.new }
{
    let mut places = [0u16; 16384];
    let mut nodes = [0u16; 16384];
    let mut counts = [0u8; 256];
    overlap::build(
        book,
        operators,
        rules,
        m,
        &mut places,
        &mut nodes,
        &mut counts,
    );
    find_rows(&nodes, &places, &counts, m, rows);
}

// Are the left sides of the rules i and j apart?
pub fn apart(rows: &[u64; 1024], i: usize, j: usize) -> bool
    requires { (i < 256) × (j < 256) }
    ensures { result ≡ R.apart_in rows.now i j }
{
    (rows[4 * i + j / 64] >> (j % 64)) % 2 == 1
}
