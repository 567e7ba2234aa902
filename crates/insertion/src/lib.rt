// The net of a book's rules, built in its area (document 02, Change 8): each rule in book order goes along the paths that are there until it parts from
// them.
#![tactic(auto)]

ghost use Rattle.std.specs.Prelude.{◌≡◌, suc, ◌<◌, ◌≤◌, ◌^◌, length};
ghost use Rattle.tables.specs.Layout.{day_in};
ghost use Rattle.tables.specs.Tables.{TablesOf};
ghost use Rattle.net.specs.Layout as L;
ghost use Rattle.net.specs.Net.{path, book_by};
ghost use Rattle.insertion.specs.Promises as I;

use side::Standing;

// A symbol of a left side: its key, how many bits it takes, how many arguments it has.
#[derive(Clone, Copy)]
struct Symbol {
    key: u8,
    width: usize,
    arity: usize,
}

// Where a rule leaves the path of another: at which depth, by which key; and whether one of the two goes on by a variable there.
#[derive(Clone, Copy)]
struct Parting {
    rule: usize,
    depth: usize,
    key: u8,
    choice: bool,
}

// The place of a rule: behind the rules with the path of another, or off it.
#[derive(Clone, Copy)]
enum Place {
    Behind(usize),
    Off(Parting),
}

// The symbol at a position of the book.
fn read(book: &[u8], operators: &[u8; 4352], at: usize) -> Symbol
    requires { length book.now ≤ 2 ^ 60 }
    ensures { I.SymbolRead book.now at operators.now result }
{
    match side::symbol_at(book, at) {
        Standing::Operator(o, _) => Symbol {
            key: o,
            width: 9,
            arity: tables::arity(operators, o),
        },
        Standing::Variable(_, _) => Symbol {
            key: net::PART,
            width: 5,
            arity: 0,
        },
    }
}

// Is one of two keys the variables'?
#[tactic(auto, unfolding(crate::specs::Promises::chosen))]
fn chosen(own: u8, new: u8) -> bool
    ensures { result ≡ I.chosen own new }
{
    own == net::PART || new == net::PART
}

// The rule by which the node at a depth of rule i's path goes on with the key `new`, where its own is `own`.
fn follow(net: &[u8], i: usize, depth: usize, own: u8, new: u8) -> Option<usize>
    requires { (L.published ≤ length net.now) × (i < 255) × (depth < 256) × L.Chained net.now }
    ensures { (L.number result ≡ I.branch net.now i depth own new) × (L.number result < 256) }
{
    if own == new {
        return Some(i);
    }
    net::way(net, i, depth, new)
}

// The place of rule j, whose root is that of rule `first`.
fn walk(
    book: &[u8],
    operators: &[u8; 4352],
    net: &[u8],
    j: usize,
    root: Symbol,
    first: usize,
) -> Place
    requires { (length book.now ≤ 2 ^ 60) × I.Ready book.now operators.now net.now (book_by book.now net.now).rules j × I.SymbolRead book.now (L.left_of net.now j) operators.now root × (L.root_in net.now root.key ≡ suc first) }
    ensures { I.PlaceIs net.now (path (book_by book.now net.now).rules) j result }
{
    let left = net::left_side(net, j);
    let mut rule = first;
    let mut depth: usize = 1;
    let mut at = root.width;
    let mut due = root.arity;
    while 0 < due {
        let own = read(book, operators, net::left_side(net, rule) + at);
        let new = read(book, operators, left + at);
        let Some(next) = follow(net, rule, depth, own.key, new.key) else {
            return Place::Off(Parting {
                rule,
                depth,
                key: new.key,
                choice: chosen(own.key, new.key),
            });
        };
        rule = next;
        depth += 1;
        at += new.width;
        due = due - 1 + new.arity;
    }
    Place::Behind(rule)
}

// Rule j is told behind the last one with the path of rule i.
fn append(net: &mut [u8], i: usize, j: usize)
    requires { (L.published ≤ length net.old) × I.Told net.old j × (i < j) × (j < 255) }
    ensures { I.Appended net.old i j net.new }
{
    let mut s = i;
    while let Some(next) = net::same(net, s) {
        s = next;
    }
    net::put_same(net, s, j);
}

// Rule j, whose sides stand in the net.
fn insert(book: &[u8], operators: &[u8; 4352], net: &mut [u8], j: usize)
    requires { (length book.now ≤ 2 ^ 60) × I.Ready book.now operators.now net.old (book_by book.now net.old).rules j }
    ensures { I.Inserted net.old (path (book_by book.now net.old).rules) j net.new }
{
    let root = read(book, operators, net::left_side(net, j));
    let Some(first) = net::root(net, root.key) else {
        net::put_root(net, root.key, j);
        return;
    };
    match walk(book, operators, net, j, root, first) {
        Place::Behind(i) => append(net, i, j),
        Place::Off(p) => net::put_way(net, p.rule, p.depth, p.key, j, p.choice),
    }
}

// The net of a book by its tables.
pub fn build(book: &[u8], operators: &[u8; 4352], rules: &[u32; 512], net: &mut [u8])
    requires { TablesOf book.now operators.now rules.now × (length book.now ≤ 65536) × (L.published ≤ length net.old) × (day_in rules.now < 65536) }
    ensures { I.Built book.now operators.now rules.now net.old net.new }
{
    net::start(net);
    net::put_day(net, tables::day(rules));
    for j in 0..tables::count(rules) {
        net::put_sides(
            net,
            j,
            tables::left_side(rules, j),
            tables::right_side(rules, j),
        );
        insert(book, operators, net, j);
    }
}
