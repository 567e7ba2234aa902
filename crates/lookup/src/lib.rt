// The first rule of a book that matches, found by its net (document 02, Change 8): down the branches that the term's symbols agree with, back to those
// that were passed, and at the end of a path its rules are matched.
#![tactic(auto)]

ghost use Rattle.std.specs.Prelude.{◌≡◌, suc, ◌+◌, ◌^◌, ◌≤◌, ◌<◌, length, get_or, IfSome};
ghost use Rattle.term.specs.Present.{length_in, operators_in};
ghost use Rattle.rule.specs.Packed.{binding};
ghost use Rattle.rule.specs.Promises as R;
ghost use Rattle.net.specs.Layout.{number, root_in, left_of};
ghost use Rattle.net.specs.Net.{book_by};
ghost use Rattle.lookup.specs.Walk.{symbol_in, size_in};
ghost use Rattle.lookup.specs.Promises as L;

use rule::Match;
use side::Standing;

// A node of the net, and the term's offset there: so many symbols of a rule's path, in so many bits.
#[derive(Clone, Copy)]
struct Spot {
    rule: usize,
    depth: usize,
    at: usize,
    offset: usize,
}

// The end of a path, with its first rule; none; or a node from which there may be a choice.
#[derive(Clone, Copy)]
enum Descent {
    Leaf(usize),
    Lost,
    Choice(Spot),
}

// A rule whose path's rules are tried next, if any, and the limit of their numbers; and how many nodes are left to go back to.
#[derive(Clone, Copy)]
struct Turn {
    rule: Option<usize>,
    limit: usize,
    height: usize,
}

// The first rule found by now. It is fresh if its binding is the last one made, or if there is none.
#[derive(Clone, Copy)]
struct Best {
    found: Option<Match>,
    fresh: bool,
}

// The number of a rule that was found, its index plus 1; 256 where none was. Only rules of lower numbers are before it.
fn limit(best: Option<Match>) -> usize
    requires { IfSome best (λ m. m.rule < 256) }
    ensures { result ≡ L.limit_of best }
{
    match best {
        Some(m) => m.rule + 1,
        None => 256,
    }
}

// The key by which the rule of a node goes on.
fn key(book: &[u8], net: &[u8], s: Spot) -> u8
    requires { (length book.now ≤ 2 ^ 60) × L.Small net.now s }
    ensures { L.KeyAt book.now (left_of net.now s.rule + s.at) result }
{
    match side::symbol_at(book, net::left_side(net, s.rule) + s.at) {
        Standing::Operator(o, _) => o,
        Standing::Variable(_, _) => net::PART,
    }
}

// The rule behind the branch of key k at a node whose rule goes on by the key own.
fn branch(net: &[u8], s: Spot, own: u8, k: u8) -> Option<usize>
    requires { L.Small net.now s }
    ensures { (number result ≡ L.branch_in net.now s.rule s.depth own k) × (number result < 256) }
{
    if own == k {
        Some(s.rule)
    } else {
        net::way(net, s.rule, s.depth, k)
    }
}

// The node behind the branch that bears the term's symbol.
fn by_symbol(net: &[u8], symbols: &[u32; 1024], s: Spot, own: u8) -> Option<Spot>
    requires { L.Small net.now s }
    ensures { L.BySymbol net.now symbols.now s own result }
{
    let rule = branch(net, s, own, term::operator_at(symbols, s.offset))?;
    Some(Spot {
        rule,
        depth: s.depth + 1,
        at: s.at + 9,
        offset: s.offset + 1,
    })
}

// The node behind the branch that bears a variable, by which the part of the term is skipped.
fn by_part(net: &[u8], symbols: &[u32; 1024], s: Spot, own: u8) -> Option<Spot>
    requires { L.Small net.now s × (s.offset + size_in symbols.now s.offset ≤ 1024) }
    ensures { L.ByPart net.now symbols.now s own result }
{
    let rule = branch(net, s, own, net::PART)?;
    Some(Spot {
        rule,
        depth: s.depth + 1,
        at: s.at + 5,
        offset: s.offset + term::size_at(symbols, s.offset),
    })
}

// The node behind the branch where there is no choice.
fn go_on(net: &[u8], symbols: &[u32; 1024], s: Spot, own: u8) -> Option<Spot>
    requires { L.Small net.now s × (s.offset + size_in symbols.now s.offset ≤ 1024) }
    ensures { L.OneWay net.now symbols.now s own result }
{
    if own == net::PART {
        by_part(net, symbols, s, own)
    } else {
        by_symbol(net, symbols, s, own)
    }
}

// Down from a node of the term at offset root, as long as there is no choice. A path from which no rule leaves any more is not gone to its end, and a branch
// whose first rule isn't before the best is not entered.
fn descend(
    book: &[u8],
    net: &[u8],
    symbols: &[u32; 1024],
    root: usize,
    start: Spot,
    best: usize,
) -> Descent
    requires { L.Ready book.now net.now symbols.now root × L.Node book.now net.now symbols.now root start }
    ensures { L.Descended book.now net.now symbols.now root start best result }
{
    let end = root + term::size_at(symbols, root);
    let mut s = start;
    while s.depth < net::last(net, s.rule) && s.offset < end {
        if best <= s.rule + 1 {
            return Descent::Lost;
        }
        if s.depth < net::choice(net, s.rule) {
            return Descent::Choice(s);
        }
        let own = key(book, net, s);
        let Some(next) = go_on(net, symbols, s, own) else {
            return Descent::Lost;
        };
        s = next;
    }
    Descent::Leaf(s.rule)
}

// The first of the rules with the path of rule i that matches, if its number is below the limit.
fn try_rules(
    book: &[u8],
    operators: &[u8; 4352],
    net: &[u8],
    symbols: &[u32; 1024],
    offset: usize,
    i: usize,
    limit: usize,
    bound: &mut [u16; 32],
) -> Option<Match>
    requires { L.Present book.now operators.now net.now symbols.now offset × (i < length (L.rules_by book.now net.now)) × (get_or (L.path_by book.now net.now i) 0 0 ≡ symbol_in symbols.now offset) }
    ensures { L.RulesTried book.now operators.now net.now symbols.now offset i limit (binding bound.new) result }
{
    let mut next = Some(i);
    while let Some(rule) = next {
        if limit <= rule + 1 {
            return None;
        }
        let left = net::left_side(net, rule);
        if let Some(end) = rule::match_left(book, left, operators, symbols, offset, bound) {
            return Some(Match { rule, end });
        }
        next = net::same(net, rule);
    }
    None
}

// A node is put on the stack at a height.
fn put(stack: &mut [u32; 1024], height: usize, s: Spot)
    requires { (length stack.old ≡ 1024) × (height < 64) × L.Packable s }
    ensures { L.Put stack.old height s stack.new }
{
    stack[2 * height] = (s.rule + 256 * s.depth + 65536 * s.at) as u32;
    stack[2 * height + 1] = s.offset as u32;
}

// The node behind a branch is put on the stack, if there is one; the new height.
fn push(stack: &mut [u32; 1024], height: usize, next: Option<Spot>) -> usize
    requires { L.Puts stack.old height next }
    ensures { L.Pushed stack.old height next stack.new result }
{
    match next {
        None => height,
        Some(s) => {
            put(stack, height, s);
            height + 1
        }
    }
}

// The node at a height of the stack.
fn popped(stack: &[u32; 1024], h: usize) -> Spot
    requires { h < 64 }
    ensures { result ≡ L.spot_at stack.now h }
{
    let w = stack[2 * h] as usize;
    Spot {
        rule: w % 256,
        depth: w / 256 % 256,
        at: w / 65536,
        offset: stack[2 * h + 1] as usize,
    }
}

// Down from the node on top of the stack, at height top, which is taken off: to the rules of a path, or to a choice, whose branches are put on the stack,
// the variable's below the symbol's.
fn visit(
    book: &[u8],
    net: &[u8],
    symbols: &[u32; 1024],
    offset: usize,
    stack: &mut [u32; 1024],
    top: usize,
    limit: usize,
) -> Turn
    requires { L.Ready book.now net.now symbols.now offset × L.Stacked book.now net.now symbols.now offset stack.old (suc top) }
    ensures { L.Visited book.now net.now symbols.now offset stack.old top limit stack.new result }
{
    match descend(book, net, symbols, offset, popped(stack, top), limit) {
        Descent::Lost => Turn {
            rule: None,
            limit,
            height: top,
        },
        Descent::Leaf(i) => Turn {
            rule: Some(i),
            limit,
            height: top,
        },
        Descent::Choice(c) => {
            let own = key(book, net, c);
            let h = push(stack, top, by_part(net, symbols, c, own));
            Turn {
                rule: None,
                limit,
                height: push(stack, h, by_symbol(net, symbols, c, own)),
            }
        }
    }
}

// What is to be tried next; where nothing is left to go back to, the best once more, for its binding.
fn next_turn(
    book: &[u8],
    net: &[u8],
    symbols: &[u32; 1024],
    offset: usize,
    stack: &mut [u32; 1024],
    height: usize,
    best: Option<Match>,
) -> Turn
    requires { L.Ready book.now net.now symbols.now offset × L.Stacked book.now net.now symbols.now offset stack.old height × IfSome best (λ m. m.rule < 256) }
    ensures { L.Turned book.now net.now symbols.now offset stack.old height best stack.new result }
{
    if height == 0 {
        return Turn {
            rule: best.map(|m| m.rule),
            limit: limit(best) + 1,
            height: 0,
        };
    }
    visit(book, net, symbols, offset, stack, height - 1, limit(best))
}

// The rules of a turn are tried.
fn attempt(
    book: &[u8],
    operators: &[u8; 4352],
    net: &[u8],
    symbols: &[u32; 1024],
    offset: usize,
    t: Turn,
    best: Best,
    bound: &mut [u16; 32],
) -> Best
    requires { L.Present book.now operators.now net.now symbols.now offset × L.Tells book.now net.now symbols.now offset (number t.rule) }
    ensures { L.Attempted book.now operators.now net.now symbols.now offset t best bound.old bound.new result }
{
    let Some(rule) = t.rule else {
        return best;
    };
    match try_rules(book, operators, net, symbols, offset, rule, t.limit, bound) {
        Some(m) => Best {
            found: Some(m),
            fresh: true,
        },
        None => Best {
            found: best.found,
            fresh: best.found.is_none(),
        },
    }
}

// The first rule that matches the term at an offset; first is the first rule of its root. Where no path leaves that rule's behind the root, there is nothing
// to search: the rules that have it are tried.
pub fn find(
    book: &[u8],
    operators: &[u8; 4352],
    net: &[u8],
    symbols: &[u32; 1024],
    offset: usize,
    first: usize,
    stack: &mut [u32; 1024],
    bound: &mut [u16; 32],
) -> Option<Match>
    requires { L.Present book.now operators.now net.now symbols.now offset × (root_in net.now (get_or (operators_in symbols.now) offset 0) ≡ suc first) × (length stack.old ≡ 1024) }
    ensures { R.SearchAnswers (book_by book.now net.now) operators.now offset (operators_in symbols.now) (length_in symbols.now) (binding bound.new) result × (length stack.new ≡ 1024) }
{
    if net::last(net, first) <= 1 {
        return try_rules(book, operators, net, symbols, offset, first, 256, bound);
    }
    let start = Spot {
        rule: first,
        depth: 1,
        at: 9,
        offset: offset + 1,
    };
    put(stack, 0, start);
    let mut height = 1;
    let mut best = Best {
        found: None,
        fresh: true,
    };
    while 0 < height || !best.fresh {
        let t = next_turn(book, net, symbols, offset, stack, height, best.found);
        height = t.height;
        best = attempt(book, operators, net, symbols, offset, t, best, bound);
    }
    best.found
}
