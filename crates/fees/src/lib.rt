// The fee of an amount, by the rate of the root of a term that was posted, and the net amount split among its owners (document 02, Change 12). Amounts are
// cents; rates and shares are ten-thousandths.
#![tactic(auto)]

ghost use Rattle.std.specs.Prelude.{◌++◌, ◌≡◌, ◌≤◌, ◌<◌, eqb, ltb, pos, nat_abs, ◌+ℤ◌, length, get_or, drop, sum, ◌≤ℤ◌};
ghost use Rattle.paper.specs.Result.{if};
ghost use Rattle.fees.specs.Fees as F;
ghost use Rattle.fees.specs.Spec as X;
ghost use Rattle.fees.specs.Promises as C;

use refusal::Refusal;

// The largest amount, in size.
const MOST: u64 = 1000000000000;

// The fee of a payment. The product is at most 10^12 × 10,000, so with 5,000 more it fits an i64.
fn payment_fee(amount: i64, rate: u16) -> i64
    requires { (pos 0 ≤ℤ amount) × C.InRange amount rate }
    ensures { result ≡ F.fee amount rate }
{
    (amount * i64::from(rate) + 5000) / 10000
}

// A refund's fee is the payment's with the sign turned.
fn fee(amount: i64, rate: u16) -> i64
    requires { C.InRange amount rate }
    ensures { result ≡ F.fee amount rate }
{
    if amount < 0 {
        -payment_fee(-amount, rate)
    } else {
        payment_fee(amount, rate)
    }
}

// An owner's share, cut toward zero. The product is at most 10^12 × 10,000 in size, so it fits an i64.
fn cut(net: i64, share: u16) -> i64
    requires { C.InRange net share }
    ensures { result ≡ F.cut net share }
{
    net * i64::from(share) / 10000
}

// The size of what is cut off, of the same product.
fn rest(net: i64, share: u16) -> u64
    requires { C.InRange net share }
    ensures { result ≡ F.rest net share }
{
    (net * i64::from(share) % 10000).unsigned_abs()
}

// Does owner j, with remainder a, come before owner i, with remainder b?
fn comes_before(a: u64, j: usize, b: u64, i: usize) -> bool
    ensures { result ≡ if (eqb a b) (ltb j i) (ltb b a) }
{
    (b, j) < (a, i)
}

// How many of n owners come before owner i.
fn before(rests: &[u64; 16], n: usize, i: usize) -> usize
    requires { (n ≤ 16) × (i < n) }
    ensures { result ≡ F.how_many (λ j. F.comes_before (λ k. get_or rests.now k 0) j i) n }
{
    let b = rests[i];
    let mut count = 0;
    for j in 0..n {
        if comes_before(rests[j], j, b, i) {
            count += 1;
        }
    }
    count
}

// The remainders of all owners, and how many cents are left.
fn remainders(net: i64, shares: &[u16], rests: &mut [u64; 16]) -> usize
    requires { C.Splits net shares.now }
    ensures { C.Remaining net shares.now rests.old rests.new result }
{
    let mut left = net;
    for i in 0..shares.len() {
        let share = shares[i];
        rests[i] = rest(net, share);
        left -= cut(net, share);
    }
    left.unsigned_abs() as usize
}

// An owner's part, with one of the cents left if it gets one.
fn part(amount: i64, net: i64, share: u16, gets: bool) -> i64
    requires { C.InRange net share }
    ensures { result ≡ F.cut net share +ℤ F.with_sign amount (if gets 1 0) }
{
    let cents = cut(net, share);
    if gets {
        if amount < 0 { cents - 1 } else { cents + 1 }
    } else {
        cents
    }
}

// The parts of all owners, to the front of the array.
fn split(amount: i64, net: i64, shares: &[u16], parts: &mut [i64; 16])
    requires { C.Splits net shares.now }
    ensures { parts.new ≡ F.parts amount net shares.now ++ drop (length shares.now) parts.old }
{
    let mut rests = [0u64; 16];
    let left = remainders(net, shares, &mut rests);
    for i in 0..shares.len() {
        let gets = before(&rests, shares.len(), i) < left;
        parts[i] = part(amount, net, shares[i], gets);
    }
}

// Sixteen shares of 16 bits: the sum fits.
fn total(shares: &[u16]) -> usize
    requires { length shares.now ≤ 16 }
    ensures { result ≡ sum shares.now }
{
    shares.iter().map(|&share| usize::from(share)).sum()
}

// Are these the shares of 1 to 16 owners, 10,000 in total?
fn are_shares(shares: &[u16]) -> bool
    ensures { result ≡ F.are_shares shares.now }
{
    if shares.is_empty() || 16 < shares.len() {
        return false;
    }
    total(shares) == 10000
}

// The rate of the term's root: two bytes of the table, the high one first.
fn root_rate(term: &[u8], rates: &[u8]) -> Option<u16>
    ensures { C.rate result ≡ F.root_rate term.now rates.now }
{
    let at = 2 * usize::from(*term.first()?);
    if rates.len() < at + 2 {
        return None;
    }
    Some(stream::pair(rates, at) as u16)
}

// The charge of an amount in its range, by the root's rate.
fn charge_by(
    rate: Option<u16>,
    amount: i64,
    shares: &[u16],
    parts: &mut [i64; 16],
) -> Result<i64, Refusal>
    requires { nat_abs amount ≤ 1000000000000 }
    ensures { X.ChargedAs (F.charge_by (C.rate rate) amount shares.now) parts.old parts.new result }
{
    let Some(k) = rate else {
        return Err(Refusal::BadRateOrShares);
    };
    if 10000 < k || !are_shares(shares) {
        return Err(Refusal::BadRateOrShares);
    }
    let f = fee(amount, k);
    split(amount, amount - f, shares, parts);
    Ok(f)
}

// The fee of an amount by the rate of a posted term's root, and the owners' parts of the rest.
pub fn charge(
    term: &[u8],
    rates: &[u8],
    amount: i64,
    shares: &[u16],
    parts: &mut [i64; 16],
) -> Result<i64, Refusal>
    ensures { X.ChargedBy term.now rates.now amount shares.now parts.old parts.new result }
{
    if MOST < amount.unsigned_abs() {
        return Err(Refusal::AmountOutOfRange);
    }
    charge_by(root_rate(term, rates), amount, shares, parts)
}
