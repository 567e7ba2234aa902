// The order in which the pending parts were placed (document 02, Change 11), as specs/Order says: FORK places a part, EXIT takes its part out.
#![tactic(auto)]

ghost use Rattle.std.specs.Prelude.{◌≡◌, ◌<◌, ◌≤◌, unwrap_or, IfSome};
ghost use Rattle.placing.specs.Order.{pending_in, OrderFits};
ghost use Rattle.placing.specs.Promises as C;

// How many parts are pending.
pub fn pending(order: &[u16; 1024]) -> usize
    requires { OrderFits order.now }
    ensures { (result ≡ pending_in order.now) × (result < 1024) }
{
    usize::from(order[0])
}

// A part of unit v is placed, the latest of all.
pub fn place(order: &mut [u16; 1024], v: usize)
    requires { C.CanPlace order.old v }
    ensures { C.Placed v order.old order.new }
{
    let n = pending(order) + 1;
    order[n] = v as u16;
    order[0] = n as u16;
}

// Which part is the latest of unit u, counted from 1, if it has one.
fn latest(order: &[u16; 1024], u: usize) -> Option<usize>
    requires { OrderFits order.now }
    ensures latest { C.Latest order.now u (unwrap_or result 0) }
    ensures from_one { IfSome result (λ i. 0 < i) }
{
    for i in (0..pending(order)).rev() {
        if usize::from(order[i + 1]) == u {
            return Some(i + 1);
        }
    }
    None
}

// Part i goes; those placed later move down.
fn remove(order: &mut [u16; 1024], i: usize)
    requires { OrderFits order.old × (0 < i) × (i ≤ pending_in order.old) }
    ensures { C.Removed i order.old order.new }
{
    let n = pending(order);
    order.copy_within(i + 1..=n, i);
    order[0] = (n - 1) as u16;
}

// The latest part of unit u goes; with none, nothing changes.
pub fn take_out(order: &mut [u16; 1024], u: usize)
    requires { OrderFits order.old }
    ensures { C.TakenOut u order.old order.new }
{
    if let Some(i) = latest(order, u) {
        remove(order, i);
    }
}
