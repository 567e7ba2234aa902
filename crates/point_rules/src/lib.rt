// The rules of a saved point (document 02, Change 11), decided on the arrays that it was read into.
#![tactic(auto)]

ghost use Rattle.point.specs.Saved.{arrays};
ghost use Rattle.point_rules.specs.Promises as C;

use point::Numbers;

// Does the point meet all rules? What holds of the arrays whatever stands in them is not tested again.
pub fn meets(
    operators: &[u8; 4352],
    symbols: &[u32; 1024],
    work: &[u8],
    cells: &[u32; 8],
    order: &[u16; 1024],
    x: Numbers,
) -> bool
    requires { C.PointRead operators.now x (arrays symbols.now work.now cells.now order.now) }
    ensures { C.Decided operators.now x (arrays symbols.now work.now cells.now order.now) result }
{
    if x.budget < x.rewrites {
        return false;
    }
    if !point_frames::frames_good(operators, symbols, work, cells, x.units) {
        return false;
    }
    if !point_order::order_good(work, cells, x.units, order) {
        return false;
    }
    point_order::ranks_good(operators, symbols, work, cells, x.units)
}
