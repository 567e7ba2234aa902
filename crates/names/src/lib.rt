// The eight slots of a buffer of named points (document 02, Change 11): which one bears a name, which one is free, whether a name stands twice.
#![tactic(auto)]

ghost use Rattle.std.specs.Prelude.{◌≡◌, suc, ◌≤◌, ◌<◌};
ghost use Rattle.parking.specs.Points.{slot};
ghost use Rattle.names.specs.Promises as C;

// The bytes of a slot, and the length that the buffer must have.
pub const SLOT: usize = 65536;

pub const POINTS: usize = 524288;

// Does the slot bear the name?
fn bears(slot: &[u8], name: &[u8]) -> bool
    requires { C.SlotBytes slot.now }
    ensures { result ≡ C.bears name.now slot.now }
{
    let n = usize::from(slot[0]);
    &slot[1..n + 1] == name
}

// The bytes of slot k.
pub fn slot(points: &[u8], k: usize) -> &[u8]
    requires { C.HasSlots points.now × (k < 8) }
    ensures bytes { result.now ≡ slot k points.now }
    ensures long { C.SlotBytes result.now }
{
    let start = k * SLOT;
    &points[start..start + SLOT]
}

// The first slot from `from` on that bears the name.
pub fn find_from(points: &[u8], from: usize, name: &[u8]) -> Option<usize>
    requires { C.HasSlots points.now × (from ≤ 8) }
    ensures { C.Found (C.bears name.now) points.now from result }
{
    (from..8).find(|&k| bears(slot(points, k), name))
}

// The lowest free slot.
pub fn first_free(points: &[u8]) -> Option<usize>
    requires { C.HasSlots points.now }
    ensures { C.Found C.free_slot points.now 0 result }
{
    (0..8).find(|&k| points[k * SLOT] == 0)
}

// The first slot behind slot k that bears its name.
fn again(points: &[u8], k: usize) -> Option<usize>
    requires { C.HasSlots points.now × (k < 8) }
    ensures { C.Found (C.bears (C.told_name (slot k points.now))) points.now (suc k) result }
{
    let first = k * SLOT;
    let start = first + 1;
    let end = start + usize::from(points[first]);
    find_from(points, k + 1, &points[start..end])
}

// Does no slot behind slot k bear its name, if it has one?
fn is_alone(points: &[u8], k: usize) -> bool
    requires { C.HasSlots points.now × (k < 8) }
    ensures { C.IsAlone points.now k result }
{
    points[k * SLOT] == 0 || again(points, k).is_none()
}

// Do the names of all slots that are not free differ?
pub fn names_differ(points: &[u8]) -> bool
    requires { C.HasSlots points.now }
    ensures { C.NamesDiffer points.now result }
{
    (0..8).all(|k| is_alone(points, k))
}
