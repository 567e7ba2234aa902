// The check of a buffer of named points (document 02, Change 11): whether every point keeps the rules and no name stands twice, where a name is placed, and which point
// bears it. Nothing is written.
#![tactic(auto)]

ghost use Rattle.std.specs.Prelude.{◌≡◌, ◌≤◌, length};
ghost use Rattle.parking.specs.Form.{read_slot};
ghost use Rattle.parking.specs.Points.{points_fault};
ghost use Rattle.names.specs.Promises.{SlotBytes, HasSlots};
ghost use Rattle.opening.specs.Promises.{read_part};
ghost use Rattle.checking.specs.Promises as C;

use refusal::Refusal;

// Is the name no longer than 16 bytes, with zeros behind it?
fn name_kept(slot: &[u8]) -> bool
    requires { SlotBytes slot.now }
    ensures { result ≡ C.name_kept slot.now }
{
    let n = usize::from(slot[0]);
    n <= 16 && slot[n + 1..17].iter().all(|&b| b == 0)
}

// Is what stands behind a name a run that keeps the rules? It is opened in arrays that are given up again.
fn part_good(part: &[u8]) -> bool
    requires { (4 ≤ length part.now) × (length part.now ≤ 65536) }
    ensures { result ≡ C.accepts (read_part part.now) }
{
    let mut operators = [0u8; 4352];
    let mut rules = [0u32; 512];
    let mut symbols = [0u32; 1024];
    let mut work = [0u8; 24624];
    let mut cells = [0u32; 8];
    let mut order = [0u16; 1024];
    opening::open(
        part,
        &mut operators,
        &mut rules,
        &mut symbols,
        &mut work,
        &mut cells,
        &mut order,
    )
    .is_some()
}

// Is the slot free, or does its point keep the rules?
fn slot_good(slot: &[u8]) -> bool
    requires { SlotBytes slot.now }
    ensures { result ≡ C.whole (read_slot slot.now) }
{
    slot[0] == 0 || (name_kept(slot) && part_good(&slot[17..]))
}

// Is no slot broken?
fn slots_good(points: &[u8]) -> bool
    requires { HasSlots points.now }
    ensures { C.SlotsJudged points.now result }
{
    (0..8).all(|k| slot_good(names::slot(points, k)))
}

// Whether a name may be looked up in a buffer: the buffer is long enough, every point keeps the rules, no name stands twice, and the name is 1 to 16 bytes.
pub fn points_fault(name: &[u8], points: &[u8]) -> Result<(), Refusal>
    ensures { points_fault name.now points.now ≡ C.as_fault result }
{
    if points.len() < names::POINTS {
        return Err(Refusal::OutputTooShort);
    }
    if !slots_good(points) || !names::names_differ(points) {
        return Err(Refusal::BadPointOrName);
    }
    if name.is_empty() || 16 < name.len() {
        return Err(Refusal::BadPointOrName);
    }
    Ok(())
}

// Where a run with the name is saved: in the slot that bears it, else in the lowest free one.
pub fn place(name: &[u8], points: &[u8]) -> Result<usize, Refusal>
    ensures { C.Placed name.now points.now result }
{
    points_fault(name, points)?;
    names::find_from(points, 0, name)
        .or_else(|| names::first_free(points))
        .ok_or(Refusal::NinthName)
}

// The slot whose point bears the name.
pub fn find(name: &[u8], points: &[u8]) -> Result<usize, Refusal>
    ensures { C.FoundAs name.now points.now result }
{
    points_fault(name, points)?;
    names::find_from(points, 0, name).ok_or(Refusal::BadPointOrName)
}
