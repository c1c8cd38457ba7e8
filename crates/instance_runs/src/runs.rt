// Which node has a slot, which slot has an item, and in how many runs each stands: arrays filled by going through the runs once. An entry has 2
// bytes, to take as little of the stack as it can: 0 for none, else a number plus 1.
ghost use Rattle.std.specs.Prelude.{◌≡◌, ℕ, ◌+◌, ◌<◌};
ghost use Rattle.csdl.specs.Search.{tab};
ghost use Rattle.csdl.specs.declared.Run as declared;
ghost use Rattle.csdl.specs.Conforms.{nodes_with, slots_with, node_of_slot, slot_of_item};
ghost use Rattle.instance_image.specs.Limits.{FewSlots};
ghost use Rattle.instance_image.specs.Read.{instance_read};
ghost use Rattle.instance_runs.specs.Tables.{Tabulates, left_by, to_two};

use csdl::Run;
use instance_image::instance::Instance;

// One more, at most 2.
pub fn one_more(x: u16) -> u16
    ensures { result ≡ to_two (x + 1) }
{
    if x < 1 { x + 1 } else { 2 }
}

// What the runs leave in an array of zeros, from the last to the first: run v changes the entry at each of its places, as far as the array goes.
pub fn over_runs<const N: usize, R: Fn(u16) -> Run, F: Fn(u16, u16) -> u16>(
    count: u16,
    run_of: R,
    change: F,
) -> [u16; N]
    requires runs { (v : ℕ) → v < count → R.pre run_of v }
    requires changes { (v x : ℕ) → v < count → x < 65536 → F.pre change v x }
    ensures { (run : ℕ → declared.Run) (g : ℕ → ℕ → ℕ) → ((v : ℕ) (r : declared.Run) → v < count → R.post run_of v r → (r.first ≡ (run v).first) × (r.count ≡ (run v).count)) → ((v x y : ℕ) → v < count → F.post change v x y → y ≡ g v x) → Tabulates (λ k. left_by run g k 0 count) N result }
{
    let mut array = [0u16; N];
    for v in (0..count).rev() {
        let run = run_of(v);
        let first = run.first as usize;
        let end = (first + run.count as usize).min(N);
        for k in first..end {
            array[k] = change(v, array[k]);
        }
    }
    array
}

// For each slot the node whose run has it.
pub fn nodes_of_slots(instance: &Instance) -> [u16; 1024]
    ensures { result ≡ tab (λ k. node_of_slot (instance_read instance.now) k) 0 1024 }
{
    over_runs(
        instance.node_count(),
        |v| instance.node_slots(v),
        |v, _| v + 1,
    )
}

// For each item the slot whose run has it.
pub fn slots_of_items(instance: &Instance) -> [u16; 2048]
    requires { FewSlots instance.now.slots.now }
    ensures { result ≡ tab (λ k. slot_of_item (instance_read instance.now) k) 0 2048 }
{
    over_runs(
        instance.slot_count(),
        |s| instance.slot_items(s),
        |s, _| s + 1,
    )
}

// In how many runs each slot stands, at most 2.
pub(crate) fn nodes_with(instance: &Instance) -> [u16; 1024]
    ensures { Tabulates (λ k. to_two (nodes_with (instance_read instance.now) k)) 1024 result }
{
    over_runs(
        instance.node_count(),
        |v| instance.node_slots(v),
        |_, x| one_more(x),
    )
}

// In how many runs each item stands, at most 2.
pub(crate) fn slots_with(instance: &Instance) -> [u16; 2048]
    requires { FewSlots instance.now.slots.now }
    ensures { Tabulates (λ k. to_two (slots_with (instance_read instance.now) k)) 2048 result }
{
    over_runs(
        instance.slot_count(),
        |s| instance.slot_items(s),
        |_, x| one_more(x),
    )
}
