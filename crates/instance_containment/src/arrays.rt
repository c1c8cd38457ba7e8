// The slot of each item, the node of each slot, and the node that each item holds. An entry has 2 bytes, to take as little of the stack as it can:
// 0 for none, else a number plus 1.
ghost use Rattle.std.specs.Prelude.{◌≡◌, suc, ◌<◌, get_or, MatchOption, IfSome};
ghost use Rattle.csdl.specs.Search.{found};
ghost use Rattle.instance_containment.specs.Graph as graph;

use csdl::Run;

// Entry k of an array, or 0 past the end.
pub(crate) fn read_at(array: &[u16], k: u16) -> u16
    ensures { result ≡ get_or array.now k 0 }
{
    array.get(k as usize).copied().unwrap_or(0)
}

// The number that entry k of an array is for.
pub(crate) fn number_at(array: &[u16], k: u16) -> Option<u16>
    ensures { result ≡ found (get_or array.now k 0) }
{
    read_at(array, k).checked_sub(1)
}

// A number as an entry.
pub(crate) fn entry(number: Option<u16>) -> u16
    requires { IfSome number (λ w. w < 65535) }
    ensures { MatchOption number (result ≡ 0) (λ w. result ≡ suc w) }
{
    match number {
        Some(w) => w + 1,
        None => 0,
    }
}

// The node in whose slot item k stands, as an entry.
pub(crate) fn node_of(item_slots: &[u16], slot_nodes: &[u16], k: u16) -> u16
    ensures { result ≡ graph.node_in item_slots.now slot_nodes.now k }
{
    match number_at(item_slots, k) {
        Some(s) => read_at(slot_nodes, s),
        None => 0,
    }
}

// The node that item k holds, as a run of one node or none.
pub(crate) fn held_run(to: &[u16], k: u16) -> Run
    ensures { (result.first ≡ (graph.held_run (graph.entry to.now) k).first) × (result.count ≡ (graph.held_run (graph.entry to.now) k).count) }
{
    match number_at(to, k) {
        Some(w) => Run { first: w, count: 1 },
        None => Run { first: 0, count: 0 },
    }
}
