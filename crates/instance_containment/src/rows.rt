// Which node is within which, over rows of bits: row v has the nodes that v holds. Every row goes through one node after the other: once it
// has gone through those below c, row v has what lies within v through nodes below c.
ghost use Rattle.std.specs.Prelude.{◌≡◌, ◌||◌, ◌≤◌, ◌<◌, ltb, length, get_or, IfSome};
ghost use Rattle.csdl.specs.Search.{first_from, found};
ghost use Rattle.instance_containment.specs.Graph.{node_in, entry, step_in, within_in};
ghost use Rattle.instance_containment.specs.Rows.{in_row, with_step, Steps, Passed, Through, Closed};

use crate::arrays::{node_of, read_at};
use type_hierarchy::type_sets::{in_set, with_one};

// Whether w is in row v.
fn in_row(rows: &[u64], v: u16, w: u16) -> bool
    requires { (length rows.now ≡ 1024) × (v < 256) × (w < 256) }
    ensures { result ≡ in_row rows.now v w }
{
    in_set(rows[4 * (v as usize) + (w / 64) as usize], w % 64)
}

// Adds a step from a node to a node, each as an entry of the arrays has it.
fn put_step(rows: &mut [u64], from: u16, to: u16)
    requires { length rows.old ≡ 1024 }
    ensures { Steps (with_step rows.old from to) rows.new }
{
    if (from == 0) | (256 < from) {
        return;
    }
    if (to == 0) | (256 < to) {
        return;
    }
    let w = to - 1;
    let at = 4 * ((from - 1) as usize) + (w / 64) as usize;
    let word = with_one(rows[at], w % 64);
    rows[at] = word;
}

// The nodes that each node holds through one of the c items.
fn step_rows(item_slots: &[u16], slot_nodes: &[u16], to: &[u16], c: u16) -> [u64; 1024]
    ensures { Steps (step_in (node_in item_slots.now slot_nodes.now) (entry to.now) c) result }
{
    let mut rows = [0u64; 1024];
    for k in (0..c).rev() {
        put_step(
            &mut rows,
            node_of(item_slots, slot_nodes, k),
            read_at(to, k),
        );
    }
    rows
}

// Row v takes in row c, where it has c.
fn pass(rows: &mut [u64], v: u16, c: u16)
    requires { (length rows.old ≡ 1024) × (v < 256) × (c < 256) }
    ensures { Passed v c rows.old rows.new }
{
    if !in_row(rows, v, c) {
        return;
    }
    let to = 4 * (v as usize);
    let from = 4 * (c as usize);
    for j in 0..4 {
        rows[to + j] |= rows[from + j];
    }
}

// The rows below n go through c too.
fn go_through(rows: &mut [u64], n: u16, c: u16)
    requires { (length rows.old ≡ 1024) × (n ≤ 256) × (c < n) }
    ensures { Through n c rows.old rows.new }
{
    for v in 0..n {
        pass(rows, v, c);
    }
}

// The rows below n get what their nodes reach in one or more steps.
fn close_rows(rows: &mut [u64], n: u16)
    requires { (length rows.old ≡ 1024) × (n ≤ 256) }
    ensures { Closed n rows.old rows.new }
{
    for c in 0..n {
        go_through(rows, n, c);
    }
}

// The first of n nodes that is held more than once or is in its own row.
fn first_in_rows(times: &[u16], rows: &[u64], n: u16) -> Option<u16>
    requires { (length rows.now ≡ 1024) × (n ≤ 256) }
    ensures value { result ≡ found (first_from (λ w. ltb 1 (get_or times.now w 0) || in_row rows.now w w) 0 n) }
    ensures bound { IfSome result (λ w. w < 256) }
{
    (0..n).find(|w| (1 < read_at(times, *w)) | in_row(rows, *w, *w))
}

// The first of n nodes that is held more than once or is within itself.
pub(crate) fn first_by_rows(
    item_slots: &[u16],
    slot_nodes: &[u16],
    to: &[u16],
    times: &[u16],
    c: u16,
    n: u16,
) -> Option<u16>
    requires { n ≤ 256 }
    ensures value { result ≡ found (first_from (λ w. ltb 1 (get_or times.now w 0) || within_in (node_in item_slots.now slot_nodes.now) (entry to.now) c n w) 0 n) }
    ensures bound { IfSome result (λ w. w < 256) }
{
    let mut rows = step_rows(item_slots, slot_nodes, to, c);
    close_rows(&mut rows, n);
    first_in_rows(times, &rows, n)
}
