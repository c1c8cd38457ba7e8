// The walk of one item along the segments that are left.
#![tactic(auto)]

ghost use Rattle.instance_image.specs.Read.{instance_read};
ghost use Rattle.model_image.specs.Read.{model_read};
ghost use Rattle.std.specs.Prelude.{◌≡◌, ◌+◌, ◌≤◌, ◌<◌, length};
ghost use Rattle.std.proofs.lemmas.List.Edits.{sets};
ghost use Rattle.csdl.specs.Walk.{bytes_of_item};
ghost use Rattle.csdl.specs.Walk.Item.{value};
ghost use Rattle.walk_step.specs.Seen.{stops_at, item_in};
ghost use Rattle.walk_items.specs.From.{next_position, written_from, opened_from};

use instance_image::instance::Instance;
use packed::byte_of;
use type_hierarchy::hierarchy::Hierarchy;
use walk_step::{Item, NULL, Next, item_in, next_of};

// Where a walk stands: at an item before segment k, with `left` segments to take. Its results go into the buffer from byte `end` on.
#[derive(Clone, Copy)]
pub struct Position {
    pub k: u16,
    pub left: u16,
    pub item: Item,
    pub end: usize,
}

// Where the results end in the buffer, and how many slots were opened.
#[derive(Clone, Copy)]
pub struct Done {
    pub end: usize,
    pub opened: u16,
}

// Whether the walk of an item ends.
fn stops(left: u16, item: Item) -> bool
    ensures { result ≡ stops_at left item.t item.v }
{
    left == 0 || item == NULL
}

// A result, as an item.
fn write_item(out: &mut [u8], at: usize, item: Item)
    requires { at + 4 ≤ length out.old }
    ensures { out.new ≡ sets out.old at (bytes_of_item (value item.t item.v)) }
{
    out[at..at + 4].copy_from_slice(&[
        item.t,
        byte_of(item.v, 2),
        byte_of(item.v, 1),
        byte_of(item.v, 0),
    ]);
}

// An item at which the walk ends: it is its own result, and opens no slot.
fn write_last(here: Position, out: &mut [u8]) -> Done
    requires { here.end + 4 ≤ length out.old }
    ensures out_after { out.new ≡ sets out.old here.end (bytes_of_item (value here.item.t here.item.v)) }
    ensures end_value { (result.end ≡ here.end + 4) × (result.opened ≡ 0) }
{
    write_item(out, here.end, here.item);
    Done {
        end: here.end + 4,
        opened: 0,
    }
}

// Where the walk stands one segment further, at item q of those that come next.
fn next_position(instance: &Instance, step: Next, q: u16, here: Position, end: usize) -> Position
    requires { (here.k + here.left < 65536) × (0 < here.left) }
    ensures { result ≡ next_position here (item_in (instance_read instance.now) step q) end }
{
    Position {
        k: here.k + 1,
        left: here.left - 1,
        item: item_in(instance, step, q),
        end,
    }
}

// The walk of an item: its results in the buffer, where they end, and how many slots it opened.
pub fn walk_from(hierarchy: &Hierarchy, instance: &Instance, here: Position, out: &mut [u8]) -> Done
    requires end_small { here.k + here.left < 65536 }
    requires here_in_bounds { here.end + length (written_from (model_read hierarchy.now.model) (instance_read instance.now) here) ≤ length out.old }
    requires here_len_bound { length (opened_from (model_read hierarchy.now.model) (instance_read instance.now) here) < 65536 }
    ensures out_after { out.new ≡ sets out.old here.end (written_from (model_read hierarchy.now.model) (instance_read instance.now) here) }
    ensures end_value { result.end ≡ here.end + length (written_from (model_read hierarchy.now.model) (instance_read instance.now) here) }
    ensures opened_value { result.opened ≡ length (opened_from (model_read hierarchy.now.model) (instance_read instance.now) here) }
{
    if stops(here.left, here.item) {
        return write_last(here, out);
    }
    let step = next_of(hierarchy, instance, here.k, here.item);
    let mut end = here.end;
    let mut opened = step.opened;
    for q in step.first..step.first + step.count {
        let next = next_position(instance, step, q, here, end);
        let done = walk_from(hierarchy, instance, next, out);
        end = done.end;
        opened += done.opened;
    }
    Done { end, opened }
}
