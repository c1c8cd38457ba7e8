// The header of a model image, where its parts begin, and rule 1.
ghost use Rattle.std.specs.Prelude.{◌≡◌, ◌+◌, ◌*◌, ◌≤◌};
ghost use Rattle.csdl.specs.Image as images;
ghost use Rattle.model_image.specs.Counted.{counts_in, starts_by, unlimited};

use csdl::VERSION;
use packed::number_at;

// The counts of the header.
#[derive(Clone, Copy)]
pub struct Counts {
    pub schemas: u16,
    pub types: u16,
    pub properties: u16,
    pub keys: u16,
    pub constraints: u16,
    pub children: u16,
    pub bindings: u16,
    pub segments: u16,
    pub names: u16,
}

pub fn counts_of(image: &[u8]) -> Counts
    ensures { result ≡ counts_in image.now }
{
    Counts {
        schemas: number_at(image, 1),
        types: number_at(image, 2),
        properties: number_at(image, 3),
        keys: number_at(image, 4),
        constraints: number_at(image, 5),
        children: number_at(image, 6),
        bindings: number_at(image, 7),
        segments: number_at(image, 8),
        names: number_at(image, 9),
    }
}

// The byte at which each part begins, after the schemas at byte 20, and the end of the last.
#[derive(Clone, Copy)]
pub struct Starts {
    pub types: u32,
    pub properties: u32,
    pub keys: u32,
    pub constraints: u32,
    pub children: u32,
    pub bindings: u32,
    pub segments: u32,
    pub names: u32,
    pub end: u32,
}

// The byte after `count` records of `size` bytes from byte `at` on.
fn after(at: u32, size: u32, count: u16) -> u32
    requires { (at ≤ 4000000) × (size ≤ 7) }
    ensures { (result ≡ at + size * count) × (result ≤ at + 458745) }
{
    at + size * (count as u32)
}

pub fn starts_of(n: Counts) -> Starts
    ensures { result ≡ starts_by n }
{
    let types = after(20, 5, n.schemas);
    let properties = after(types, 6, n.types);
    let keys = after(properties, 7, n.properties);
    let constraints = after(keys, 6, n.keys);
    let children = after(constraints, 5, n.constraints);
    let bindings = after(children, 4, n.children);
    let segments = after(bindings, 6, n.bindings);
    let names = after(segments, 3, n.segments);
    Starts {
        types: types,
        properties: properties,
        keys: keys,
        constraints: constraints,
        children: children,
        bindings: bindings,
        segments: segments,
        names: names,
        end: names + n.names as u32,
    }
}

// 1c: a count is beyond its limit.
fn bad_counts(n: Counts) -> bool
    ensures { result ≡ unlimited n }
{
    (n.schemas == 0)
        | (16 < n.schemas)
        | (64 < n.types)
        | (512 < n.properties)
        | (128 < n.keys)
        | (64 < n.constraints)
        | (64 < n.children)
        | (128 < n.bindings)
        | (1024 < n.segments)
        | (4096 < n.names)
}

// Rule 1.
pub fn bad_image(image: &[u8]) -> bool
    ensures { result ≡ images.image1 image.now }
{
    let n = counts_of(image);
    let end = starts_of(n).end;
    (image.len() < 20)
        | (number_at(image, 0) != VERSION)
        | bad_counts(n)
        | (image.len() != (end as usize))
}
