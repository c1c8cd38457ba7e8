// Rule 14: every segment resolves. What each resolves to is kept: its code, at its number.
ghost use Rattle.model_image.specs.Read.{model_read};
ghost use Rattle.std.specs.Prelude.{◌≡◌, cond, ℕ, ◌+◌, ◌≤◌, ◌<◌, leb, length, get_or};
ghost use Rattle.csdl.specs.Path.{holders};
ghost use Rattle.csdl.specs.Paths.{unresolved_in, unresolved_of, segment14};
ghost use Rattle.csdl.specs.Search.{first_from, found};
ghost use Rattle.path_resolution.specs.Coded.{Coded};
ghost use Rattle.rules_segments.specs.Kept.{RunKept, Resolvable, PathStep, KindStep, PastKept};
ghost use Rattle.rules_segments.specs.Lowest.{Lowest};

use csdl::{Holder, PathKind, Run};
use lookup::model::Lookup;
use path_kinds::kinds::{KINDS, holder_count, path_of, start_of};
use path_resolution::resolve::{PathFrom, resolve_path};

// The codes of a path, kept at the numbers of its segments.
fn keep_run(run: &[u32], first: u16, count: u16, codes: &mut [u32])
    requires { (count < 16) × (length run.now ≡ 16) × (first + count ≤ length codes.old) }
    ensures { RunKept run.now first count codes.old codes.new }
{
    let first = first as usize;
    let count = count as usize;
    codes[first..first + count].copy_from_slice(&run[..count]);
}

// The first segment of a path that does not resolve, where `taken` of its segments do, if it is below `bound`; else `bound`.
fn unresolved_at(first: u16, count: u16, taken: u16, bound: u16) -> u16
    requires { (first < 2048) × (count < 16) }
    ensures { result ≡ cond (leb count taken) bound (cond (leb bound (first + taken)) bound (first + taken)) }
{
    if count <= taken {
        return bound;
    }
    bound.min(first + taken)
}

// The path of the record: its lowest segment below `bound` that does not resolve, or `bound`. Its codes are kept.
fn unresolved_in(lookup: &Lookup, holder: Holder, bound: u16, codes: &mut [u32]) -> u16
    requires { Resolvable (model_read lookup.now.hierarchy.model) × (holder.number < holders (model_read lookup.now.hierarchy.model) holder.kind) × ((model_read lookup.now.hierarchy.model).segments ≤ length codes.old) }
    ensures lowest { Lowest (λ g. unresolved_in (model_read lookup.now.hierarchy.model) holder.kind g holder.number) bound result }
    ensures path_step { PathStep (model_read lookup.now.hierarchy.model) holder.kind holder.number codes.old codes.new }
{
    let model = &lookup.hierarchy.model;
    let Run { first, count } = path_of(model, holder.kind, holder.number);
    if count == 0 {
        return bound;
    }
    let start = start_of(model, holder.kind, holder.number);
    let resolved = resolve_path(
        lookup,
        PathFrom {
            start,
            first,
            count,
        },
    );
    keep_run(&resolved.codes, first, count, codes);
    unresolved_at(first, count, resolved.taken, bound)
}

// The paths of the kind: the lowest segment below `bound` at which one does not resolve, or `bound`.
fn unresolved_of(lookup: &Lookup, kind: PathKind, bound: u16, codes: &mut [u32]) -> u16
    requires { Resolvable (model_read lookup.now.hierarchy.model) × ((model_read lookup.now.hierarchy.model).segments ≤ length codes.old) }
    ensures lowest { Lowest (λ g. unresolved_of (model_read lookup.now.hierarchy.model) kind g) bound result }
    ensures kind_step { KindStep (model_read lookup.now.hierarchy.model) kind (holders (model_read lookup.now.hierarchy.model) kind) codes.old codes.new }
    ensures past_kept { PastKept (model_read lookup.now.hierarchy.model) codes.old codes.new }
{
    let mut low = bound;
    for number in 0..holder_count(&lookup.hierarchy.model, kind) {
        low = unresolved_in(lookup, Holder { kind, number }, low, codes);
    }
    low
}

// The first segment that does not resolve. The codes of all segments are kept, and nothing past them changes.
pub fn first_14(lookup: &Lookup, codes: &mut [u32]) -> Option<u16>
    requires { Resolvable (model_read lookup.now.hierarchy.model) × ((model_read lookup.now.hierarchy.model).segments ≤ length codes.old) }
    ensures value { result ≡ found (first_from (λ g. segment14 (model_read lookup.now.hierarchy.model) g) 0 (model_read lookup.now.hierarchy.model).segments) }
    ensures coded { Coded (model_read lookup.now.hierarchy.model) codes.new }
    ensures codes_len_unchanged { (length codes.new ≡ length codes.old) × ((g : ℕ) → (model_read lookup.now.hierarchy.model).segments ≤ g → get_or codes.new g 0 ≡ get_or codes.old g 0) }
{
    let n = lookup.hierarchy.model.segment_count();
    let mut low = n;
    for kind in KINDS {
        low = unresolved_of(lookup, kind, low, codes);
    }
    (low < n).then_some(low)
}
