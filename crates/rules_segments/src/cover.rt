// Rule 13: every segment is in exactly one path.
ghost use Rattle.model_image.specs.Read.{model_read};
ghost use Rattle.std.specs.Prelude.{◌≡◌, ℕ, ◌+◌, ◌≤◌, ◌<◌, length, get_or};
ghost use Rattle.csdl.specs.Path.{kind_paths_with};
ghost use Rattle.csdl.specs.Paths.{segment13};
ghost use Rattle.csdl.specs.Search.{one_if, first_from, found};
ghost use Rattle.rules_segments.specs.Cover.{inside, cover_of};

use csdl::{PathKind, Run};
use model_image::model::Model;
use path_kinds::kinds::{KINDS, holder_count, path_of};

// One more for each number of the run.
fn cover_run(cover: &mut [u16], first: u16, count: u16)
    requires { (count < 16) × ((g : ℕ) → g < length cover.old → get_or cover.old g 0 ≤ 60000) }
    ensures { (length cover.new ≡ length cover.old) × ((g : ℕ) → g < length cover.old → get_or cover.new g 0 ≡ get_or cover.old g 0 + one_if (inside first count g)) }
{
    let from = first as usize;
    for g in from..cover.len().min(from + (count as usize)) {
        cover[g] += 1;
    }
}

// One more for each path of the kind, at each of its segments.
fn cover_kind(model: &Model, kind: PathKind, cover: &mut [u16])
    requires { (g : ℕ) → g < length cover.old → get_or cover.old g 0 ≤ 50000 }
    ensures { (length cover.new ≡ length cover.old) × ((g : ℕ) → g < length cover.old → (get_or cover.new g 0 ≡ get_or cover.old g 0 + kind_paths_with (model_read model.now) kind g) × (kind_paths_with (model_read model.now) kind g ≤ 512)) }
{
    for r in 0..holder_count(model, kind) {
        let Run { first, count } = path_of(model, kind, r);
        cover_run(cover, first, count);
    }
}

// For each of the first 1024 segments, how many paths it is in.
fn covers(model: &Model) -> [u16; 1024]
    ensures { (g : ℕ) → g < 1024 → get_or result g 0 ≡ cover_of (model_read model.now) g }
{
    let mut cover = [0u16; 1024];
    for kind in KINDS {
        cover_kind(model, kind, &mut cover);
    }
    cover
}

// The first segment that is in no path or in two.
pub fn first_13(model: &Model) -> Option<u16>
    ensures { result ≡ found (first_from (λ g. segment13 (model_read model.now) g) 0 (model_read model.now).segments) }
{
    let cover = covers(model);
    (0..model.segment_count()).find(|g| cover[*g as usize] != 1)
}
