// Paths by kind: which records hold one, where it starts, which segments it has.
ghost use Rattle.model_image.specs.Read.{model_read};
ghost use Rattle.std.specs.Prelude.{◌≡◌, ◌≤◌, ◌<◌};
ghost use Rattle.csdl.specs.Path.{path_of, start_of, holders};

use csdl::{PathKind, Run};
use model_image::model::Model;

// All six kinds, in the order of the list `Path.kinds`, in which the rules go through them.
pub const KINDS: [PathKind; 6] = [
    PathKind::Partner,
    PathKind::Key,
    PathKind::Dependent,
    PathKind::Principal,
    PathKind::Binding,
    PathKind::Target,
];

// The number of records that may hold a path of the kind.
pub fn holder_count(model: &Model, kind: PathKind) -> u16
    ensures { (result ≡ holders (model_read model.now) kind) × (result ≤ 512) }
{
    match kind {
        PathKind::Partner => model.property_count(),
        PathKind::Key => model.key_count(),
        PathKind::Dependent | PathKind::Principal => model.constraint_count(),
        PathKind::Binding | PathKind::Target => model.binding_count(),
    }
}

// The path of the kind that record r holds.
pub fn path_of(model: &Model, kind: PathKind, r: u16) -> Run
    ensures { (result.first ≡ (path_of (model_read model.now) kind r).first) × (result.count ≡ (path_of (model_read model.now) kind r).count) × (result.first < 2048) × (result.count < 16) }
{
    match kind {
        PathKind::Partner => model.property_partner(r),
        PathKind::Key => model.key_path(r),
        PathKind::Dependent => model.constraint_dependent(r),
        PathKind::Principal => model.constraint_principal(r),
        PathKind::Binding => model.binding_path(r),
        PathKind::Target => model.binding_target_path(r),
    }
}

// The type reference at which the path of the kind that record r holds starts.
pub fn start_of(model: &Model, kind: PathKind, r: u16) -> u16
    ensures { (result ≡ start_of (model_read model.now) kind r) × (result < 256) }
{
    match kind {
        PathKind::Partner => model.property_type_ref(r),
        PathKind::Key => model.key_owner(r),
        PathKind::Dependent => model.property_owner(model.constraint_property(r)),
        PathKind::Principal => model.property_type_ref(model.constraint_property(r)),
        PathKind::Binding => model.child_type(model.binding_child(r)),
        PathKind::Target => model.child_type(model.binding_target(r)),
    }
}
