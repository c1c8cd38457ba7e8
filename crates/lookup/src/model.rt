// What the rules of names read: a model with the ancestors of its types, and the index of its names, with room for 512 properties.
ghost use Rattle.lookup.specs.Index.{Indexed};
ghost use Rattle.model_image.specs.Limits.{FewProperties};

use type_hierarchy::hierarchy::Hierarchy;

#[derive(Clone, Copy)]
pub struct Lookup<'a> {
    pub hierarchy: Hierarchy<'a>,
    pub index: [u16; 1793],
    pub ghost few_properties: { FewProperties hierarchy.model.properties.now },
    pub ghost indexed: { Indexed hierarchy.model.properties.now hierarchy.model.names.now index },
}
