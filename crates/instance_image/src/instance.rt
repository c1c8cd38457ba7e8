// An instance as its image has it: its nodes, slots and items. The table of slots may be of any length; the others are not larger than their
// limits.
ghost use Rattle.instance_image.specs.Limits.{FewNodes, FewItems};

#[derive(Clone, Copy)]
pub struct Instance<'a> {
    pub nodes: &'a [u8],
    pub slots: &'a [u8],
    pub items: &'a [u8],
    pub ghost few_nodes: { FewNodes nodes.now },
    pub ghost few_items: { FewItems items.now },
}
