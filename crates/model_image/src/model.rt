// A model as its image has it: the eight tables of records, and the name bytes. The tables of properties and children may be of any length; no
// other table of records is larger than its limit.
ghost use Rattle.model_image.specs.Limits.{FewSchemas, FewTypes, FewKeys, FewConstraints, FewBindings, FewSegments};

#[derive(Clone, Copy)]
pub struct Model<'a> {
    pub schemas: &'a [u8],
    pub types: &'a [u8],
    pub properties: &'a [u8],
    pub keys: &'a [u8],
    pub constraints: &'a [u8],
    pub children: &'a [u8],
    pub bindings: &'a [u8],
    pub segments: &'a [u8],
    pub names: &'a [u8],
    pub ghost few_schemas: { FewSchemas schemas.now },
    pub ghost few_types: { FewTypes types.now },
    pub ghost few_keys: { FewKeys keys.now },
    pub ghost few_constraints: { FewConstraints constraints.now },
    pub ghost few_bindings: { FewBindings bindings.now },
    pub ghost few_segments: { FewSegments segments.now },
}
