// The names of records as parts of the name bytes.
ghost use Rattle.std.specs.Prelude.{◌≡◌};
ghost use Rattle.csdl.specs.Model as models;
ghost use Rattle.model_image.specs.Read.{model_read};

use crate::fields::text_of;
use crate::model::Model;

impl<'a> Model<'a> {
    pub fn namespace_text(&self, s: u16) -> &'a [u8]
        ensures { result.now ≡ models.namespace_text (model_read self.now) s }
    {
        text_of(self.names, self.schema_namespace(s))
    }

    pub fn type_text(&self, t: u16) -> &'a [u8]
        ensures { result.now ≡ models.type_text (model_read self.now) t }
    {
        text_of(self.names, self.type_name(t))
    }

    pub fn property_text(&self, p: u16) -> &'a [u8]
        ensures { result.now ≡ models.property_text (model_read self.now) p }
    {
        text_of(self.names, self.property_name(p))
    }

    pub fn key_alias_text(&self, k: u16) -> &'a [u8]
        ensures { result.now ≡ models.key_alias_text (model_read self.now) k }
    {
        text_of(self.names, self.key_alias(k))
    }

    pub fn child_text(&self, h: u16) -> &'a [u8]
        ensures { result.now ≡ models.child_text (model_read self.now) h }
    {
        text_of(self.names, self.child_name(h))
    }

    pub fn segment_text(&self, g: u16) -> &'a [u8]
        ensures { result.now ≡ models.segment_text (model_read self.now) g }
    {
        text_of(self.names, self.segment_name(g))
    }
}
