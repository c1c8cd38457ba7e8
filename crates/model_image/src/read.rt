// The model in an image that keeps rule 1: each table as a part of the image.
ghost use Rattle.std.specs.Prelude.{◌≡◌};
ghost use Rattle.csdl.specs.Image.{model_in};
ghost use Rattle.model_image.specs.Read.{TablesOf, model_read};
ghost use Rattle.model_image.specs.Limits.{FewProperties, FewChildren};
ghost use Rattle.model_image.specs.Sized.{Sized};

use crate::image::{counts_of, starts_of};
use crate::model::Model;
use packed::part_of;

impl<'a> Model<'a> {
    pub fn read(image: &'a [u8]) -> Self
        requires { Sized image.now }
        ensures value { model_read result ≡ model_in image.now }
        ensures tables { TablesOf image.now result }
        ensures few { FewProperties result.properties.now × FewChildren result.children.now }
    {
        let at = starts_of(counts_of(image));
        Model {
            schemas: part_of(image, 20, at.types - 20),
            types: part_of(image, at.types, at.properties - at.types),
            properties: part_of(image, at.properties, at.keys - at.properties),
            keys: part_of(image, at.keys, at.constraints - at.keys),
            constraints: part_of(image, at.constraints, at.children - at.constraints),
            children: part_of(image, at.children, at.bindings - at.children),
            bindings: part_of(image, at.bindings, at.segments - at.bindings),
            segments: part_of(image, at.segments, at.names - at.segments),
            names: part_of(image, at.names, at.end - at.names),
        }
    }
}
