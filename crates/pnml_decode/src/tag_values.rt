ghost use Rattle.std.specs.Prelude.{◌≡◌, [], ◌∷◌, List};
ghost use Rattle.pnml_grammar.specs.declared.token.Attribute.{Attribute as TheAttribute};
ghost use Rattle.pnml_decode.specs.Views.{tag_values};

use net_values::Text;
use pnml_grammar::{Attribute, Attributes};
use std::alloc::Global;

/// The values of a tag that go into what is made of its element. One that isn't there is empty.
#[derive(Drop)]
pub(crate) struct TagValues {
    pub(crate) id: Text,
    pub(crate) source: Text,
    pub(crate) target: Text,
    pub(crate) reference: Text,
}

impl TagValues {
    /// Moves the values out of the attributes, which takes no memory.
    pub(crate) fn of(alloc: Global, attributes: Attributes) -> TagValues
        ensures { result ≡ tag_values attributes }
    {
        let mut left = attributes;
        let mut values = TagValues::none(alloc);
        'left: while let Some(attribute) = left.pop() {
            values.take(attribute);
        }
        values
    }

    fn none(alloc: Global) -> TagValues
        ensures { result ≡ tag_values [] }
    {
        TagValues {
            id: Text::new(alloc),
            source: Text::new(alloc),
            target: Text::new(alloc),
            reference: Text::new(alloc),
        }
    }

    /// Takes the value of an attribute that is in front of those taken before.
    #[tactic(auto, using(crate::proofs::TagValueLaws::other_name))]
    fn take(&mut self, attribute: Attribute)
        ensures { (later : List TheAttribute) →
            self.old ≡ tag_values later → self.new ≡ tag_values (attribute ∷ later) }
    {
        let Attribute { name, value } = attribute;
        let name = name.as_bytes();
        if name == b"id".as_slice() {
            self.id = value;
        } else if name == b"source".as_slice() {
            self.source = value;
        } else if name == b"target".as_slice() {
            self.target = value;
        } else if name == b"ref".as_slice() {
            self.reference = value;
        }
    }
}
