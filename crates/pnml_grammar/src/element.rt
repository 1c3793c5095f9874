ghost use Rattle.std.specs.Prelude.{◌≡◌};

use crate::names::{ATTRIBUTES, ELEMENTS, find_in};

/// The elements that a document may have outside skipped parts (ISO/IEC 15909-2), in the order of
/// [`ELEMENTS`](crate::ELEMENTS).
#[derive(Clone, Copy, Debug, PartialEq, Eq)]
pub enum ElementKind {
    Pnml,
    Net,
    Page,
    Place,
    Transition,
    Arc,
    ReferencePlace,
    ReferenceTransition,
    Name,
    InitialMarking,
    Inscription,
    Text,
    Graphics,
    Toolspecific,
}

const ELEMENT_KINDS: [ElementKind; 14] = [
    ElementKind::Pnml,
    ElementKind::Net,
    ElementKind::Page,
    ElementKind::Place,
    ElementKind::Transition,
    ElementKind::Arc,
    ElementKind::ReferencePlace,
    ElementKind::ReferenceTransition,
    ElementKind::Name,
    ElementKind::InitialMarking,
    ElementKind::Inscription,
    ElementKind::Text,
    ElementKind::Graphics,
    ElementKind::Toolspecific,
];

impl ElementKind {
    ghost use Rattle.pnml_grammar.specs.Elements.{element_named};

    /// The element with this name.
    #[tactic(auto, unfolding(crate::specs::Elements::element_named, crate::specs::Elements::element_names, crate::specs::Elements::element_kinds))]
    pub fn named(name: &[u8]) -> Option<ElementKind>
        ensures { result ≡ element_named name.now }
    {
        let index = find_in(&ELEMENTS.names, name)?;
        ELEMENT_KINDS.get(index).copied()
    }
}

/// The attributes that are read, in the order of [`ATTRIBUTES`](crate::ATTRIBUTES).
#[derive(Clone, Copy, Debug, PartialEq, Eq)]
pub enum AttributeKind {
    Id,
    NetType,
    Source,
    Target,
    Ref,
    Xmlns,
}

const ATTRIBUTE_KINDS: [AttributeKind; 6] = [
    AttributeKind::Id,
    AttributeKind::NetType,
    AttributeKind::Source,
    AttributeKind::Target,
    AttributeKind::Ref,
    AttributeKind::Xmlns,
];

impl AttributeKind {
    ghost use Rattle.pnml_grammar.specs.Elements.{attribute_named};

    /// The attribute with this name.
    #[tactic(auto, unfolding(crate::specs::Elements::attribute_named, crate::specs::Elements::attribute_names, crate::specs::Elements::attribute_kinds))]
    pub fn named(name: &[u8]) -> Option<AttributeKind>
        ensures { result ≡ attribute_named name.now }
    {
        let index = find_in(&ATTRIBUTES.names, name)?;
        ATTRIBUTE_KINDS.get(index).copied()
    }
}

/// In what a token occurs: around the root, in an element of a kind, or in a part that is skipped. The text
/// of a name, that of an initial marking and that of an inscription are three.
#[derive(Clone, Copy, Debug, PartialEq, Eq)]
pub enum Context {
    Document,
    Pnml,
    Net,
    Page,
    Place,
    Transition,
    Arc,
    ReferencePlace,
    ReferenceTransition,
    Name,
    InitialMarking,
    Inscription,
    NameText,
    MarkingText,
    WeightText,
    Skipped,
}
