ghost use Rattle.std.specs.Prelude.{◌≡◌, ◌==◌, ◌&&◌, not, nat_lt, option_map};
ghost use Rattle.std.specs.List.{list_all, list_any};
ghost use Rattle.pnml_grammar.specs.Elements.{value_of, is_id, fits, fits_as_if_any, has_needed, has_if_needed, has_attributes, has_namespace, has_type};

use crate::elements::{is_skipped, needs};
use net_values::{MAX_ID_BYTES, Text};
use pnml_grammar::{Attribute, AttributeKind, ElementKind};

const NAMESPACE: &[u8] = b"http://www.pnml.org/version-2009/grammar/pnml";

const NET_TYPE: &[u8] = b"http://www.pnml.org/version-2009/grammar/ptnet";

/// The value of the attribute with this name.
pub(crate) fn value_of<'a>(name: &[u8], attributes: &'a [Attribute]) -> Option<&'a Text>
    ensures { option_map (λ value. value.now) result ≡ value_of name.now attributes.now }
{
    for attribute in attributes {
        if attribute.name.as_bytes() == name {
            return Some(&attribute.value);
        }
    }
    None
}

/// The root has the namespace of PNML (ISO/IEC 15909-2), and no element has another.
#[tactic(auto, unfolding(pnml_grammar::specs::Elements::has_namespace))]
pub(crate) fn has_namespace(element: ElementKind, attributes: &[Attribute]) -> bool
    ensures { result ≡ has_namespace element attributes.now }
{
    match (element, value_of(b"xmlns", attributes)) {
        (ElementKind::Graphics | ElementKind::Toolspecific, _) => true,
        (ElementKind::Pnml, None) => false,
        (_, None) => true,
        (_, Some(value)) => value.as_bytes() == NAMESPACE,
    }
}

/// A net has no type but that of place/transition nets (ISO/IEC 15909-2).
#[tactic(auto, unfolding(pnml_grammar::specs::Elements::has_type))]
pub(crate) fn has_type(element: ElementKind, attributes: &[Attribute]) -> bool
    ensures { result ≡ has_type element attributes.now }
{
    match element {
        ElementKind::Net => match value_of(b"type", attributes) {
            Some(value) => value.as_bytes() == NET_TYPE,
            None => true,
        },
        _ => true,
    }
}

/// The attributes are those of the element; of a skipped part's tag any are taken.
#[tactic(auto, unfolding(pnml_grammar::specs::Elements::has_attributes))]
pub(crate) fn has_attributes(element: ElementKind, attributes: &[Attribute]) -> bool
    ensures { result ≡ has_attributes element attributes.now }
{
    is_skipped(element) || (all_fit(element, attributes) && has_needed(element, attributes))
}

fn all_fit(element: ElementKind, attributes: &[Attribute]) -> bool
    ensures { result ≡ list_all (fits element) attributes.now }
{
    attributes.iter().all(|attribute| fits(element, attribute))
}

/// An attribute that the element may have; one with a colon in its name is ignored.
#[tactic(auto, unfolding(pnml_grammar::specs::Elements::fits))]
fn fits(element: ElementKind, attribute: &Attribute) -> bool
    ensures { result ≡ fits element attribute.now }
{
    let name = attribute.name.as_bytes();
    has_colon(name)
        || fits_as_if_any(
            element,
            AttributeKind::named(name),
            attribute.value.as_bytes(),
        )
}

fn has_colon(name: &[u8]) -> bool
    ensures { result ≡ list_any (λ byte. byte == 58) name.now }
{
    name.iter().any(|byte| *byte == b':')
}

fn fits_as_if_any(element: ElementKind, attribute: Option<AttributeKind>, value: &[u8]) -> bool
    ensures { result ≡ fits_as_if_any element attribute value.now }
{
    match attribute {
        None => false,
        Some(AttributeKind::Xmlns) => true,
        Some(AttributeKind::NetType) => needs(element, AttributeKind::NetType),
        Some(attribute) => needs(element, attribute) && is_id(value),
    }
}

/// A value of `id`, `source`, `target` or `ref`: 1 to `MAX_ID_BYTES` bytes, none of them a control character
/// of ASCII or a space.
#[tactic(auto, unfolding(pnml_grammar::specs::Elements::is_id))]
fn is_id(value: &[u8]) -> bool
    ensures { result ≡ is_id value.now }
{
    1 <= value.len() && value.len() <= MAX_ID_BYTES && are_printed(value)
}

/// Without a way out in the loop, so that many bytes are compared at once.
fn are_printed(value: &[u8]) -> bool
    ensures { result ≡ list_all (λ byte. nat_lt 32 byte && not (byte == 127)) value.now }
{
    let mut all = true;
    for byte in value {
        all = all & (32 < *byte && *byte != 127);
    }
    all
}

#[tactic(auto, unfolding(pnml_grammar::specs::Elements::has_needed))]
fn has_needed(element: ElementKind, attributes: &[Attribute]) -> bool
    ensures { result ≡ has_needed element attributes.now }
{
    has_if_needed(element, attributes, AttributeKind::Id, b"id")
        && has_if_needed(element, attributes, AttributeKind::NetType, b"type")
        && has_if_needed(element, attributes, AttributeKind::Source, b"source")
        && has_if_needed(element, attributes, AttributeKind::Target, b"target")
        && has_if_needed(element, attributes, AttributeKind::Ref, b"ref")
}

/// An attribute that the element needs is there.
fn has_if_needed(
    element: ElementKind,
    attributes: &[Attribute],
    attribute: AttributeKind,
    name: &[u8],
) -> bool
    ensures { result ≡ has_if_needed element attributes.now attribute name.now }
{
    !needs(element, attribute) || value_of(name, attributes).is_some()
}
