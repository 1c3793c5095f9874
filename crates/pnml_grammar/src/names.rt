ghost use Rattle.std.specs.Prelude.{◌≡◌, bytes_eq, map, position};
ghost use Rattle.pnml_grammar.specs.Elements.{element_names as the_elements, attribute_names as the_attributes};

/// A table of names.
pub struct Names<const N: usize> {
    pub names: [&'static [u8]; N],
}

/// The names of the elements that are read (ISO/IEC 15909-2).
pub const ELEMENTS: Names<14> = Names {
    names: [
        b"pnml",
        b"net",
        b"page",
        b"place",
        b"transition",
        b"arc",
        b"referencePlace",
        b"referenceTransition",
        b"name",
        b"initialMarking",
        b"inscription",
        b"text",
        b"graphics",
        b"toolspecific",
    ],
};

/// The names of the attributes that are read (ISO/IEC 15909-2).
pub const ATTRIBUTES: Names<6> = Names {
    names: [b"id", b"type", b"source", b"target", b"ref", b"xmlns"],
};

/// The names of the elements in table order.
#[tactic(auto, unfolding(crate::specs::Elements::element_names))]
pub fn element_names() -> [&'static [u8]; 14]
    ensures { map (λ name. name.now) result ≡ the_elements }
{
    let Names { names } = ELEMENTS;
    names
}

/// The names of the attributes in table order.
#[tactic(auto, unfolding(crate::specs::Elements::attribute_names))]
pub fn attribute_names() -> [&'static [u8]; 6]
    ensures { map (λ name. name.now) result ≡ the_attributes }
{
    let Names { names } = ATTRIBUTES;
    names
}

/// The lowest index of the name in the table, `None` exactly where it isn't there.
pub fn find<const N: usize>(table: &Names<N>, name: &[u8]) -> Option<usize>
    ensures { result ≡ position (λ other. bytes_eq other.now name.now) table.now.names }
{
    find_in(&table.names, name)
}

/// The same of the names only.
pub fn find_in(names: &[&'static [u8]], name: &[u8]) -> Option<usize>
    ensures { result ≡ position (λ other. bytes_eq other.now name.now) names.now }
{
    names.iter().position(|other| *other == name)
}
