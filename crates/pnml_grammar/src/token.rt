use net_values::{List, Text};

/// What text is made of: markup, and the characters between (XML 1.0, section 2.4). Texts are values:
/// line ends and references are resolved.
#[derive(Drop)]
pub enum Token {
    Declaration,
    Comment,
    Instruction,
    Cdata(Text),
    Start(Text, Attributes),
    Empty(Text, Attributes),
    End(Text),
    Characters(Text),
}

/// The attributes of a tag, in the order in which they occur.
pub type Attributes = List<Attribute>;

/// An attribute of a tag (XML 1.0, production 41).
#[derive(Drop)]
pub struct Attribute {
    pub name: Text,
    pub value: Text,
}
