/// The most bytes that an input may have.
pub const MAX_INPUT_BYTES: usize = 67_108_864;

/// The most bytes of one token.
pub const MAX_TOKEN_BYTES: usize = 1_048_576;

/// The most bytes of an id, and of a `source`, `target` or `ref`.
pub const MAX_ID_BYTES: usize = 4_096;

/// The most bytes of the value of a name.
pub const MAX_NAME_BYTES: usize = 65_536;

/// The most elements that may be open at once.
pub const MAX_OPEN_ELEMENTS: usize = 128;

/// The most nets of a document.
pub const MAX_NETS: usize = 64;

/// The most pages of a document.
pub const MAX_PAGES: usize = 1_024;

/// The most places of a document, and of a net.
pub const MAX_PLACES: usize = 2_048;

/// The most transitions of a document, and of a net.
pub const MAX_TRANSITIONS: usize = 2_048;

/// The most reference nodes of a document, both kinds together.
pub const MAX_REFERENCES: usize = 4_096;

/// The most arcs of a document, and of a net.
pub const MAX_ARCS: usize = 65_536;

/// The most entries of a vector, members of a range of a place set, and rows or columns of a matrix.
pub const MAX_ENTRIES: usize = 4_096;

/// The most tokens of a place, and the largest weight, entry and sum that is told: 2^127 - 1.
pub const MAX_TOKENS: u128 = i128::MAX as u128;
