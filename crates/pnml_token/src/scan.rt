ghost use Rattle.std.specs.Prelude.{◌≡◌, ◌≤◌, ◌==◌, if◌then◌else◌};
ghost use Rattle.pnml_token.specs.Scans.{in_tag as the_step_in_a_tag, next as the_next, awaited, has_ended, own_bytes};

/// What the bytes of a token so far tell of its end. A token has ended where no other byte can be its last; bytes
/// that spell no token may end anywhere.
#[derive(Clone, Copy, Debug)]
pub(crate) enum Scan {
    /// No byte has come.
    Nothing,
    /// Characters, which go on to the next `<`.
    Characters,
    /// `<`.
    Markup,
    /// `<!`.
    Exclamation,
    /// `<!-`.
    ExclamationDash,
    /// A comment, after no `-`.
    Comment,
    /// A comment, after one `-`.
    CommentDash,
    /// A comment, after `--`.
    CommentDashes,
    /// A CDATA section, after no `]`.
    Section,
    /// A CDATA section, after one `]`.
    SectionBracket,
    /// A CDATA section, after `]]`.
    SectionBrackets,
    /// An instruction or the declaration, after no `?`.
    Instruction,
    /// An instruction or the declaration, after `?`.
    InstructionMark,
    /// A tag, outside its values.
    Tag,
    /// A tag, in a value between these quotes.
    Value(u8),
    /// The last byte of a token.
    Ended,
    /// The `<` after characters.
    EndedBefore,
}

impl Scan {
    /// What is told after one more byte.
    pub(crate) fn next(self, byte: u8) -> Scan
        ensures { result ≡ the_next self byte }
    {
        match self {
            Scan::Nothing => on(byte, b'<', Scan::Markup, Scan::Characters),
            Scan::Characters => on(byte, b'<', Scan::EndedBefore, Scan::Characters),
            Scan::Markup => on(
                byte,
                b'!',
                Scan::Exclamation,
                on(byte, b'?', Scan::Instruction, in_tag(byte)),
            ),
            Scan::Exclamation => on(
                byte,
                b'-',
                Scan::ExclamationDash,
                on(byte, b'[', Scan::Section, in_tag(byte)),
            ),
            Scan::ExclamationDash => on(byte, b'-', Scan::Comment, Scan::Ended),
            Scan::Comment => on(byte, b'-', Scan::CommentDash, Scan::Comment),
            Scan::CommentDash => on(byte, b'-', Scan::CommentDashes, Scan::Comment),
            Scan::Section => on(byte, b']', Scan::SectionBracket, Scan::Section),
            Scan::SectionBracket => on(byte, b']', Scan::SectionBrackets, Scan::Section),
            Scan::SectionBrackets => {
                on(byte, b'>', Scan::Ended, on(byte, b']', self, Scan::Section))
            }
            Scan::Instruction => on(byte, b'?', Scan::InstructionMark, Scan::Instruction),
            Scan::InstructionMark => {
                on(
                    byte,
                    b'>',
                    Scan::Ended,
                    on(byte, b'?', self, Scan::Instruction),
                )
            }
            Scan::Tag => in_tag(byte),
            Scan::Value(quote) => on(byte, quote, Scan::Tag, self),
            Scan::CommentDashes | Scan::Ended => Scan::Ended,
            Scan::EndedBefore => Scan::EndedBefore,
        }
    }

    /// The byte that changes what is told, where any other leaves it.
    pub(crate) fn awaited(self) -> Option<u8>
        ensures { result ≡ awaited self }
    {
        match self {
            Scan::Characters => Some(b'<'),
            Scan::Comment => Some(b'-'),
            Scan::Section => Some(b']'),
            Scan::Instruction => Some(b'?'),
            Scan::Value(quote) => Some(quote),
            _ => None,
        }
    }

    /// Whether no more bytes are needed.
    pub(crate) fn has_ended(self) -> bool
        ensures { result ≡ has_ended self }
    {
        matches!(self, Scan::Ended | Scan::EndedBefore)
    }

    /// How many of the last byte and no other belong to the token.
    pub(crate) fn own_bytes(self) -> usize
        ensures value { result ≡ own_bytes self }
        ensures one { result ≤ 1 }
    {
        match self {
            Scan::EndedBefore => 0,
            _ => 1,
        }
    }
}

/// In a tag, outside its values.
fn in_tag(byte: u8) -> Scan
    ensures { result ≡ the_step_in_a_tag byte }
{
    if byte == b'"' || byte == b'\'' {
        Scan::Value(byte)
    } else {
        on(byte, b'>', Scan::Ended, Scan::Tag)
    }
}

/// The one where the byte is this one, and the other where it isn't.
fn on(byte: u8, wanted: u8, there: Scan, other: Scan) -> Scan
    ensures { result ≡ (if byte == wanted then there else other) }
{
    if byte == wanted { there } else { other }
}
