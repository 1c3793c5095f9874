ghost use Rattle.std.specs.Prelude.{◌≡◌};
ghost use Rattle.certificates.specs.Lines.{keyword_in, word_of};

use crate::line::Keyword;

/// All first words of lines, those first that a long certificate has most.
const KEYWORDS: [Keyword; 10] = [
    Keyword::SplitWord,
    Keyword::EmptyWord,
    Keyword::TrapWord,
    Keyword::FlowWord,
    Keyword::BoundWord,
    Keyword::SiphonWord,
    Keyword::BoundsWord,
    Keyword::BadSiphonWord,
    Keyword::CommonerWord,
    Keyword::EndWord,
];

/// The keyword that the bytes are.
#[tactic(auto, unfolding(crate::specs::Lines::keyword_in))]
pub(crate) fn first_word(bytes: &[u8]) -> Option<Keyword>
    ensures { result ≡ keyword_in bytes.now }
{
    KEYWORDS
        .iter()
        .copied()
        .find(|keyword| letters(*keyword) == bytes)
}

/// How a keyword is spelled.
fn letters(keyword: Keyword) -> &'static [u8]
    ensures { result.now ≡ word_of keyword }
{
    match keyword {
        Keyword::BoundsWord => b"bounds",
        Keyword::BadSiphonWord => b"bad-siphon",
        Keyword::CommonerWord => b"commoner",
        Keyword::FlowWord => b"flow",
        Keyword::BoundWord => b"bound",
        Keyword::SiphonWord => b"siphon",
        Keyword::SplitWord => b"split",
        Keyword::EmptyWord => b"empty",
        Keyword::TrapWord => b"trap",
        Keyword::EndWord => b"end",
    }
}
