ghost use Rattle.std.specs.Prelude.{◌≡◌, ◌↔◌, IsTrue, chars};
ghost use Rattle.std.specs.List.{list_all};
ghost use Rattle.net_values.specs.Characters.{IsLegalCharacter, IsLegalText};
ghost use Rattle.pnml_grammar.specs.Resolving.{is_legal_character as passes};

/// Whether each character of the text is legal.
#[tactic(auto, using(crate::proofs::TextLaws::legal_text_decided))]
pub fn is_legal_text(text: &str) -> bool
    ensures { IsTrue result ↔ IsLegalText text.now }
{
    are_legal(text)
}

/// Whether the character is legal: tab, line feed, carriage return, or from the space on, without the
/// surrogates and the last two of the basic plane (XML 1.0, production 2, Char).
#[tactic(auto, using(crate::proofs::ReferenceLaws::legal_decided))]
pub fn is_legal_character(character: char) -> bool
    ensures { IsTrue result ↔ IsLegalCharacter character }
{
    is_legal(character)
}

pub(crate) fn are_legal(text: &str) -> bool
    ensures { result ≡ list_all passes (chars text.now) }
{
    text.chars().all(|character| is_legal(character))
}

pub(crate) fn is_legal(character: char) -> bool
    ensures { result ≡ passes character }
{
    matches!(character, '\t' | '\n' | '\r' | ' '..='\u{D7FF}' | '\u{E000}'..='\u{FFFD}' | '\u{10000}'..='\u{10FFFF}')
}
