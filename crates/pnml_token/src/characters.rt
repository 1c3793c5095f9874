//! Characters that are told to be there without memory: their value is not kept, and a `<` comes after them.

ghost use Rattle.std.specs.Prelude.{◌≡◌, ◌<◌, ◌≤◌, [], true, false, is_some, IfSome, IsTrue, length};
ghost use Rattle.pnml_grammar.specs.Reading.{is_spelling};
ghost use Rattle.pnml_grammar.specs.Resolving.{value_of};
ghost use Rattle.pnml_token.specs.Streams.{PassesCharacters};

use crate::legality::is_spelling;
use crate::runs::{ByteClass, has_all, has_section_end, split_markup};
use crate::values::has_value;

/// How many bytes spell the characters at the front, where they are told to be there whatever follows the bytes.
pub(crate) fn characters_length(bytes: &[u8]) -> Option<usize>
    ensures characters { IfSome result (λ n. PassesCharacters [] bytes.now n) }
    ensures some { IfSome result (λ n. 0 < n) }
    ensures within { IfSome result (λ n. n ≤ length bytes.now) }
{
    let (run, rest) = split_markup(bytes);
    if run.is_empty() || rest.is_empty() || has_section_end(run) {
        return None;
    }
    if !is_spelling(run) {
        return None;
    }
    if has_text_value(run) {
        Some(run.len())
    } else {
        None
    }
}

/// Whether text between markup is told to have a value. In most there is nothing to be resolved.
#[tactic(auto, using(crate::proofs::PassedCharacters::text_is_valued))]
fn has_text_value(run: &[u8]) -> bool
    requires { is_spelling run.now ≡ true }
    ensures { IsTrue result → is_some (value_of false run.now) ≡ true }
{
    if has_all(ByteClass::Plain(false), run) {
        return true;
    }
    has_value(false, run)
}
