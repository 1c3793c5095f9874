ghost use Rattle.std.specs.Prelude.{◌≡◌, ◌≢◌, [], ◌∷◌, ◌++◌, MatchBool, OnOk, codes, decimal};
ghost use Rattle.pnml_grammar.specs.Canon.{escaped, label, name_text};
ghost use Rattle.pnml_write.specs.Elements.{after_attributes, label_text, quoted};

use crate::escapes::push_value;
use net_values::{NoMemory, Text};

/// The initial marking that isn't written.
const USUAL_MARKING: u64 = 0;

/// The weight that isn't written.
const USUAL_WEIGHT: u64 = 1;

/// Appends an attribute: what opens it, up to its first quote, its value and the other quote.
pub(crate) fn push_attribute(text: &mut Text, opening: &str, value: &Text) -> Result<(), NoMemory>
    ensures { OnOk result
        (text.new ≡ text.old ++ quoted opening.now value.now) }
{
    text.push(opening)?;
    push_value(text, value.as_str())?;
    text.push("\"")
}

/// Appends the label with a name.
pub(crate) fn push_name(text: &mut Text, name: &Text) -> Result<(), NoMemory>
    ensures { OnOk result (text.new ≡ text.old ++ label (codes "name") (escaped name.now)) }
{
    if name.as_str().is_empty() {
        return text.push("<name><text/></name>");
    }
    text.push("<name><text>")?;
    push_value(text, name.as_str())?;
    text.push("</text></name>")
}

/// Appends the label with a name, where there is one.
pub(crate) fn push_name_if_any(text: &mut Text, name: &Option<Text>) -> Result<(), NoMemory>
    ensures { OnOk result (text.new ≡ text.old ++ name_text name.now) }
{
    match name {
        None => Ok(()),
        Some(name) => push_name(text, name),
    }
}

/// A label with a number: a place's initial marking, or an arc's weight.
#[derive(Clone, Copy)]
pub(crate) enum NumberLabel {
    Marking(u64),
    Weight(u64),
}

impl NumberLabel {
    /// Whether the number is that of an absent label, so that none is written.
    pub(crate) fn is_usual(self) -> bool
        ensures { MatchBool result (label_text self ≡ []) (label_text self ≢ []) }
    {
        match self {
            NumberLabel::Marking(tokens) => tokens == USUAL_MARKING,
            NumberLabel::Weight(weight) => weight == USUAL_WEIGHT,
        }
    }
}

/// Appends a label with a number, where the number isn't the usual one.
pub(crate) fn push_label(text: &mut Text, label: NumberLabel) -> Result<(), NoMemory>
    ensures { OnOk result (text.new ≡ text.old ++ label_text label) }
{
    if label.is_usual() {
        return Ok(());
    }
    match label {
        NumberLabel::Marking(tokens) => push_number_label(
            text,
            "<initialMarking><text>",
            tokens,
            "</text></initialMarking>",
        ),
        NumberLabel::Weight(weight) => {
            push_number_label(text, "<inscription><text>", weight, "</text></inscription>")
        }
    }
}

/// Appends a label with a number between what it begins and what it ends with.
fn push_number_label(
    text: &mut Text,
    opening: &str,
    number: u64,
    closing: &str,
) -> Result<(), NoMemory>
    ensures { OnOk result (text.new ≡ text.old ++ (opening.now ++ (decimal number ++ closing.now))) }
{
    text.push(opening)?;
    text.push_number(number as u128)?;
    text.push(closing)
}

/// Appends what follows the attributes of an element whose only child may be a name.
pub(crate) fn push_named_rest(
    text: &mut Text,
    name: &Option<Text>,
    end: &str,
) -> Result<(), NoMemory>
    ensures { OnOk result
        (text.new ≡ text.old ++ after_attributes (name_text name.now) end.now) }
{
    if name.is_none() {
        return text.push("/>");
    }
    text.push(">")?;
    push_name_if_any(text, name)?;
    text.push(end)
}
