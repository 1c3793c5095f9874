ghost use Rattle.std.specs.Prelude.{◌≡◌, [], ◌∷◌, ◌++◌, OnOk, codes};
ghost use Rattle.net_values.specs.declared.document.Item.TheVariants.{Page, Place, Transition, Arc};
ghost use Rattle.pnml_grammar.specs.Canon.{escaped, element, id_attribute, name_text, item_text};
ghost use Rattle.pnml_write.specs.Elements.{after_attributes, label_text, reference_text};

use crate::elements::{NumberLabel, push_attribute, push_label, push_name_if_any, push_named_rest};
use net_values::{ArcNode, NoMemory, PageNode, PlaceNode, RefNode, Text, TransitionNode};

/// Appends a place.
pub(crate) fn push_place(text: &mut Text, place: &PlaceNode) -> Result<(), NoMemory>
    ensures { OnOk result (text.new ≡ text.old ++ item_text (Place place.now)) }
{
    push_attribute(text, "<place id=\"", &place.id)?;
    push_labelled_rest(
        text,
        &place.name,
        NumberLabel::Marking(place.initial),
        "</place>",
    )
}

/// Appends what follows the attributes of an element whose children may be a name and a label with
/// a number.
fn push_labelled_rest(
    text: &mut Text,
    name: &Option<Text>,
    label: NumberLabel,
    end: &str,
) -> Result<(), NoMemory>
    ensures { let labels = name_text name.now ++ label_text label in
        OnOk result (text.new ≡ text.old ++ after_attributes labels end.now) }
{
    if label.is_usual() {
        return push_named_rest(text, name, end);
    }
    text.push(">")?;
    push_name_if_any(text, name)?;
    push_label(text, label)?;
    text.push(end)
}

/// Appends a transition.
pub(crate) fn push_transition(text: &mut Text, transition: &TransitionNode) -> Result<(), NoMemory>
    ensures { OnOk result (text.new ≡ text.old ++ item_text (Transition transition.now)) }
{
    push_attribute(text, "<transition id=\"", &transition.id)?;
    push_named_rest(text, &transition.name, "</transition>")
}

/// Appends a reference node: what opens it, up to the first quote of its identifier, and what follows.
pub(crate) fn push_reference(
    text: &mut Text,
    opening: &str,
    node: &RefNode,
    end: &str,
) -> Result<(), NoMemory>
    ensures { OnOk result (text.new ≡ text.old ++ reference_text opening.now node.now end.now) }
{
    push_attribute(text, opening, &node.id)?;
    push_attribute(text, " ref=\"", &node.target)?;
    push_named_rest(text, &node.name, end)
}

/// Appends an arc.
pub(crate) fn push_arc(text: &mut Text, arc: &ArcNode) -> Result<(), NoMemory>
    ensures { OnOk result (text.new ≡ text.old ++ item_text (Arc arc.now)) }
{
    push_attribute(text, "<arc id=\"", &arc.id)?;
    push_attribute(text, " source=\"", &arc.source)?;
    push_attribute(text, " target=\"", &arc.target)?;
    push_labelled_rest(text, &arc.name, NumberLabel::Weight(arc.weight), "</arc>")
}

/// Appends the start of a page that has items.
pub(crate) fn push_page_start(text: &mut Text, page: &PageNode) -> Result<(), NoMemory>
    ensures { OnOk result (text.new ≡ text.old ++ item_text (Page page.now)) }
{
    push_attribute(text, "<page id=\"", &page.id)?;
    text.push(">")?;
    push_name_if_any(text, &page.name)
}

/// Appends a page without items.
pub(crate) fn push_empty_page(text: &mut Text, page: &PageNode) -> Result<(), NoMemory>
    ensures { let name = name_text page.now.name in
        OnOk result (text.new ≡ text.old ++ element (codes "page") (id_attribute page.now.id) name) }
{
    push_attribute(text, "<page id=\"", &page.id)?;
    push_named_rest(text, &page.name, "</page>")
}
