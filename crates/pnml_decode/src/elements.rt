ghost use Rattle.std.specs.Prelude.{◌≡◌};
ghost use Rattle.pnml_grammar.specs.Elements.{is_skipped, context_of_kind, context_of_text, may_hold, needs};
ghost use Rattle.pnml_grammar.specs.Reasons.{is_pnml, is_number_text};

use pnml_grammar::{AttributeKind, Context, ElementKind};

/// Whether the row of one variant has another one: each row lists the variants that it is for, and
/// those that it has.
macro_rules! table {
    ($of:ident::$one:ident, $in:ident::$other:ident; $($($row:ident)|+ => $($entry:ident)|+;)+) => {
        match $one {
            $($($of::$row)|+ => matches!($other, $($in::$entry)|+),)+
            _ => false,
        }
    };
}

/// A part that is skipped, which may occur in every element but `text`.
pub(crate) fn is_skipped(element: ElementKind) -> bool
    ensures { result ≡ is_skipped element }
{
    matches!(element, ElementKind::Graphics | ElementKind::Toolspecific)
}

/// The root.
pub(crate) fn is_pnml(element: ElementKind) -> bool
    ensures { result ≡ is_pnml element }
{
    matches!(element, ElementKind::Pnml)
}

/// `text` in an initial marking or an inscription.
pub(crate) fn is_number_text(context: Context, element: ElementKind) -> bool
    ensures { result ≡ is_number_text context element }
{
    matches!(context, Context::InitialMarking | Context::Inscription)
        && matches!(element, ElementKind::Text)
}

/// What the children of an element are in.
pub(crate) fn context_of_kind(context: Context, element: ElementKind) -> Context
    ensures { result ≡ context_of_kind context element }
{
    match element {
        ElementKind::Pnml => Context::Pnml,
        ElementKind::Net => Context::Net,
        ElementKind::Page => Context::Page,
        ElementKind::Place => Context::Place,
        ElementKind::Transition => Context::Transition,
        ElementKind::Arc => Context::Arc,
        ElementKind::ReferencePlace => Context::ReferencePlace,
        ElementKind::ReferenceTransition => Context::ReferenceTransition,
        ElementKind::Name => Context::Name,
        ElementKind::InitialMarking => Context::InitialMarking,
        ElementKind::Inscription => Context::Inscription,
        ElementKind::Text => context_of_text(context),
        ElementKind::Graphics | ElementKind::Toolspecific => Context::Skipped,
    }
}

fn context_of_text(context: Context) -> Context
    ensures { result ≡ context_of_text context }
{
    match context {
        Context::Name => Context::NameText,
        Context::InitialMarking => Context::MarkingText,
        Context::Inscription => Context::WeightText,
        _ => Context::Skipped,
    }
}

/// Which elements may occur in which at all, by this table.
pub(crate) fn may_hold(context: Context, element: ElementKind) -> bool
    ensures { result ≡ may_hold context element }
{
    table!(Context::context, ElementKind::element;
        Document => Pnml;
        Pnml => Net | Graphics | Toolspecific;
        Net | Page => Name | Page | Place | Transition | Arc | ReferencePlace | ReferenceTransition
            | Graphics | Toolspecific;
        Place => Name | InitialMarking | Graphics | Toolspecific;
        Arc => Name | Inscription | Graphics | Toolspecific;
        Transition | ReferencePlace | ReferenceTransition => Name | Graphics | Toolspecific;
        Name | InitialMarking | Inscription => Text | Graphics | Toolspecific;
        Skipped => Pnml | Net | Page | Place | Transition | Arc | ReferencePlace
            | ReferenceTransition | Name | InitialMarking | Inscription | Text | Graphics
            | Toolspecific;
    )
}

/// The attributes that an element needs, by this table.
pub(crate) fn needs(element: ElementKind, attribute: AttributeKind) -> bool
    ensures { result ≡ needs element attribute }
{
    table!(ElementKind::element, AttributeKind::attribute;
        Pnml => Xmlns;
        Net => Id | NetType;
        Page | Place | Transition => Id;
        Arc => Id | Source | Target;
        ReferencePlace | ReferenceTransition => Id | Ref;
    )
}
