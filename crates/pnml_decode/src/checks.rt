ghost use Rattle.std.specs.Prelude.{◌≡◌, [], ◌∷◌, Some, None, OnOk, IfOk, IfErr, IsTrue};
ghost use Rattle.pnml_grammar.specs.Counts.{◌plus◌, tag_counts};
ghost use Rattle.pnml_grammar.specs.Elements.{element_named, context_in};
ghost use Rattle.pnml_grammar.specs.Reasons.{count_rows, first_row, open_rows, tag_rows, end_rows, is_other_end, is_full};
ghost use Rattle.pnml_decode.specs.Taking.{Checks, Skips, place_rows};
ghost use Rattle.pnml_decode.specs.Views.{view, counted};

use crate::attributes::{has_attributes, has_namespace, has_type};
use crate::content::has_some;
use crate::counts::Counts;
use crate::elements::{context_of_kind, is_number_text, is_pnml, may_hold};
use crate::reader::Reader;
use net_values::{MAX_OPEN_ELEMENTS, Text};
use pnml_grammar::{Attribute, Context, Counted, ElementKind, Reason};

impl Reader {
    /// What the children of a start tag, or an empty one, are in, and the counts with the tag; or the first
    /// reason that applies to it.
    pub(crate) fn admit(
        &self,
        empty: bool,
        name: &[u8],
        attributes: &[Attribute],
    ) -> Result<(Context, Counts), Reason>
        ensures free { OnOk result (first_row (open_rows (view self.now) empty name.now attributes.now) ≡ None) }
        ensures context { IfOk result (λ x. x.0 ≡ context_in self.now.top.context (element_named name.now)) }
        ensures counts { IfOk result (λ x.
            counted x.1 ≡ counted self.now.counts plus tag_counts self.now.top.context name.now) }
        ensures refused { IfErr result (λ reason.
            first_row (open_rows (view self.now) empty name.now attributes.now) ≡ Some reason) }
    {
        match self.top.context {
            Context::Skipped => {
                self.check_depth()?;
                Ok((Context::Skipped, self.counts))
            }
            context => {
                let Some(element) = ElementKind::named(name) else {
                    return Err(Reason::UnknownElement);
                };
                self.check_tag(empty, element, attributes)?;
                let counts = self.counts.with(element)?;
                Ok((context_of_kind(context, element), counts))
            }
        }
    }

    /// Of a tag outside skipped parts, all but whether one more element of its kind may occur.
    fn check_tag(
        &self,
        empty: bool,
        element: ElementKind,
        attributes: &[Attribute],
    ) -> Result<(), Reason>
        ensures { Checks result
            (tag_rows (view self.now) empty attributes.now (Some element))
            (count_rows (counted self.now.counts) element) }
    {
        if !has_namespace(element, attributes) {
            Err(Reason::OtherNamespace)
        } else if !has_type(element, attributes) {
            Err(Reason::OtherType)
        } else if !has_attributes(element, attributes) {
            Err(Reason::BadAttribute)
        } else {
            self.check_place(empty, element)
        }
    }

    /// Of a tag outside skipped parts whose attributes are right.
    fn check_place(&self, empty: bool, element: ElementKind) -> Result<(), Reason>
        ensures { Checks result
            (place_rows (view self.now) empty element)
            (count_rows (counted self.now.counts) element) }
    {
        let context = self.top.context;
        if empty && is_number_text(context, element) {
            return Err(Reason::BadNumber);
        }
        if !may_hold(context, element)
            || self.top.content.has(context, element)
            || (empty && is_pnml(element))
        {
            return Err(Reason::Misplaced);
        }
        if self.is_full() {
            Err(Reason::TooDeep)
        } else if self.top.content.has_all_nets(element) {
            Err(Reason::TooMany(Counted::Nets))
        } else {
            Ok(())
        }
    }

    fn check_depth(&self) -> Result<(), Reason>
        ensures { Checks result ((is_full (view self.now), Reason.TooDeep) ∷ []) [] }
    {
        if self.is_full() {
            Err(Reason::TooDeep)
        } else {
            Ok(())
        }
    }

    /// Whether an empty tag is taken and changes nothing.
    pub(crate) fn skips(&self) -> bool
        ensures { IsTrue result → Skips (view self.now) }
    {
        match self.top.context {
            Context::Skipped => !self.is_full(),
            _ => false,
        }
    }

    /// As many elements are open as may be.
    #[tactic(auto, unfolding(pnml_grammar::specs::Reasons::is_full))]
    fn is_full(&self) -> bool
        ensures { result ≡ is_full (view self.now) }
    {
        MAX_OPEN_ELEMENTS <= self.under.len()
    }

    /// Of an end tag: it is that of the innermost open element, which lacks nothing.
    pub(crate) fn check_end(&self, name: &Text) -> Result<(), Reason>
        ensures { Checks result (end_rows (view self.now) name.now) [] }
    {
        let other = is_other_end(self.top.context, &self.top.name, name);
        match self.top.context {
            Context::MarkingText | Context::WeightText
                if !other && !has_some(&self.top.content.numerals) => { Err(Reason::BadNumber) }
            Context::Pnml if !has_some(&self.top.content.nets) => Err(Reason::Misplaced),
            _ if other => Err(Reason::Misplaced),
            _ => Ok(()),
        }
    }
}

/// An end tag that isn't that of the innermost open element, and one where none is open.
fn is_other_end(context: Context, own: &Text, name: &Text) -> bool
    ensures { result ≡ is_other_end context own.now name.now }
{
    match context {
        Context::Document => true,
        _ => own.as_bytes() != name.as_bytes(),
    }
}
