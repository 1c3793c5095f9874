ghost use Rattle.std.specs.Prelude.{◌≡◌, ◌+◌, true, false, nat_le, Some, None, OnOk, IfOk, IfErr};
ghost use Rattle.pnml_grammar.specs.Counts.{no_counts, ◌plus◌, counts_of_kind};
ghost use Rattle.pnml_grammar.specs.Reasons.{count_rows, first_row};
ghost use Rattle.pnml_decode.specs.Views.{counted};

use net_values::{MAX_ARCS, MAX_PAGES, MAX_PLACES, MAX_REFERENCES, MAX_TRANSITIONS};
use pnml_grammar::{Counted, ElementKind, Reason};

/// How many elements of the counted kinds have occurred outside skipped parts. Reference nodes of both
/// kinds count together.
#[derive(Clone, Copy)]
pub(crate) struct Counts {
    pub(crate) places: usize,
    pub(crate) transitions: usize,
    pub(crate) arcs: usize,
    pub(crate) references: usize,
    pub(crate) pages: usize,
}

impl Counts {
    pub(crate) fn none() -> Counts
        ensures { counted result ≡ no_counts }
    {
        Counts {
            places: 0,
            transitions: 0,
            arcs: 0,
            references: 0,
            pages: 0,
        }
    }

    /// The counts with one more element of the kind, or why there is no room for it.
    pub(crate) fn with(self, element: ElementKind) -> Result<Counts, Reason>
        ensures room { OnOk result (first_row (count_rows (counted self) element) ≡ None) }
        ensures raised { IfOk result (λ counts. counted counts ≡ counted self plus counts_of_kind element) }
        ensures full { IfErr result (λ reason. first_row (count_rows (counted self) element) ≡ Some reason) }
    {
        match element {
            ElementKind::Place => Ok(Counts {
                places: one_more(self.places, MAX_PLACES, Counted::Places)?,
                ..self
            }),
            ElementKind::Transition => Ok(Counts {
                transitions: one_more(self.transitions, MAX_TRANSITIONS, Counted::Transitions)?,
                ..self
            }),
            ElementKind::Arc => Ok(Counts {
                arcs: one_more(self.arcs, MAX_ARCS, Counted::Arcs)?,
                ..self
            }),
            ElementKind::ReferencePlace | ElementKind::ReferenceTransition => Ok(Counts {
                references: one_more(self.references, MAX_REFERENCES, Counted::References)?,
                ..self
            }),
            ElementKind::Page => Ok(Counts {
                pages: one_more(self.pages, MAX_PAGES, Counted::Pages)?,
                ..self
            }),
            _ => Ok(self),
        }
    }
}

/// A count raised by one, or the reason where it has reached the most that it may be.
fn one_more(count: usize, most: usize, of: Counted) -> Result<usize, Reason>
    ensures room { OnOk result (nat_le most count ≡ false) }
    ensures raised { IfOk result (λ more. more ≡ count + 1) }
    ensures full { IfErr result (λ reason. (nat_le most count ≡ true) × (reason ≡ Reason.TooMany of)) }
{
    if most <= count {
        Err(Reason::TooMany(of))
    } else {
        Ok(count + 1)
    }
}
