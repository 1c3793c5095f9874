ghost use Rattle.std.specs.Prelude.{◌≡◌};
ghost use Rattle.report.specs.FaultLines.{counted_words, reason_words};

use pnml_decode::{Counted, Reason};

/// The words of a reason.
pub(crate) fn reason_words(reason: Reason) -> &'static [u8]
    ensures { result.now ≡ reason_words reason }
{
    match reason {
        Reason::BadToken => b"bad token",
        Reason::Doctype => b"doctype",
        Reason::UnknownElement => b"unknown element",
        Reason::OtherNamespace => b"other namespace",
        Reason::OtherType => b"other net type",
        Reason::BadAttribute => b"bad attribute",
        Reason::BadNumber => b"bad number",
        Reason::Misplaced => b"misplaced",
        Reason::TooDeep => b"too deep",
        Reason::TooMany(counted) => counted_words(counted),
    }
}

fn counted_words(counted: Counted) -> &'static [u8]
    ensures { result.now ≡ counted_words counted }
{
    match counted {
        Counted::Places => b"too many places",
        Counted::Transitions => b"too many transitions",
        Counted::Arcs => b"too many arcs",
        Counted::References => b"too many reference nodes",
        Counted::Pages => b"too many pages",
        Counted::Nets => b"too many nets",
        Counted::NameBytes => b"too many name bytes",
    }
}
