use crate::Reason;
use crate::Reason::{
    BadAttribute, BadNumber, BadToken, Doctype, Misplaced, OtherNamespace, OtherType,
    UnknownElement,
};

/// What comes after the head of a table up to the offset of the fault, what occurs from there on, and the
/// reason. The rows of a table are in the order of the reasons.
type Faulty = (&'static [u8], &'static [u8], Reason);

/// Faults of whole inputs.
pub(super) const FROM_THE_FRONT: [Faulty; 19] = [
    (b"", b"<pnm<", BadToken),
    (b"", b"<?xml version='1.1'?>", BadToken),
    (b"<?xml version='1.0'?>", b"&", BadToken),
    (b"", b"<!DOCTYPE pnml>", Doctype),
    (b"", b"<PNML/>", UnknownElement),
    (b"", b"<pnml/>", OtherNamespace),
    (
        b"",
        b"<pnml xmlns='http://www.pnml.org/version-2009/grammar/PNML'>",
        OtherNamespace,
    ),
    (b"", b"<net xmlns='' type='x'/>", OtherNamespace),
    (
        b"",
        b"<pnml xmlns='http://www.pnml.org/version-2009/grammar/pnml' id='x'/>",
        BadAttribute,
    ),
    (b" ", b"<?xml version='1.0'?>", Misplaced),
    (b"<!---->", b"<?xml version='1.0'?>", Misplaced),
    (
        b"<?xml version='1.0'?>",
        b"<?xml version='1.0'?>",
        Misplaced,
    ),
    (b"\xEF\xBB\xBF", b"x", Misplaced),
    (b"", b"0<pnml>", Misplaced),
    (b"", b"<![CDATA[]]>", Misplaced),
    (b"", b"</pnml>", Misplaced),
    (
        b"",
        b"<net id='n' type='http://www.pnml.org/version-2009/grammar/ptnet'/>",
        Misplaced,
    ),
    (b"", b"<graphics/>", Misplaced),
    (
        b"",
        b"<pnml xmlns='http://www.pnml.org/version-2009/grammar/pnml'/>",
        Misplaced,
    ),
];

/// Faults after the tag of the root.
pub(super) const IN_THE_ROOT: [Faulty; 7] = [
    (b"", b"<net type='x'/>", OtherType),
    (b"", b"<net id='n'/>", BadAttribute),
    (
        b"",
        b"<net type='http://www.pnml.org/version-2009/grammar/ptnet'/>",
        BadAttribute,
    ),
    (b"", b"</pnml>", Misplaced),
    (b"<graphics/>", b"</pnml>", Misplaced),
    (b"", b"<place id='p'/>", Misplaced),
    (
        b"<net id='n' type='http://www.pnml.org/version-2009/grammar/ptnet'/>",
        b"<name/>",
        Misplaced,
    ),
];

/// Faults after a whole document.
pub(super) const AFTER_THE_ROOT: [Faulty; 4] = [
    (b"", b"<!DOCTYPE", Doctype),
    (
        b"",
        b"<pnml xmlns='http://www.pnml.org/version-2009/grammar/pnml'>",
        Misplaced,
    ),
    (b"", b"</pnml>", Misplaced),
    (b" <!----><?a?>", b"x", Misplaced),
];

/// Faults after the tag of a net.
pub(super) const IN_A_NET: [Faulty; 56] = [
    (b"", b"<1>", BadToken),
    (b"", b"&x;", BadToken),
    (b"", b"]]>", BadToken),
    (b"", b"<!DOCTYP>", BadToken),
    (b"", b"<place id='p' id='p'/>", BadToken),
    (b"<graphics>", b"<a b=c>", BadToken),
    (b"", b"<!DOCTYPE>", Doctype),
    (b"<graphics><a>", b"<!DOCTYPE", Doctype),
    (b"", b"<places id='p'/>", UnknownElement),
    (b"", b"<Place id='p'>", UnknownElement),
    (b"<name><text>", b"<b/>", UnknownElement),
    (b"", b"<place id='p' xmlns='x'/>", OtherNamespace),
    (
        b"",
        b"<place id='p' xmlns='http://www.pnml.org/version-2009/grammar/pnml#'/>",
        OtherNamespace,
    ),
    (b"", b"<net xmlns='x' type='y'>", OtherNamespace),
    (b"", b"<text xmlns='' a='b'/>", OtherNamespace),
    (b"", b"<net id='' type='x'>", OtherType),
    (b"", b"<place/>", BadAttribute),
    (b"", b"<place id=''/>", BadAttribute),
    (b"", b"<place id='a b'/>", BadAttribute),
    (b"", b"<transition id='a\tb'/>", BadAttribute),
    (b"", b"<page id='a&#10;'>", BadAttribute),
    (b"", b"<page id='&#x7F;'>", BadAttribute),
    (b"", b"<place id='p' ref='q'/>", BadAttribute),
    (b"", b"<place id='p' x='q'/>", BadAttribute),
    (
        b"",
        b"<arc id='a' source='p' target='t' type='inhibitor'/>",
        BadAttribute,
    ),
    (b"", b"<arc id='a' source='p'/>", BadAttribute),
    (b"", b"<arc id='a' source='' target='t'/>", BadAttribute),
    (b"", b"<arc id='a' source='p' target='t t'/>", BadAttribute),
    (b"", b"<referencePlace id='r'/>", BadAttribute),
    (b"", b"<referenceTransition id='r' ref=' '/>", BadAttribute),
    (b"", b"<name id='x'/>", BadAttribute),
    (b"", b"<text x=''/>", BadAttribute),
    (b"", b"<?xml version='1.0'?>", Misplaced),
    (b"<toolspecific>", b"<?xml version='1.0'?>", Misplaced),
    (
        b"",
        b"<pnml xmlns='http://www.pnml.org/version-2009/grammar/pnml'>",
        Misplaced,
    ),
    (
        b"",
        b"<net id='n' type='http://www.pnml.org/version-2009/grammar/ptnet'>",
        Misplaced,
    ),
    (b"", b"<text/>", Misplaced),
    (b"", b"<initialMarking/>", Misplaced),
    (b"", b"<inscription/>", Misplaced),
    (b"<page id='g'>", b"<text>", Misplaced),
    (b"<transition id='t'>", b"<initialMarking/>", Misplaced),
    (
        b"<referencePlace id='r' ref='p'>",
        b"<initialMarking/>",
        Misplaced,
    ),
    (b"<name>", b"<name/>", Misplaced),
    (b"<name><text>", b"<graphics/>", Misplaced),
    (b"<name/>", b"<name/>", Misplaced),
    (
        b"<page id='g'><name/></page><name><text/></name>",
        b"<name>",
        Misplaced,
    ),
    (b"<name><text/>", b"<text>", Misplaced),
    (b"", b"x", Misplaced),
    (b"<page id='g'>", b"&#32;0", Misplaced),
    (b"<name>", b"x", Misplaced),
    (b"", b"<![CDATA[]]>", Misplaced),
    (b"<name>", b"<![CDATA[x]]>", Misplaced),
    (b"", b"</page>", Misplaced),
    (b"", b"</pnml>", Misplaced),
    (b"<graphics><a>", b"</b>", Misplaced),
    (b"<graphics>", b"</toolspecific>", Misplaced),
];

/// Faults after the tag of a place.
pub(super) const IN_A_PLACE: [Faulty; 8] = [
    (b"", b"<b xmlns='x'/>", UnknownElement),
    (b"<initialMarking>", b"<text id='x'/>", BadAttribute),
    (b"<initialMarking>", b"<text/>", BadNumber),
    (b"", b"<place id='q'/>", Misplaced),
    (b"", b"<inscription/>", Misplaced),
    (b"<initialMarking/>", b"<initialMarking/>", Misplaced),
    (b"<initialMarking>", b"1", Misplaced),
    (b"", b"</transition>", Misplaced),
];

/// Faults in the text of an initial marking.
pub(super) const IN_A_MARKING: [Faulty; 15] = [
    (b"", b"x", BadNumber),
    (b"", b"-1", BadNumber),
    (b"", b"1 2", BadNumber),
    (b"", b"1.0", BadNumber),
    (b"", b"18446744073709551616", BadNumber),
    (b"", b"0018446744073709551616", BadNumber),
    (b"1<!---->", b"x", BadNumber),
    (b"1</text>", b"<text/>", BadNumber),
    (b"", b"</text>", BadNumber),
    (b" <!----> ", b"</text>", BadNumber),
    (b"", b"<toolspecific/>", Misplaced),
    (b"1</text>", b"<text>", Misplaced),
    (b"1<!---->", b"2", Misplaced),
    (b"", b"<![CDATA[1]]>", Misplaced),
    (b"", b"</initialMarking>", Misplaced),
];

/// Faults after the tag of an arc.
pub(super) const IN_AN_ARC: [Faulty; 8] = [
    (b"<inscription><text>", b"0", BadNumber),
    (b"<inscription><text>", b"00", BadNumber),
    (b"<inscription><text>", b"18446744073709551616", BadNumber),
    (b"<inscription>", b"<text/>", BadNumber),
    (b"<inscription><text>", b"</text>", BadNumber),
    (b"", b"<initialMarking>", Misplaced),
    (b"<inscription/>", b"<inscription/>", Misplaced),
    (b"<inscription><text>1<?a?> <!---->", b"1", Misplaced),
];
