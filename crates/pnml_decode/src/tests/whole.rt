/// Whole inputs that spell a document.
pub(super) const DOCUMENTS: [&[u8]; 8] = [
    b"<pnml xmlns='http://www.pnml.org/version-2009/grammar/pnml'><net id='n' type='http://www.pnml.org/version-2009/grammar/ptnet'/></pnml>",
    b"\xEF\xBB\xBF<pnml xmlns='http://www.pnml.org/version-2009/grammar/pnml'><net id='n' type='http://www.pnml.org/version-2009/grammar/ptnet'/></pnml>",
    b"<?xml version='1.0'?><pnml xmlns='http://www.pnml.org/version-2009/grammar/pnml'><net id='n' type='http://www.pnml.org/version-2009/grammar/ptnet'/></pnml>",
    b"\xEF\xBB\xBF<?xml version='1.0'?> <!-- a --> <pnml xmlns='http://www.pnml.org/version-2009/grammar/pnml'><net id='n' type='http://www.pnml.org/version-2009/grammar/ptnet'/></pnml><?b c?>\n",
    b" <pnml xmlns='http://www.pnml.org/version-2009/grammar/pnml'><net id='n' type='http://www.pnml.org/version-2009/grammar/ptnet'/></pnml>",
    b"<?a?><pnml xmlns='http://www.pnml.org/version-2009/grammar/pnml'><net id='n' type='http://www.pnml.org/version-2009/grammar/ptnet'/></pnml> \r\n",
    b"<pnml xmlns='http://www.pnml.org/version-2009/grammar/pnml'><graphics/><net id='n' type='http://www.pnml.org/version-2009/grammar/ptnet'></net><toolspecific/></pnml >",
    b"<pnml xmlns='http://www.pnml.org/version-2009/grammar/pnml'><net id='n' type='http://www.pnml.org/version-2009/grammar/ptnet'/> <!----><graphics/><net id='n' type='http://www.pnml.org/version-2009/grammar/ptnet'></net></pnml>",
];

/// What a net may have.
pub(super) const IN_A_NET: [&[u8]; 19] = [
    b"",
    b"<place id='p'/>",
    b"<place id='p' xmlns='http://www.pnml.org/version-2009/grammar/pnml'/>",
    b"<place a:id='' id='p' xmlns:a='b' :=''/>",
    b"<place id='&#33;~\xC2\xA0'/>",
    b"<graphics id='' x='y' xmlns='z'><net/>x<![CDATA[x]]><a/><?b?><!----><pnml></pnml></graphics>",
    b"<toolspecific><graphics/></toolspecific><toolspecific/>",
    b"<name/>",
    b"<name><graphics/><text/><toolspecific/></name>",
    b"<name> <text> a <![CDATA[<b>]]>&amp;<!---->c</text> </name>",
    b"<place id='p'><initialMarking><text>0</text></initialMarking><name/></place>",
    b"<place id='p'><initialMarking><text> 007\n</text></initialMarking></place>",
    b"<place id='p'><initialMarking><text>18446744073709551615</text></initialMarking></place>",
    b"<place id='p'><initialMarking><text> <!-- a -->1<?b?> </text><graphics/></initialMarking></place>",
    b"<place id='p'><initialMarking></initialMarking></place>",
    b"<arc id='a' source='p' target='t'><inscription><text>1</text></inscription></arc>",
    b"<arc id='a' source='p' target='t'><inscription><text>018446744073709551615</text></inscription></arc>",
    b"<arc id='a' source='p' target='t'><inscription></inscription></arc>",
    b"<page id='p'><page id='p'/><name/></page><page id='p'> </page>",
];
