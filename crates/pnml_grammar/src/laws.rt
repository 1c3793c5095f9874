ghost use Rattle.pnml_grammar.specs.CanonicalTexts.{SpellTheirDocuments, TellDocumentsApart};
ghost use Rattle.pnml_grammar.specs.Documents.{SpellOneDocument};
ghost use Rattle.pnml_grammar.specs.FirstFault.{HaveOneAnswer, HaveSomeAnswer, RowsTellFaults};
ghost use Rattle.pnml_grammar.specs.Numerals.{AreRead};
ghost use Rattle.pnml_grammar.specs.OneNet.{StaysForOneNet};
ghost use Rattle.pnml_grammar.specs.Tokens.{HasOneToken, HasTokenOrNone};
ghost use Rattle.pnml_grammar.specs.Valued.{IsValuedOrNot};

/// At an offset a token occurs, or none does.
pub fn a_token_or_none()
    ensures { HasTokenOrNone }
{}

/// At an offset at most one token occurs, and its end is determined.
pub fn one_token()
    ensures { HasOneToken }
{}

/// Bytes spell at most one document.
pub fn one_document()
    ensures { SpellOneDocument }
{}

/// Bytes spell a document, or they have a fault.
pub fn a_document_or_a_fault()
    ensures { HaveSomeAnswer }
{}

/// Bytes have at most one fault, and none where they spell a document.
pub fn one_answer()
    ensures { HaveOneAnswer }
{}

/// After tokens that begin a document, some row of reasons applies exactly where no token goes on.
pub fn a_reason_at_each_fault()
    ensures { RowsTellFaults }
{}

/// The number that is read in a text is that of its numeral, where there is one in range.
pub fn numerals_are_read()
    ensures { AreRead }
{}

/// A document is valued, or it isn't.
pub fn a_document_is_valued_or_not()
    ensures { IsValuedOrNot }
{}

/// The canonical text of a valued document spells it.
pub fn canonical_text_spells_its_document()
    ensures { SpellTheirDocuments }
{}

/// Canonical texts of valued documents are equal exactly where the documents are equal.
pub fn canonical_text_tells_documents_apart()
    ensures { TellDocumentsApart }
{}

/// Bytes that spell a document of one net, as a grammar defines it in which a document is one net, spell the document
/// that has that net only, and its canonical text is the same.
pub fn one_net_is_spelled_as_before()
    ensures { StaysForOneNet }
{}
