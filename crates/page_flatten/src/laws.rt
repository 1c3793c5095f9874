ghost use Rattle.page_flatten.specs.Laws.{HasOneFault, BreaksWhereFaulty, HasOneFlatNet, HasNetOrFault};

/// A document has at most one first broken rule, named with one choice of ids.
pub fn one_first_broken_rule()
    ensures { HasOneFault }
{}

/// Where a rule is named as broken, the document breaks a rule.
pub fn no_fault_where_no_rule_is_broken()
    ensures { BreaksWhereFaulty }
{}

/// Of a document that breaks no rule each net has at most one flat net.
pub fn one_flat_net()
    ensures { HasOneFlatNet }
{}

/// A document breaks no rule and its net of a number has a flat net or is absent, or it has a first broken rule.
pub fn a_flat_net_or_a_first_broken_rule()
    ensures { HasNetOrFault }
{}
