ghost use Rattle.std.specs.Prelude.{◌≡◌, [], true, bytes_eq, map, option_map, IfOk};
ghost use Rattle.std.specs.List.{list_any};
ghost use Rattle.pnml_grammar.specs.Reading.{raw_attribute_at, all_raw_attributes_at, attribute_of, attributes_of, distinct_attributes_of, are_new, raw_attribute_name};
ghost use Rattle.pnml_token.specs.Gives.{Gives};
ghost use Rattle.pnml_token.specs.Views.{view, views};

use crate::miss::Miss;
use crate::ranks::do_ascend;
use crate::runs::{ByteClass, name_after_space, past, past_space, quote_of, split_run};
use crate::values::{text_of, value_of};
use net_values::NoMemory;
use pnml_grammar::{Attribute, Attributes};
use std::alloc::Global;
use std::collections::BTreeSet;

/// Up to so many names are compared each with each; of more a set is made.
pub(crate) const FEW_NAMES: usize = 8;

/// An attribute as it is written: its name, and what is between its quotes.
#[derive(Clone, Copy)]
pub(crate) struct RawAttribute<'a> {
    pub(crate) name: &'a [u8],
    pub(crate) body: &'a [u8],
}

/// `(S Attribute)*`: as many attributes as occur at the front.
pub(crate) fn raw_attributes_of(
    alloc: Global,
    bytes: &[u8],
) -> Result<(Vec<RawAttribute<'_>>, &[u8]), NoMemory>
    ensures { IfOk result (λ x. (views x.0.items, x.1.now) ≡ all_raw_attributes_at bytes.now) }
{
    let mut raw_attributes = Vec::new(alloc);
    let mut rest = bytes;
    'more: while let Some((raw_attribute, beyond)) = raw_attribute_of(rest) {
        raw_attributes.push(raw_attribute)?;
        rest = beyond;
    }
    Ok((raw_attributes, rest))
}

/// `S Name S? '=' S? ('"' [^<"]* '"' | "'" [^<']* "'")`: white space and an attribute (productions 41,
/// Attribute, 25, Eq, and 10, AttValue). Its references are resolved later.
#[tactic(auto, unfolding(pnml_grammar::specs::Reading::raw_attribute_at))]
pub(crate) fn raw_attribute_of(bytes: &[u8]) -> Option<(RawAttribute<'_>, &[u8])>
    ensures { option_map (λ x. (view x.0, x.1.now)) result ≡ raw_attribute_at bytes.now }
{
    let (name, rest) = name_after_space(bytes)?;
    let rest = past(b'=', past_space(rest))?;
    let (quote, rest) = quote_of(past_space(rest))?;
    let (body, rest) = split_run(ByteClass::Value(quote), rest);
    let rest = past(quote, rest)?;
    Some((RawAttribute { name, body }, rest))
}

/// The attributes that are written so, whose names are distinct.
#[tactic(auto, unfolding(pnml_grammar::specs::Reading::distinct_attributes_of))]
pub(crate) fn distinct_attributes_of(
    alloc: Global,
    raw_attributes: &[RawAttribute<'_>],
) -> Result<Attributes, Miss>
    ensures { Gives (λ attributes. attributes) result (distinct_attributes_of (views raw_attributes.now)) }
{
    if are_distinct(alloc, raw_attributes)? {
        attributes_of(alloc, raw_attributes)
    } else {
        Err(Miss::NoToken)
    }
}

/// Whether no name repeats another (section 3.1, Unique Att Spec). It takes no more than n log n
/// comparisons, and no memory for few names.
fn are_distinct(alloc: Global, raw_attributes: &[RawAttribute<'_>]) -> Result<bool, NoMemory>
    ensures { IfOk result (λ distinct. distinct ≡ are_new [] (map raw_attribute_name (views raw_attributes.now))) }
{
    if raw_attributes.len() <= FEW_NAMES {
        Ok(are_few_distinct(raw_attributes))
    } else if do_ascend(raw_attributes) {
        Ok(true)
    } else {
        are_all_distinct(alloc, raw_attributes)
    }
}

pub(crate) fn are_few_distinct(raw_attributes: &[RawAttribute<'_>]) -> bool
    ensures { result ≡ are_new [] (map raw_attribute_name (views raw_attributes.now)) }
{
    for i in 0..raw_attributes.len() {
        if is_name_of(&raw_attributes[..i], raw_attributes[i].name) {
            return false;
        }
    }
    true
}

/// Whether one of the attributes has this name.
fn is_name_of(raw_attributes: &[RawAttribute<'_>], name: &[u8]) -> bool
    ensures { result ≡ list_any (λ other. bytes_eq other.name.now name.now) raw_attributes.now }
{
    raw_attributes.iter().any(|other| other.name == name)
}

fn are_all_distinct(alloc: Global, raw_attributes: &[RawAttribute<'_>]) -> Result<bool, NoMemory>
    ensures { IfOk result (λ distinct. distinct ≡ are_new [] (map raw_attribute_name (views raw_attributes.now))) }
{
    let mut seen = BTreeSet::new(alloc);
    for raw_attribute in raw_attributes {
        if !seen.insert(raw_attribute.name)? {
            return Ok(false);
        }
    }
    Ok(true)
}

fn attributes_of(alloc: Global, raw_attributes: &[RawAttribute<'_>]) -> Result<Attributes, Miss>
    ensures { Gives (λ attributes. attributes) result (attributes_of (views raw_attributes.now)) }
{
    let mut attributes = Attributes::new(alloc);
    for raw_attribute in raw_attributes {
        attributes.push(attribute_of(alloc, raw_attribute)?)?;
    }
    Ok(attributes)
}

#[tactic(auto, unfolding(pnml_grammar::specs::Reading::attribute_of))]
fn attribute_of(alloc: Global, raw_attribute: &RawAttribute<'_>) -> Result<Attribute, Miss>
    ensures { Gives (λ attribute. attribute) result (attribute_of (view raw_attribute.now)) }
{
    let name = text_of(alloc, raw_attribute.name)?;
    let value = value_of(alloc, true, raw_attribute.body)?;
    Ok(Attribute { name, value })
}
