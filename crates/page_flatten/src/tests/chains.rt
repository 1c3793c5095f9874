use super::Given::{Arc, Place, Transition};
use super::faults::{Named, lent};
use super::nets::{Net, check_net};
use super::{net, reference};
use crate::flatten;
use net_values::{Document, Item, Nets};
use pnml_grammar::is_valued;
use std::test::Fail;

/// The net of a place and a transition that one arc joins.
const JOINED: Net = Net {
    places: &[("p", 5)],
    transitions: &["t"],
    pre: &[(0, 0, 1)],
    post: &[],
    arcs: 1,
};

/// The number of reference nodes, whether each leads to the next one or to the one before, and whether
/// the chain leads back to where it begins.
const CHAINS: [(usize, bool, bool); 7] = [
    (1, true, false),
    (1, true, true),
    (2, true, true),
    (4096, true, false),
    (4096, false, false),
    (4096, true, true),
    (4096, false, true),
];

#[test]
fn long_chains_end_or_lead_round(rt: HostRuntime) -> Result<(), Fail> {
    let alloc = rt.alloc();
    for (count, is_forward, is_cycle) in &CHAINS {
        let mut tree = net(
            alloc,
            "n",
            &[Place("p", 5), Transition("t"), Arc("a", "r0", "t", 1)],
        )?;
        for i in 0usize..*count {
            let next = if *is_forward { i + 1 } else { i + *count - 1 };
            let is_last = if *is_forward { next == *count } else { i == 0 };
            let id = format!(in alloc; "r{i}")?;
            let target = if is_last && !*is_cycle {
                format!(in alloc; "p")?
            } else {
                format!(in alloc; "r{}", next % *count)?
            };
            let node = reference(alloc, id.as_str(), target.as_str())?;
            tree.items.push(Item::RefPlace(node))?;
        }
        let mut nets = Nets::new(alloc);
        nets.push(tree)?;
        let document = Document { nets };
        assert!(rt; is_valued(&document));
        match flatten(alloc, &document, 0) {
            Ok(flat) => {
                assert!(rt; !*is_cycle);
                check_net(&rt, &flat, &JOINED);
            }
            Err(fault) => {
                assert!(rt; *is_cycle);
                assert_eq!(rt; lent(&fault), Some(Named::RefCycle("r0")));
            }
        }
    }
    Ok(())
}
