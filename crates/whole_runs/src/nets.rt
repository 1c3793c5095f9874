use net_values::NoMemory;
use std::alloc::Global;

/// What is in front of the items of a net, in 60 and 66 bytes.
pub const HEAD: &[u8] =
    b"<pnml xmlns=\"http://www.pnml.org/version-2009/grammar/pnml\"><net id=\"n\" type=\"http://www.pnml.org/version-2009/grammar/ptnet\">";

/// What follows them.
pub const REAR: &[u8] = b"</net></pnml>";

/// An arc: its source, its target and its weight.
type Arc = (&'static str, &'static str, u64);

/// A net as a table: its places with their tokens, its transitions, and its arcs, in parts that nets may share.
#[derive(Clone, Copy)]
pub struct Net {
    pub places: &'static [(&'static str, u64)],
    pub transitions: &'static [&'static str],
    pub arcs: &'static [&'static [Arc]],
}

/// A token that goes round.
pub const CYCLE: Net = Net {
    places: &[("p", 1), ("q", 0)],
    transitions: &["t", "u"],
    arcs: &[&[("p", "t", 1), ("t", "q", 1), ("q", "u", 1), ("u", "p", 1)]],
};

/// The same with weights.
pub const SCALE: Net = Net {
    places: &[("p", 5), ("q", 0)],
    transitions: &["t", "u"],
    arcs: &[&[("p", "t", 2), ("t", "q", 3), ("q", "u", 3), ("u", "p", 2)]],
};

/// A combination of rows here has more places than it needs.
pub const PRUNE: Net = Net {
    places: &[("a", 0), ("b", 0), ("c", 0), ("d", 0)],
    transitions: &["t1", "t2"],
    arcs: &[&[
        ("c", "t1", 1),
        ("d", "t1", 1),
        ("t1", "a", 1),
        ("t1", "b", 1),
        ("b", "t2", 1),
        ("d", "t2", 1),
        ("t2", "a", 1),
        ("t2", "c", 1),
    ]],
};

/// 2^63.
const MANY: u64 = 9_223_372_036_854_775_808;

/// The steps of a chain, in each of which a transition makes 2^63 tokens of one.
const FIRST_STEP: &[Arc] = &[("p1", "t1", 1), ("t1", "p2", MANY)];

const SECOND_STEP: &[Arc] = &[("p2", "t2", 1), ("t2", "p3", MANY)];

const THIRD_STEP: &[Arc] = &[("p3", "t3", 1), ("t3", "p4", MANY)];

pub const CHAIN_OF_2: Net = Net {
    places: &[("p1", 1), ("p2", 0), ("p3", 0)],
    transitions: &["t1", "t2"],
    arcs: &[FIRST_STEP, SECOND_STEP],
};

pub const CHAIN_OF_3: Net = Net {
    places: &[("p1", 1), ("p2", 0), ("p3", 0), ("p4", 0)],
    transitions: &["t1", "t2", "t3"],
    arcs: &[FIRST_STEP, SECOND_STEP, THIRD_STEP],
};

/// A chain of 2 whose first place, of which a semiflow has 2^126, is weighed twice.
pub const WIDE_SUM: Net = Net {
    transitions: &["t1", "t2", "t3"],
    arcs: &[FIRST_STEP, SECOND_STEP, &[("p1", "t3", 2)]],
    ..CHAIN_OF_2
};

/// A chain of 2 with a token more, so that the semiflow weighs 2^127 tokens.
pub const WIDE_BOUND: Net = Net {
    places: &[("p1", 2), ("p2", 0), ("p3", 0)],
    ..CHAIN_OF_2
};

/// The rows here stay in range where both they and the differences are divided by their common divisors.
pub const DIVIDED: Net = Net {
    places: &[("p", 0), ("q", 0), ("r", 0), ("s", 0)],
    transitions: &["t1", "t2", "t3"],
    arcs: &[&[
        ("p", "t1", 4),
        ("t1", "q", 4),
        ("q", "t2", 1),
        ("t2", "r", MANY),
        ("r", "t3", 1),
        ("t3", "s", MANY),
    ]],
};

/// A transition that takes a token from each of ten places and gives one to each of ten others.
pub const FAN: Net = Net {
    places: &[
        ("i0", 0),
        ("i1", 0),
        ("i2", 0),
        ("i3", 0),
        ("i4", 0),
        ("i5", 0),
        ("i6", 0),
        ("i7", 0),
        ("i8", 0),
        ("i9", 0),
        ("o0", 0),
        ("o1", 0),
        ("o2", 0),
        ("o3", 0),
        ("o4", 0),
        ("o5", 0),
        ("o6", 0),
        ("o7", 0),
        ("o8", 0),
        ("o9", 0),
    ],
    transitions: &["t"],
    arcs: &[
        &[
            ("i0", "t", 1),
            ("i1", "t", 1),
            ("i2", "t", 1),
            ("i3", "t", 1),
            ("i4", "t", 1),
            ("i5", "t", 1),
            ("i6", "t", 1),
            ("i7", "t", 1),
            ("i8", "t", 1),
            ("i9", "t", 1),
        ],
        &[
            ("t", "o0", 1),
            ("t", "o1", 1),
            ("t", "o2", 1),
            ("t", "o3", 1),
            ("t", "o4", 1),
            ("t", "o5", 1),
            ("t", "o6", 1),
            ("t", "o7", 1),
            ("t", "o8", 1),
            ("t", "o9", 1),
        ],
    ],
};

pub const LINE: Net = Net {
    places: &[("p", 1), ("q", 0)],
    transitions: &["t"],
    arcs: &[&[("p", "t", 1), ("t", "q", 1)]],
};

/// Places only.
pub const ISLES: Net = Net {
    places: &[("a", 1), ("b", 1)],
    transitions: &[],
    arcs: &[],
};

/// A transition only.
pub const ALONE: Net = Net {
    places: &[],
    transitions: &["t"],
    arcs: &[],
};

/// Two arcs from the same place to the same transition.
pub const TWIN: Net = Net {
    places: &[("p", 0), ("q", 0)],
    transitions: &["t"],
    arcs: &[&[("p", "t", 1), ("p", "t", 1), ("t", "q", 1)]],
};

/// Two processes that exclude each other by a lock, as a tool writes them: with names, graphics, a part for
/// one tool, a page, a written weight of 1 and a line for each node.
pub const MUTEX: &[&[u8]] = &[
    b"<?xml version=\"1.0\"?>\n",
    b"<pnml xmlns=\"http://www.pnml.org/version-2009/grammar/pnml\">\n",
    b"  <net id=\"Mutex\" type=\"http://www.pnml.org/version-2009/grammar/ptnet\">\n",
    b"    <toolspecific tool=\"nupn\" version=\"1.1\">\n",
    b"      <size places=\"5\" transitions=\"4\" arcs=\"12\"/>\n",
    b"      <structure units=\"1\" root=\"u0\" safe=\"false\">\n",
    b"        <unit id=\"u0\"><places>idle1 crit1 idle2 crit2 lock</places><subunits/></unit>\n",
    b"      </structure>\n",
    b"    </toolspecific>\n",
    b"    <page id=\"page0\">\n",
    b"      <name><text>DefaultPage</text></name>\n",
    b"      <place id=\"idle1\"><graphics><position x=\"10\" y=\"20\"/></graphics><name><graphics><offset x=\"0\" y=\"-10\"/></graphics><text>idle 1</text></name><initialMarking><text>1</text></initialMarking></place>\n",
    b"      <place id=\"crit1\"><name><text>critical 1</text></name></place>\n",
    b"      <place id=\"idle2\"><name><text>idle 2</text></name><initialMarking><text>1</text></initialMarking></place>\n",
    b"      <place id=\"crit2\"><name><text>critical 2</text></name></place>\n",
    b"      <place id=\"lock\"><name><text>lock</text></name><initialMarking><text>1</text></initialMarking></place>\n",
    b"      <transition id=\"enter1\"><name><text>enter 1</text></name></transition>\n",
    b"      <transition id=\"leave1\"/>\n",
    b"      <transition id=\"enter2\"/>\n",
    b"      <transition id=\"leave2\"/>\n",
    b"      <arc id=\"e1\" source=\"idle1\" target=\"enter1\"><inscription><text>1</text></inscription></arc>\n",
    b"      <arc id=\"e2\" source=\"lock\" target=\"enter1\"/>\n",
    b"      <arc id=\"e3\" source=\"enter1\" target=\"crit1\"/>\n",
    b"      <arc id=\"e4\" source=\"crit1\" target=\"leave1\"/>\n",
    b"      <arc id=\"e5\" source=\"leave1\" target=\"idle1\"/>\n",
    b"      <arc id=\"e6\" source=\"leave1\" target=\"lock\"/>\n",
    b"      <arc id=\"e7\" source=\"idle2\" target=\"enter2\"/>\n",
    b"      <arc id=\"e8\" source=\"lock\" target=\"enter2\"/>\n",
    b"      <arc id=\"e9\" source=\"enter2\" target=\"crit2\"/>\n",
    b"      <arc id=\"e10\" source=\"crit2\" target=\"leave2\"/>\n",
    b"      <arc id=\"e11\" source=\"leave2\" target=\"idle2\"/>\n",
    b"      <arc id=\"e12\" source=\"leave2\" target=\"lock\"/>\n",
    b"    </page>\n",
    b"  </net>\n",
    b"</pnml>\n",
];

/// The bytes of a net without pages, its arcs having the ids `a1`, `a2` and on.
pub fn document(alloc: Global, net: &Net) -> Result<Vec<u8>, NoMemory> {
    let mut bytes = Vec::from_slice(alloc, HEAD)?;
    for (id, tokens) in net.places {
        push_place(&mut bytes, id, *tokens)?;
    }
    for id in net.transitions {
        let tag = format!(in alloc; "<transition id=\"{id}\"/>")?;
        bytes.extend_from_slice(tag.as_bytes())?;
    }
    push_arcs(&mut bytes, net.arcs)?;
    bytes.extend_from_slice(REAR)?;
    Ok(bytes)
}

fn push_place(bytes: &mut Vec<u8>, id: &str, tokens: u64) -> Result<(), NoMemory> {
    let alloc = *bytes.allocator();
    let element = if tokens == 0 {
        format!(in alloc; "<place id=\"{id}\"/>")?
    } else {
        format!(in alloc;
            "<place id=\"{id}\"><initialMarking><text>{tokens}</text></initialMarking></place>"
        )?
    };
    bytes.extend_from_slice(element.as_bytes())?;
    Ok(())
}

fn push_arcs(bytes: &mut Vec<u8>, parts: &[&[Arc]]) -> Result<(), NoMemory> {
    let mut number = 1;
    for part in parts {
        for (source, target, weight) in *part {
            push_arc(bytes, number, source, target, *weight)?;
            number = number.saturating_add(1);
        }
    }
    Ok(())
}

fn push_arc(
    bytes: &mut Vec<u8>,
    number: usize,
    source: &str,
    target: &str,
    weight: u64,
) -> Result<(), NoMemory> {
    let alloc = *bytes.allocator();
    let ends = format!(in alloc; "<arc id=\"a{number}\" source=\"{source}\" target=\"{target}\"")?;
    bytes.extend_from_slice(ends.as_bytes())?;
    let rest = if weight == 1 {
        format!(in alloc; "/>")?
    } else {
        format!(in alloc; "><inscription><text>{weight}</text></inscription></arc>")?
    };
    bytes.extend_from_slice(rest.as_bytes())?;
    Ok(())
}

/// The bytes of a net whose one transition takes a token from each of so many places and gives one to each
/// of as many.
pub fn fan(alloc: Global, width: usize) -> Result<Vec<u8>, NoMemory> {
    let mut bytes = Vec::from_slice(alloc, HEAD)?;
    bytes.extend_from_slice(b"<transition id=\"t\"/>")?;
    for i in 0..width {
        let branch = format!(in alloc;
            "<place id=\"i{i}\"/><arc id=\"from{i}\" source=\"i{i}\" target=\"t\"/><place id=\"o{i}\"/><arc id=\"to{i}\" source=\"t\" target=\"o{i}\"/>"
        )?;
        bytes.extend_from_slice(branch.as_bytes())?;
    }
    bytes.extend_from_slice(REAR)?;
    Ok(bytes)
}

/// The bytes of a net with a place `p` and so many transitions that give it tokens, each from so many places
/// of its own. A siphon with `p` has one of the places of each transition.
pub fn choices(alloc: Global, transitions: usize, inputs: usize) -> Result<Vec<u8>, NoMemory> {
    let mut bytes = Vec::from_slice(alloc, HEAD)?;
    bytes.extend_from_slice(b"<place id=\"p\"/>")?;
    for t in 0..transitions {
        let giver = format!(in alloc;
            "<transition id=\"t{t}\"/><arc id=\"to{t}\" source=\"t{t}\" target=\"p\"/>"
        )?;
        bytes.extend_from_slice(giver.as_bytes())?;
        push_inputs(&mut bytes, t, inputs)?;
    }
    bytes.extend_from_slice(REAR)?;
    Ok(bytes)
}

fn push_inputs(bytes: &mut Vec<u8>, t: usize, inputs: usize) -> Result<(), NoMemory> {
    let alloc = *bytes.allocator();
    for i in 0..inputs {
        let input = format!(in alloc;
            "<place id=\"p{t}.{i}\"/><arc id=\"from{t}.{i}\" source=\"p{t}.{i}\" target=\"t{t}\"/>"
        )?;
        bytes.extend_from_slice(input.as_bytes())?;
    }
    Ok(())
}
