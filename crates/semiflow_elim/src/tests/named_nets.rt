//! Small nets with the minimal semiflows of their places or their transitions.
use crate::ElimFault;
use small_nets::{Arc, CHAIN, CYCLE, MUTEX, SCALE};

/// An entry of a semiflow: the number of the semiflow in the list, the number of the place or transition,
/// and the entry there.
pub(super) type Entry = (usize, usize, u128);

/// A net, and the number of its minimal semiflows with their positive entries, or the fault.
pub(super) struct NamedNet {
    pub name: &'static str,
    pub places: usize,
    pub transitions: usize,
    pub arcs: &'static [Arc],
    pub answer: Result<(usize, &'static [Entry]), ElimFault>,
}

const TWO_63: i128 = 1 << 63;

/// The nets and the semiflows of their places.
pub(super) const OF_PLACES: [NamedNet; 10] = [
    NamedNet {
        name: "cycle",
        places: 2,
        transitions: 2,
        arcs: CYCLE,
        answer: Ok((1, &[(0, 0, 1), (0, 1, 1)])),
    },
    NamedNet {
        name: "scale",
        places: 2,
        transitions: 2,
        arcs: SCALE,
        answer: Ok((1, &[(0, 0, 3), (0, 1, 2)])),
    },
    NamedNet {
        name: "prune",
        places: 4,
        transitions: 2,
        arcs: &[
            (2, 0, -1),
            (3, 0, -1),
            (0, 0, 1),
            (1, 0, 1),
            (1, 1, -1),
            (3, 1, -1),
            (0, 1, 1),
            (2, 1, 1),
        ],
        answer: Ok((2, &[(0, 1, 1), (0, 2, 1), (1, 0, 1), (1, 3, 1)])),
    },
    NamedNet {
        name: "chain of two",
        places: 3,
        transitions: 2,
        arcs: CHAIN,
        answer: Ok((1, &[(0, 0, 1 << 126), (0, 1, 1 << 63), (0, 2, 1)])),
    },
    NamedNet {
        name: "chain of three",
        places: 4,
        transitions: 3,
        arcs: &[
            (0, 0, -1),
            (1, 0, TWO_63),
            (1, 1, -1),
            (2, 1, TWO_63),
            (2, 2, -1),
            (3, 2, TWO_63),
        ],
        answer: Err(ElimFault::WideRow(2)),
    },
    NamedNet {
        name: "wide sum",
        places: 3,
        transitions: 3,
        arcs: &[
            (0, 0, -1),
            (1, 0, TWO_63),
            (1, 1, -1),
            (2, 1, TWO_63),
            (0, 2, -2),
        ],
        answer: Err(ElimFault::WideSum(2)),
    },
    NamedNet {
        name: "wide check",
        places: 4,
        transitions: 3,
        arcs: &[
            (0, 0, -4),
            (1, 0, 4),
            (1, 1, -1),
            (2, 1, TWO_63),
            (2, 2, -1),
            (3, 2, TWO_63),
        ],
        answer: Ok((
            1,
            &[
                (0, 0, 1 << 126),
                (0, 1, 1 << 126),
                (0, 2, 1 << 63),
                (0, 3, 1),
            ],
        )),
    },
    NamedNet {
        name: "mutex",
        places: 5,
        transitions: 4,
        arcs: MUTEX,
        answer: Ok((
            3,
            &[
                (0, 2, 1),
                (0, 3, 1),
                (1, 1, 1),
                (1, 3, 1),
                (1, 4, 1),
                (2, 0, 1),
                (2, 1, 1),
            ],
        )),
    },
    NamedNet {
        name: "isles",
        places: 2,
        transitions: 0,
        arcs: &[],
        answer: Ok((2, &[(0, 1, 1), (1, 0, 1)])),
    },
    NamedNet {
        name: "twin arcs",
        places: 2,
        transitions: 1,
        arcs: &[(0, 0, -1), (0, 0, -1), (1, 0, 1)],
        answer: Ok((1, &[(0, 0, 1), (0, 1, 2)])),
    },
];

/// The nets and the semiflows of their transitions.
pub(super) const OF_TRANSITIONS: [NamedNet; 3] = [
    NamedNet {
        name: "cycle",
        places: 2,
        transitions: 2,
        arcs: CYCLE,
        answer: Ok((1, &[(0, 0, 1), (0, 1, 1)])),
    },
    NamedNet {
        name: "line",
        places: 2,
        transitions: 1,
        arcs: &[(0, 0, -1), (1, 0, 1)],
        answer: Ok((0, &[])),
    },
    NamedNet {
        name: "only",
        places: 0,
        transitions: 1,
        arcs: &[],
        answer: Ok((1, &[(0, 0, 1)])),
    },
];
