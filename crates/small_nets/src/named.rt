use crate::nets::Arc;

/// The arcs of a ring of two places.
pub const CYCLE: &[Arc] = &[(0, 0, -1), (1, 0, 1), (1, 1, -1), (0, 1, 1)];

/// The arcs of a ring in which two tokens of the first place become three of the second, and back.
pub const SCALE: &[Arc] = &[(0, 0, -2), (1, 0, 3), (1, 1, -3), (0, 1, 2)];

/// The arcs of a chain of three places, at whose two transitions one token becomes 2^63.
pub const CHAIN: &[Arc] = &[(0, 0, -1), (1, 0, 1 << 63), (1, 1, -1), (2, 1, 1 << 63)];

/// The arcs of a net with a siphon of two places that isn't a trap, since a transition takes from the first and
/// gives nothing. The second is a trap.
pub const LEAK: &[Arc] = &[
    (0, 0, -1),
    (1, 0, 1),
    (1, 1, -1),
    (0, 1, 1),
    (1, 1, 1),
    (0, 2, -1),
];

/// The arcs of a mutual exclusion, with the places idle1, crit1, idle2, crit2 and lock, and a transition that
/// enters and one that leaves for each of the two.
pub const MUTEX: &[Arc] = &[
    (0, 0, -1),
    (4, 0, -1),
    (1, 0, 1),
    (1, 1, -1),
    (0, 1, 1),
    (4, 1, 1),
    (2, 2, -1),
    (4, 2, -1),
    (3, 2, 1),
    (3, 3, -1),
    (2, 3, 1),
    (4, 3, 1),
];
