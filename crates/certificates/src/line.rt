use crate::certificate::{Claim, Flow, PlaceList, TreeLine};

/// The first word of a line.
#[derive(Clone, Copy)]
pub(crate) enum Keyword {
    BoundsWord,
    BadSiphonWord,
    CommonerWord,
    FlowWord,
    BoundWord,
    SiphonWord,
    SplitWord,
    EmptyWord,
    TrapWord,
    EndWord,
}

/// A line of a certificate.
#[derive(Drop)]
pub(crate) enum Line {
    /// `bounds`.
    OpensBounds,
    /// `bad-siphon`.
    OpensBadSiphon,
    /// `commoner`.
    OpensCommoner,
    /// `flow` with its terms.
    Flow(Flow),
    /// `bound` with a place, its bound and the number of a flow.
    Bound(Claim),
    /// `siphon` with its places.
    Siphon(PlaceList),
    /// A line of a tree.
    Tree(TreeLine),
    /// `end`.
    Ends,
}
