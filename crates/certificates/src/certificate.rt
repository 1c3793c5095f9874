use net_values::{CopyList, List};

/// A semiflow of places: its places in ascending order, each with its coefficient.
pub type Flow = CopyList<(u32, i128)>;

/// The semiflows on which the claims of a certificate rest, counted from 1.
pub type Flows = List<Flow>;

/// At no reachable marking has the place more tokens than the bound, by the flow of this number.
#[derive(Clone, Copy, Debug, PartialEq, Eq)]
pub struct Claim {
    pub place: u32,
    pub bound: i128,
    pub flow: u32,
}

/// Claims, in ascending order of their places.
pub type Claims = List<Claim>;

/// Numbers of places, ascending.
pub type PlaceList = CopyList<u32>;

/// A line of a tree. Each line is about a class of siphons, those that contain one set of places and avoid
/// another; the first line is about all siphons.
#[derive(Clone, Copy, Debug, PartialEq, Eq)]
pub enum TreeLine {
    /// The class is parted: two trees follow, for its siphons without this place and for those with it.
    Split(u32),
    /// No nonempty siphon belongs to the class.
    Empty,
    /// The set that its siphons contain has a marked trap in it.
    Trap,
}

/// The lines of a tree in preorder.
pub type TreeLines = List<TreeLine>;

/// The lines of a certificate on bounds.
#[derive(Drop)]
pub struct BoundLines {
    pub flows: Flows,
    pub claims: Claims,
}

/// What proves an answer on a net.
#[derive(Drop)]
pub enum Certificate {
    /// Bounds of places, by semiflows.
    Bounds(BoundLines),
    /// A siphon without a marked trap, against Commoner's condition.
    BadSiphon(PlaceList),
    /// A tree of classes that has a marked trap for every siphon, for Commoner's condition.
    Commoner(TreeLines),
}
