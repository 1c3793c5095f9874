ghost use Rattle.std.specs.Prelude.{◌≡◌};
ghost use Rattle.net_values.specs.Nodes.{other_kind};

/// The two kinds of nodes of a net (ISO/IEC 15909-1).
#[derive(Clone, Copy, Debug, PartialEq, Eq)]
pub enum NodeKind {
    Place,
    Transition,
}

impl NodeKind {
    /// The kind that isn't this one.
    pub fn other(self) -> NodeKind
        ensures { result ≡ other_kind self }
    {
        match self {
            NodeKind::Place => NodeKind::Transition,
            NodeKind::Transition => NodeKind::Place,
        }
    }
}
