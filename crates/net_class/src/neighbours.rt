ghost use Rattle.std.specs.Prelude.{◌<◌};
ghost use Rattle.net_values.specs.Columns.{Lists};
ghost use Rattle.net_values.specs.FlatNets.{net_of};
ghost use Rattle.net_class.specs.Neighbours.{weights_of};

use net_values::{FlatNet, WeightedPlace};

/// Which neighbours of a transition are meant: its input places or its output places.
#[derive(Clone, Copy)]
pub(crate) enum Neighbours {
    Inputs,
    Outputs,
}

impl Neighbours {
    /// The places that are such neighbours of transition `t`, ascending, each with the weight of the
    /// arcs.
    pub(crate) fn arcs(self, net: &FlatNet, t: usize) -> &[WeightedPlace]
        requires { t < (net_of net.now).transitions }
        ensures { Lists (net_of net.now).places (λ p. weights_of self (net_of net.now) p t) result.now }
    {
        match self {
            Neighbours::Inputs => net.inputs(t),
            Neighbours::Outputs => net.outputs(t),
        }
    }
}
