ghost use Rattle.std.specs.Prelude.{◌≡◌, ◌≤◌, IfOk};
ghost use Rattle.net_values.specs.declared.limits.TheConstants.{MAX_PLACES};

use crate::known_traps::KnownTraps;
use crate::walk::Walk;
use net_values::{NoMemory, Vector};
use std::alloc::Global;
use std::marker::Model;

/// The memory that checks of certificates against nets of one number of places need. Contracts see that number.
#[derive(Drop)]
pub struct Scratch {
    pub(crate) coefficients: Vector,
    pub(crate) walk: Walk,
    pub(crate) traps: KnownTraps,
}

impl Model for Scratch {
    ghost use Rattle.std.specs.Prelude.{◌≡◌, ℕ, length};
    ghost use Rattle.cert_check.specs.KnownTraps.{HasRoomFor};
    ghost use Rattle.cert_check.specs.Walks.{HasSizes};

    ghost Value = { ℕ };

    ghost view = { λ s. length s.coefficients };

    ghost invariant = { λ s. HasSizes (length s.coefficients) s.walk × HasRoomFor (length s.coefficients) s.traps };
}

impl Scratch {
    /// The memory for nets of this number of places, which is at most `MAX_PLACES`.
    pub fn new(alloc: Global, places: usize) -> Result<Scratch, NoMemory>
        requires { places ≤ MAX_PLACES }
        ensures { IfOk result (λ scratch. scratch ≡ places) }
    {
        Ok(Scratch {
            coefficients: Vector::zeros(alloc, places)?,
            walk: Walk::new(alloc, places)?,
            traps: KnownTraps::new(alloc, places)?,
        })
    }
}
