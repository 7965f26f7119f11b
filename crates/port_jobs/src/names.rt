//! The names of a server's devices.
ghost use Rattle.std.specs.Prelude.{◌≡◌};
ghost use Rattle.port_looking.specs.Looking.{AreNames};

use mos_fields::Ids;
use std::marker::Model;

/// The mosIDs of a server's devices, 1 to 64 of them, all distinct. A device's number is its place, from 0.
#[derive(Drop)]
pub struct Names {
    ids: Ids,
}

impl Model for Names {
    ghost use Rattle.std.specs.Prelude.{ℕ, List};
    ghost use Rattle.port_looking.specs.Looking.{AreNames};

    ghost Value = { List (List ℕ) };

    ghost view = { λ n. n.ids };

    ghost invariant = { λ n. AreNames n.ids };
}

impl Names {
    /// These names.
    pub fn new(ids: Ids) -> Self
        requires { AreNames ids }
        ensures { result ≡ ids }
    {
        Names { ids }
    }

    /// The list of them.
    pub fn ids(&self) -> &Ids
        ensures value { result.now ≡ self.now }
        ensures names { AreNames self.now }
    {
        &self.ids
    }
}
