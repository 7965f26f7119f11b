//! Places of the network.
ghost use Rattle.std.specs.Prelude.{◌≡◌, IfOk};

use mos_fields::{NoMemory, Text};

/// Where a peer listens.
#[derive(Drop)]
pub struct Place {
    /// the machine, by its name or address
    pub host: Text,
    /// the TCP port
    pub port: u16,
}

impl Place {
    /// The same place again, in memory of its own. The only error is that memory runs out.
    pub fn try_clone(&self) -> Result<Self, NoMemory>
        ensures { IfOk result (λ place. place ≡ self.now) }
    {
        Ok(Place {
            host: self.host.try_clone()?,
            port: self.port,
        })
    }
}
