//! Two nets of one network.
ghost use Rattle.gic_grounds.specs.Modest.{AreModestNetworks};

use gic_net::Net;

/// A network twice: with each ground at the least resistance of its range, and with each at its greatest.
pub struct GroundNets {
    pub least: Net,
    pub most: Net,
    pub ghost modest: { AreModestNetworks least.network most.network },
}

impl Drop for GroundNets {
    /// Lets go of everything, in one step for whoever drops it.
    fn drop(self) {
        let GroundNets {
            least: _least,
            most: _most,
        } = self;
    }
}

impl GroundNets {
    ghost use Rattle.std.specs.Prelude.{◌≡◌};

    /// The net with the grounds at their greatest.
    pub(crate) fn most(&self) -> &Net
        ensures { result.now ≡ self.now.most }
    {
        &self.most
    }
}
