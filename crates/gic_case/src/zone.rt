//! Zones, in each of which the field is uniform.
ghost use Rattle.std.specs.Prelude.{◌≡◌, ◌*◌, ◌≤◌};
ghost use Rattle.gic_case.specs.Alpha.{alpha_of};

use crate::alpha::alpha_tenths;
use crate::scaling::Scaling;
use gic_base::Name;
use std::marker::Model;

/// A part of the network in which the field is uniform, with how strong it is there.
#[derive(Clone, Copy)]
pub struct Zone {
    pub name: Name,
    pub scaling: Scaling,
}

impl Model for Zone {
    ghost use Rattle.gic_case.specs.ZoneView.{ZoneView, IsZone};

    ghost Value = { ZoneView };

    ghost view = { λ z. record { name = z.name; scaling = z.scaling } };

    ghost invariant = { λ z. IsZone (record { name = z.name; scaling = z.scaling }) };

    ghost inverse = { λ z. record { name = z.name; scaling = z.scaling } };
}

impl Zone {
    ghost use Rattle.gic_case.specs.ZoneView.{factor_of, IsZone};

    /// Alpha times beta, or the scale that stands in its place, in thousandths from 1 to 1500.
    pub fn factor(&self) -> u16
        ensures value { result ≡ factor_of self.now }
        ensures least { 1 ≤ result }
        ensures most { result ≤ 1500 }
        ensures zone { IsZone self.now }
    {
        match self.scaling {
            Scaling::Earth { latitude, beta } => {
                u16::from(alpha_tenths(latitude)) * u16::from(beta)
            }
            Scaling::Factor(thousandths) => thousandths,
        }
    }
}
