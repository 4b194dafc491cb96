//! The windings of each kind of transformer. What has to be known of a kind besides is whether its core has an effective
//! current.
ghost use Rattle.std.specs.Prelude.{◌≡◌, ◌≤◌, [], ◌∷◌, length};
ghost use Rattle.gic_case.specs.Windings.{terminal, between, to_neutral, third_windings};
ghost use Rattle.gic_case.specs.Windings.{windings_of, has_windings, end_volts, volts_across};
ghost use Rattle.gic_case.specs.Lists.{has_effect};

use crate::item::Transformer;
use crate::kind::{Kind, Third};
use crate::winding::{Terminal, Winding, WindingEnd, WindingRole};
use std::marker::Model;

/// The windings of a transformer that carry direct current, in the order of the element list: at most three.
#[derive(Drop)]
pub struct Windings {
    list: [Winding; 3],
    count: usize,
}

impl Model for Windings {
    ghost use Rattle.std.specs.Prelude.{◌≤◌, List, take};
    ghost use Rattle.gic_case.specs.declared.winding.Winding.{Winding};

    ghost Value = { List Winding };

    ghost view = { λ a. take a.count a.list };

    ghost invariant = { λ a. a.count ≤ 3 };
}

impl Windings {
    /// No winding.
    fn none() -> Windings
        ensures { result ≡ [] }
    {
        let nothing = to_neutral(WindingRole::High, terminal(0, 0), 0);
        Windings {
            list: [nothing, nothing, nothing],
            count: 0,
        }
    }

    /// One winding.
    fn one(only: Winding) -> Windings
        ensures { result ≡ only ∷ [] }
    {
        Windings {
            list: [only, only, only],
            count: 1,
        }
    }

    /// Two windings, and a third one if there is one.
    fn several(first: Winding, second: Winding, third: Option<Third<u16>>) -> Windings
        ensures { result ≡ first ∷ second ∷ third_windings third }
    {
        match third {
            Some(third) => {
                let from = terminal(third.bus, third.volts);
                Windings {
                    list: [
                        first,
                        second,
                        to_neutral(WindingRole::Third, from, third.resistance),
                    ],
                    count: 3,
                }
            }
            None => Windings {
                list: [first, second, second],
                count: 2,
            },
        }
    }

    /// The windings.
    pub fn as_slice(&self) -> &[Winding]
        ensures value { result.now ≡ self.now }
        ensures few { length result.now ≤ 3 }
    {
        &self.list[..self.count]
    }
}

/// The terminal at the bus at a place, with the rated voltage of its side.
fn terminal(bus: u16, volts: u32) -> Terminal
    ensures { result ≡ terminal bus volts }
{
    Terminal { bus, volts }
}

/// A winding from one terminal to another.
fn between(role: WindingRole, from: Terminal, to: Terminal, resistance: u32) -> Winding
    ensures { result ≡ between role from to resistance }
{
    Winding {
        role,
        from,
        to: WindingEnd::Bus(to),
        resistance,
    }
}

/// A winding from a terminal to the neutral.
fn to_neutral(role: WindingRole, from: Terminal, resistance: u32) -> Winding
    ensures { result ≡ to_neutral role from resistance }
{
    Winding {
        role,
        from,
        to: WindingEnd::Neutral,
        resistance,
    }
}

impl Transformer {
    /// The windings of the transformer, from its kind.
    pub fn windings(&self) -> Windings
        ensures { result ≡ windings_of self.now }
    {
        let high_volts = self.high_volts;
        match self.kind {
            Kind::DeltaWye {
                high,
                high_resistance,
            } => {
                let high = terminal(high, high_volts);
                Windings::one(to_neutral(WindingRole::High, high, high_resistance))
            }
            Kind::WyeWye {
                high,
                low,
                low_volts,
                high_resistance,
                low_resistance,
                third,
            } => {
                let high = terminal(high, high_volts);
                let low = terminal(low, low_volts);
                let first = to_neutral(WindingRole::High, high, high_resistance);
                let second = to_neutral(WindingRole::Low, low, low_resistance);
                Windings::several(first, second, third)
            }
            Kind::Auto {
                high,
                low,
                low_volts,
                series_resistance,
                common_resistance,
                third,
            } => {
                let high = terminal(high, high_volts);
                let low = terminal(low, low_volts);
                let series = between(WindingRole::Series, high, low, series_resistance);
                let common = to_neutral(WindingRole::Common, low, common_resistance);
                Windings::several(series, common, third)
            }
            Kind::Reactor {
                high,
                high_resistance,
            } => {
                let high = terminal(high, high_volts);
                Windings::one(to_neutral(WindingRole::High, high, high_resistance))
            }
            Kind::DeltaDelta => Windings::none(),
        }
    }

    /// Whether the transformer has a winding that carries direct current.
    #[tactic(auto, using(crate::proofs::SoundWindings::some_first))]
    pub fn has_windings(&self) -> bool
        ensures { result ≡ has_windings self.now }
    {
        let windings = self.windings();
        !windings.as_slice().is_empty()
    }
}

impl<Bus> Kind<Bus> {
    /// Whether the core of a unit of the kind has an effective current here: not that of a reactor, nor of a delta-delta
    /// unit.
    pub fn has_effect(&self) -> bool
        ensures { result ≡ has_effect self.now }
    {
        match *self {
            Kind::DeltaWye { .. } | Kind::WyeWye { .. } | Kind::Auto { .. } => true,
            Kind::Reactor { .. } | Kind::DeltaDelta => false,
        }
    }
}

impl WindingEnd {
    /// The rated voltage of the side where a winding ends, in V, and 0 at the neutral.
    fn volts(&self) -> u32
        ensures { result ≡ end_volts self.now }
    {
        match *self {
            WindingEnd::Bus(to) => to.volts,
            WindingEnd::Neutral => 0,
        }
    }
}

impl Winding {
    /// The rated voltage across the winding in V: that of the side from which it runs, less that of the side where it
    /// ends.
    pub fn volts_across(&self) -> u32
        ensures { result ≡ volts_across self.now }
    {
        self.from.volts.saturating_sub(self.to.volts())
    }
}
