//! How the steps of an epoch are shown, and what is ready for them.
ghost use Rattle.std.specs.Prelude.{◌≡◌, ◌≤◌};
ghost use Rattle.gic_course.specs.Ways.{way_by_count, way_after};

use gic_switch::Epoch;

/// How the steps of an epoch are shown.
#[derive(Clone, Copy, Debug, PartialEq, Eq)]
pub(crate) enum Way {
    /// Each is solved by itself.
    Solve,
    /// They are superposed from certified base fields, which take two solves for each zone before the first of them.
    Superpose,
}

impl Way {
    /// The way that takes the fewer solves, where no base fields are certified yet; without space for these it is to
    /// solve.
    pub(crate) fn by_count(epoch: Epoch, zones: u16, superposes: bool) -> Way
        requires { epoch.first ≤ epoch.last }
        ensures { result ≡ way_by_count epoch zones superposes }
    {
        if !superposes || epoch.last - epoch.first < 2 * u32::from(zones) {
            Way::Solve
        } else {
            Way::Superpose
        }
    }
}

/// What is ready: the epoch whose switchings are in force, and how its steps are shown.
#[derive(Clone, Copy, Debug, PartialEq, Eq)]
pub(crate) struct Ready {
    pub(crate) epoch: Epoch,
    pub(crate) way: Way,
}

/// The way for which all stays ready, after a switch that changed the net or didn't.
pub(crate) fn way_after(changed: bool, ready: Option<Ready>) -> Option<Way>
    ensures { result ≡ way_after changed ready }
{
    if changed {
        return None;
    }
    match ready {
        Some(ready) => Some(ready.way),
        None => None,
    }
}
