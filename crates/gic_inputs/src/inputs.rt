//! What a mode is given, and what a mode over a storm is.
use gic_case::Case;
use gic_criteria::Criteria;
use gic_model::Switching;
use gic_storm::Storm;
use gic_switch::Switchings;

/// What a mode is given: the files that are named, read and accepted, and what is asked of the network, which is what the
/// mode has a use for: a field, criteria, both, or nothing.
pub struct Inputs<Q> {
    pub case: Case,
    /// None where the words name no switchings.
    pub switchings: Option<Switchings>,
    pub question: Q,
}

impl<Q: Drop> Drop for Inputs<Q> {
    /// Lets go of everything, in one step for whoever drops it.
    fn drop(self) {
        let Inputs {
            case: _case,
            switchings: _switchings,
            question: _question,
        } = self;
    }
}

/// What a mode over a storm is given: the files that are named, read and accepted, and what its report goes by.
pub struct StormInputs {
    pub case: Case,
    /// None where the words name no switchings.
    pub switchings: Option<Switchings>,
    pub storm: Storm,
    pub question: Criteria,
}

impl Drop for StormInputs {
    /// Lets go of everything, in one step for whoever drops it.
    fn drop(self) {
        let StormInputs {
            case: _case,
            switchings: _switchings,
            storm: _storm,
            question: _question,
        } = self;
    }
}

impl StormInputs {
    ghost use Rattle.std.specs.Prelude.{◌≡◌};
    ghost use Rattle.gic_inputs.specs.Inputs.{rows_in};

    /// The rows of the switchings, none where there are no switchings.
    pub fn rows(&self) -> &[Switching]
        ensures { result.now ≡ rows_in self.now.switchings }
    {
        match &self.switchings {
            Some(switchings) => switchings.rows(),
            None => &[],
        }
    }
}
