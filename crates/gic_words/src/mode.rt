//! The table of modes: the word of each, and the options that it has a use for.
ghost use Rattle.std.specs.Prelude.{◌≡◌, map, option_map};
ghost use Rattle.gic_words.specs.Table.{mode_rows, row_named, use_of};
ghost use Rattle.gic_words.specs.Seen.{row_seen};

use crate::option::Opt;

/// A mode over the network of a case with all rows of the switchings in force, which is asked a field and criteria, or has no
/// use for one of them. All that is read for such a mode is the case and the switchings.
#[derive(Clone, Copy, Debug, PartialEq, Eq)]
pub enum NetworkMode {
    /// The voltage of each line in one field.
    Volts,
    /// The elements of the direct-current network.
    List,
    /// The live and the dead nodes, where each live one is earthed.
    Check,
    /// Potentials and currents in one field, with verdicts.
    Field,
    /// The worst orientation of the event's uniform field for each transformer, with verdicts.
    Screen,
    /// A certificate of the potentials in one field, which can be checked without solving.
    Certify,
    /// The worst orientations once more without each line and without each transformer, one at a time.
    Outage,
    /// What the case says that its writer may not have meant.
    Review,
}

/// What words may ask for.
#[derive(Clone, Copy, Debug, PartialEq, Eq)]
pub enum Mode {
    /// A report over the network of a case.
    Network(NetworkMode),
    /// A storm over the network of a case, with the switchings in its course: peaks and verdicts.
    Study,
    /// A summary of a made case in the field of the benchmark event.
    Make,
    /// The potentials that a certificate shows of the network of a case.
    Recheck,
    /// One transformer at each step of a storm over the network of a case, with the switchings in its course.
    Series,
    /// The worst orientations in all networks whose grounds lie within a tolerance, with verdicts.
    Robust,
}

/// Whether a mode has a use for an option.
#[derive(Clone, Copy, Debug)]
pub(crate) enum Use {
    /// It has to be given.
    Required,
    /// It may be given.
    Allowed,
    /// It may not be given.
    Unused,
}

/// A mode, and what words say of it.
pub(crate) struct ModeRow {
    pub(crate) mode: Mode,
    /// The word that asks for it.
    word: &'static str,
    /// The options that it requires.
    required: &'static [Opt],
    /// The further options that it may have.
    allowed: &'static [Opt],
}

/// One row a mode.
static ROWS: [ModeRow; 13] = [
    ModeRow {
        mode: Mode::Network(NetworkMode::Volts),
        word: "volts",
        required: &[Opt::Case],
        allowed: &[Opt::North, Opt::East],
    },
    ModeRow {
        mode: Mode::Network(NetworkMode::List),
        word: "list",
        required: &[Opt::Case],
        allowed: &[],
    },
    ModeRow {
        mode: Mode::Network(NetworkMode::Check),
        word: "check",
        required: &[Opt::Case],
        allowed: &[Opt::Switch],
    },
    ModeRow {
        mode: Mode::Network(NetworkMode::Field),
        word: "field",
        required: &[Opt::Case],
        allowed: &[Opt::North, Opt::East, Opt::Switch, Opt::Width, Opt::Event],
    },
    ModeRow {
        mode: Mode::Network(NetworkMode::Screen),
        word: "screen",
        required: &[Opt::Case],
        allowed: &[Opt::Switch, Opt::Width, Opt::Event],
    },
    ModeRow {
        mode: Mode::Network(NetworkMode::Certify),
        word: "certify",
        required: &[Opt::Case],
        allowed: &[Opt::North, Opt::East, Opt::Switch],
    },
    ModeRow {
        mode: Mode::Network(NetworkMode::Outage),
        word: "outage",
        required: &[Opt::Case],
        allowed: &[Opt::Switch, Opt::Width, Opt::Event],
    },
    ModeRow {
        mode: Mode::Study,
        word: "study",
        required: &[Opt::Case, Opt::Storm],
        allowed: &[Opt::Switch, Opt::Width, Opt::Detail, Opt::Event],
    },
    ModeRow {
        mode: Mode::Make,
        word: "make",
        required: &[Opt::Seed, Opt::Size],
        allowed: &[],
    },
    ModeRow {
        mode: Mode::Recheck,
        word: "recheck",
        required: &[Opt::Case, Opt::Cert],
        allowed: &[Opt::Switch],
    },
    ModeRow {
        mode: Mode::Series,
        word: "series",
        required: &[Opt::Case, Opt::Storm, Opt::Transformer],
        allowed: &[Opt::Switch, Opt::Width],
    },
    ModeRow {
        mode: Mode::Network(NetworkMode::Review),
        word: "review",
        required: &[Opt::Case],
        allowed: &[],
    },
    ModeRow {
        mode: Mode::Robust,
        word: "robust",
        required: &[Opt::Case, Opt::Tolerance],
        allowed: &[Opt::Switch, Opt::Width, Opt::Event],
    },
];

/// The rows of the table.
fn rows() -> &'static [ModeRow]
    ensures { map row_seen result.now ≡ mode_rows }
{
    &ROWS
}

impl ModeRow {
    /// The row of the mode that a word names.
    #[tactic(auto, unfolding(crate::specs::Table::row_named))]
    pub(crate) fn named(word: &str) -> Option<&'static ModeRow>
        ensures { option_map (λ r. row_seen r.now) result ≡ row_named word.now }
    {
        for row in rows() {
            if row.word == word {
                return Some(row);
            }
        }
        None
    }

    /// What use the mode has for an option.
    #[tactic(auto, unfolding(crate::specs::Table::use_of))]
    pub(crate) fn use_of(&self, option: Opt) -> Use
        ensures { result ≡ use_of (row_seen self.now) option }
    {
        if option.is_among(self.required) {
            Use::Required
        } else if option.is_among(self.allowed) {
            Use::Allowed
        } else {
            Use::Unused
        }
    }
}
