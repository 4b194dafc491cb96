//! The two forms of a storm.
ghost use Rattle.std.specs.Prelude.{◌≡◌};
ghost use Rattle.csv.specs.Records.{fields_of};
ghost use Rattle.gic_storm.specs.Columns.{storm_form_of, width_of, north_place, east_place, follows};

use csv::ByteRecord;
use gic_records::is_word;

/// What the first record tells of the others.
#[derive(Clone, Copy, Debug, PartialEq, Eq)]
pub(crate) enum StormForm {
    /// `time,north,east`: each row is for all zones, and times rise.
    Uniform,
    /// `time,zone,north,east`: each row is for a zone or for all of them, and times do not fall.
    Zoned,
}

/// The form that a first record tells.
#[tactic(auto, unfolding(crate::specs::Columns::storm_form_of))]
pub(crate) fn form_of(columns: &ByteRecord) -> Option<StormForm>
    ensures { result ≡ storm_form_of (fields_of columns.now) }
{
    let len = columns.len();
    if len == 3
        && is_word(columns, 0, b"time")
        && is_word(columns, 1, b"north")
        && is_word(columns, 2, b"east")
    {
        return Some(StormForm::Uniform);
    }
    if len == 4
        && is_word(columns, 0, b"time")
        && is_word(columns, 1, b"zone")
        && is_word(columns, 2, b"north")
        && is_word(columns, 3, b"east")
    {
        return Some(StormForm::Zoned);
    }
    None
}

impl StormForm {
    /// How many fields a record has.
    pub(crate) fn width(self) -> usize
        ensures { result ≡ width_of self }
    {
        match self {
            StormForm::Uniform => 3,
            StormForm::Zoned => 4,
        }
    }

    /// The place of north in a record.
    pub(crate) fn north_place(self) -> usize
        ensures { result ≡ north_place self }
    {
        match self {
            StormForm::Uniform => 1,
            StormForm::Zoned => 2,
        }
    }

    /// The place of east in a record.
    pub(crate) fn east_place(self) -> usize
        ensures { result ≡ east_place self }
    {
        match self {
            StormForm::Uniform => 2,
            StormForm::Zoned => 3,
        }
    }

    /// Whether a time may follow the one before.
    #[tactic(auto, unfolding(crate::specs::Columns::follows))]
    pub(crate) fn follows(self, before: Option<u32>, time: u32) -> bool
        ensures { result ≡ follows self before time }
    {
        match before {
            None => true,
            Some(before) => match self {
                StormForm::Uniform => before < time,
                StormForm::Zoned => before <= time,
            },
        }
    }
}
