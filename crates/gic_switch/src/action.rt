//! The fields of one record read as an action.
ghost use Rattle.std.specs.Prelude.{◌≡◌};
ghost use Rattle.csv.specs.Records.{fields_of};
ghost use Rattle.gic_switch.specs.Columns.{is_head, action_in, opens, switching_follows};

use csv::ByteRecord;
use gic_records::{is_word, text_at};

/// What a row does to its item.
#[derive(Clone, Copy, Debug, PartialEq, Eq)]
pub(crate) enum Action {
    /// Opens a line, the windings of a transformer, or the earthing of a substation.
    Open,
    /// Closes one of these.
    Close,
    /// Opens the neutral resistor of a transformer.
    Block,
    /// Closes it.
    Unblock,
}

/// Whether a record is the one that comes first.
pub(crate) fn is_head(columns: &ByteRecord) -> bool
    ensures { result ≡ is_head (fields_of columns.now) }
{
    columns.len() == 3
        && is_word(columns, 0, b"time")
        && is_word(columns, 1, b"item")
        && is_word(columns, 2, b"action")
}

/// Whether a time may follow the one before.
#[tactic(auto, unfolding(crate::specs::Columns::switching_follows))]
pub(crate) fn follows(before: Option<u32>, time: u32) -> bool
    ensures { result ≡ switching_follows before time }
{
    match before {
        None => true,
        Some(before) => before <= time,
    }
}

/// The action of a record.
#[tactic(auto, unfolding(crate::specs::Columns::action_in))]
pub(crate) fn action_in(columns: &ByteRecord) -> Option<Action>
    ensures { result ≡ action_in (fields_of columns.now) }
{
    if is_word(columns, 2, b"open") {
        Some(Action::Open)
    } else if is_word(columns, 2, b"close") {
        Some(Action::Close)
    } else if is_word(columns, 2, b"block") {
        Some(Action::Block)
    } else if is_word(columns, 2, b"unblock") {
        Some(Action::Unblock)
    } else {
        None
    }
}

impl Action {
    /// Whether it opens its item, and does not close it.
    pub(crate) fn opens(self) -> bool
        ensures { result ≡ opens self }
    {
        match self {
            Action::Open | Action::Block => true,
            Action::Close | Action::Unblock => false,
        }
    }
}
