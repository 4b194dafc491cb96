//! How far a text is read: up to the first record that is too wide for any row.
ghost use Rattle.std.specs.Prelude.{◌≡◌, ◌≤◌, length};
ghost use Rattle.csv.specs.Machine.{in_field, start_field, start_record, step};
ghost use Rattle.csv.specs.Reading.{default_config};
ghost use Rattle.csv.specs.declared.parser.State.TheVariants.{StartRecord};
ghost use Rattle.gic_records.specs.Prefix.{state_of, action_of, ended_after, ends_wide, prefix_len, mark_len};
ghost use Rattle.gic_records.specs.Records.{records_of};
ghost use Rattle.gic_records.specs.Wide.{up_to_wide};

/// The most fields that a record has in any of the forms that are read: `time,zone,north,east`.
pub const MOST_COLUMNS: usize = 4;

/// Where a byte stands.
#[derive(Clone, Copy)]
pub(crate) enum Place {
    /// Before a record.
    Between,
    /// Before a record, behind a carriage return. What follows reads as from `Between`, but `csv` has a state for each.
    AfterReturn,
    /// Before a field.
    FieldStart,
    /// In a field without quotes.
    Plain,
    /// Between quotes.
    Quoted,
    /// Behind a quote that closes a field, or is the first of two.
    AfterQuote,
}

/// What a byte is.
#[derive(Clone, Copy)]
pub(crate) enum Part {
    /// Of no field: a quote around a field, the first of two quotes, or the end of a line between records.
    Skipped,
    /// Of the text of a field.
    Text,
    /// The comma behind a field.
    FieldEnd,
    /// The end of a record, and of its last field.
    RecordEnd,
}

/// What a byte is in a field without quotes or behind one with them, and where the next one stands.
fn step_in_field(byte: u8) -> (Place, Part)
    ensures { in_field default_config byte ≡ (state_of result.0, action_of result.1) }
{
    match byte {
        b',' => (Place::FieldStart, Part::FieldEnd),
        b'\r' => (Place::AfterReturn, Part::RecordEnd),
        b'\n' => (Place::Between, Part::RecordEnd),
        _ => (Place::Plain, Part::Text),
    }
}

/// What a byte is at the start of a field, and where the next one stands.
fn step_at_start(byte: u8) -> (Place, Part)
    ensures { start_field default_config byte ≡ (state_of result.0, action_of result.1) }
{
    if byte == b'"' {
        (Place::Quoted, Part::Skipped)
    } else {
        step_in_field(byte)
    }
}

/// What a byte is between two records, and where the next one stands.
fn step_between(byte: u8) -> (Place, Part)
    ensures { start_record default_config byte ≡ (state_of result.0, action_of result.1) }
{
    if byte == b'\r' || byte == b'\n' {
        (Place::Between, Part::Skipped)
    } else {
        step_at_start(byte)
    }
}

/// What a byte is at a place, and where the next one stands.
fn step(place: Place, byte: u8) -> (Place, Part)
    ensures { step default_config (state_of place) byte ≡ (state_of result.0, action_of result.1) }
{
    match place {
        Place::Between | Place::AfterReturn => step_between(byte),
        Place::FieldStart => step_at_start(byte),
        Place::Plain => step_in_field(byte),
        Place::Quoted => {
            if byte == b'"' {
                (Place::AfterQuote, Part::Skipped)
            } else {
                (Place::Quoted, Part::Text)
            }
        }
        Place::AfterQuote => {
            if byte == b'"' {
                (Place::Quoted, Part::Text)
            } else {
                step_in_field(byte)
            }
        }
    }
}

/// Whether a byte ends one field more than [`MOST_COLUMNS`], where this many of the record have ended before it.
fn ends_wide(part: Part, ended: usize) -> bool
    ensures { result ≡ ends_wide (action_of part) ended }
{
    match part {
        Part::FieldEnd | Part::RecordEnd => ended == MOST_COLUMNS,
        Part::Skipped | Part::Text => false,
    }
}

/// How many fields of the record have ended after a byte, where this many had before it: none where it ends the record.
fn ended_after(part: Part, ended: usize) -> usize
    requires { ended ≤ MOST_COLUMNS }
    ensures { result ≡ ended_after (action_of part) ended }
{
    match part {
        Part::FieldEnd => ended + 1,
        Part::RecordEnd => 0,
        Part::Skipped | Part::Text => ended,
    }
}

/// How many bytes come before the one that ends one field more than [`MOST_COLUMNS`] of a record: all where none does.
fn prefix_len(text: &[u8]) -> usize
    ensures value { result ≡ prefix_len StartRecord 0 text.now }
    ensures within { result ≤ length text.now }
{
    let mut place = Place::Between;
    let mut ended = 0;
    for (i, byte) in text.iter().enumerate() {
        let (next, part) = step(place, *byte);
        if ends_wide(part, ended) {
            return i;
        }
        ended = ended_after(part, ended);
        place = next;
    }
    text.len()
}

/// How many bytes the byte order mark has at the start of a text: none where there is no mark.
fn mark_len(text: &[u8]) -> usize
    ensures value { result ≡ mark_len text.now }
    ensures within { result ≤ length text.now }
{
    match text {
        [0xEF, 0xBB, 0xBF, ..] => 3,
        _ => 0,
    }
}

/// The prefix of a text: its records up to the first with more than [`MOST_COLUMNS`] fields, and of that one only one
/// field more than these.
pub(crate) fn prefix(text: &[u8]) -> &[u8]
    ensures { records_of result.now ≡ up_to_wide (records_of text.now) }
{
    let mark = mark_len(text);
    &text[..mark + prefix_len(&text[mark..])]
}
