//! The rules of one line of a certificate.
ghost use Rattle.std.specs.Prelude.{◌≡◌, ◌≤◌, List, [], map, codes, IfOk, IfErr, pos, neg_ℤ, unsigned_abs};
ghost use Rattle.gic_base.specs.declared.limits.TheConstants.{MOST_FIELD};
ghost use Rattle.gic_cert.specs.Reading.{word_at, has_word, none_empty, is_only, is_field_line, breaks_field, is_dead_line, is_node_line};
ghost use Rattle.gic_cert.specs.Reading.{breaks_node, node_in, field_part_in, number_or_0, IsFirstOf};
ghost use Rattle.gic_cert.specs.Rows.{row_written, IsNodeRow};

use crate::limits::{MOST_WRITTEN_GUESS, MOST_WRITTEN_NODES, MOST_WRITTEN_RADIUS};
use crate::refusal::CertRefusal;
use crate::rows::{Field, NodeRow};
use gic_base::Name;
use gic_base::limits::{MOST_FIELD, MOST_WALK};
use gic_text::read_wide;

/// The limits of a field's parts, of a guess and of a radius, as they are read.
const MOST_PART: i128 = MOST_FIELD as i128;

const MOST_GUESS: i128 = MOST_WRITTEN_GUESS as i128;

const MOST_RADIUS: i128 = MOST_WRITTEN_RADIUS as i128;

/// A word of a line, empty past its last one.
fn word<'a>(words: &[&'a [u8]], place: usize) -> &'a [u8]
    ensures { result.now ≡ word_at (map (λ w. w.now) words.now) place }
{
    match words.get(place) {
        Some(word) => word,
        None => &[],
    }
}

fn has_word(words: &[&[u8]], place: usize, text: &[u8]) -> bool
    ensures { result ≡ has_word (map (λ w. w.now) words.now) place text.now }
{
    word(words, place) == text
}

fn none_empty(words: &[&[u8]]) -> bool
    ensures { result ≡ none_empty (map (λ w. w.now) words.now) }
{
    for place in 0..words.len() {
        if words[place].is_empty() {
            return false;
        }
    }
    true
}

/// Whether a line is this word alone.
pub(crate) fn is_only(words: &[&[u8]], text: &[u8]) -> bool
    ensures { result ≡ is_only text.now (map (λ w. w.now) words.now) }
{
    words.len() == 1 && has_word(words, 0, text)
}

/// Whether a line has the form of the second one: the number of nodes, and the field.
fn is_field_line(words: &[&[u8]]) -> bool
    ensures { result ≡ is_field_line (map (λ w. w.now) words.now) }
{
    words.len() == 6
        && none_empty(words)
        && has_word(words, 0, b"nodes")
        && has_word(words, 2, b"north")
        && has_word(words, 4, b"east")
}

fn is_dead_line(words: &[&[u8]]) -> bool
    ensures { result ≡ is_dead_line (map (λ w. w.now) words.now) }
{
    words.len() == 3 && has_word(words, 2, b"dead")
}

/// Whether a line has the form of a node's: a live one's with three numbers, or a dead one's.
fn is_node_line(words: &[&[u8]]) -> bool
    ensures { result ≡ is_node_line (map (λ w. w.now) words.now) }
{
    none_empty(words) && has_word(words, 0, b"cert") && (is_dead_line(words) || words.len() == 5)
}

/// What the second line with these words says of the field, over this many nodes.
pub(crate) fn read_field(words: &[&[u8]], count: u16) -> Result<Field, CertRefusal>
    ensures kept { IfOk result (λ field. breaks_field count (map (λ w. w.now) words.now) ≡ []) }
    ensures north { IfOk result (λ field. field.north ≡ number_or_0 (field_part_in (map (λ w. w.now) words.now) 3)) }
    ensures east { IfOk result (λ field. field.east ≡ number_or_0 (field_part_in (map (λ w. w.now) words.now) 5)) }
    ensures range { IfOk result (λ field. (unsigned_abs field.north ≤ MOST_FIELD) × (unsigned_abs field.east ≤ MOST_FIELD)) }
    ensures first { IfErr result (IsFirstOf (breaks_field count (map (λ w. w.now) words.now))) }
{
    if !is_field_line(words) {
        return Err(CertRefusal::Shape { row: 2 });
    }
    let nodes = read_wide(word(words, 1), 0, i128::from(MOST_WRITTEN_NODES));
    let north = read_wide(word(words, 3), -MOST_PART, MOST_PART);
    let east = read_wide(word(words, 5), -MOST_PART, MOST_PART);
    match (nodes, north, east) {
        (Some(nodes), Some(north), Some(east)) => {
            if nodes as u128 != u128::from(count) {
                return Err(CertRefusal::Number { row: 2 });
            }
            Ok(Field {
                north: north as i32,
                east: east as i32,
            })
        }
        _ => Err(CertRefusal::Number { row: 2 }),
    }
}

/// What the line of a node with these words says.
pub(crate) fn read_node(
    words: &[&[u8]],
    row: u32,
    name: &Name,
    live: bool,
) -> Result<NodeRow, CertRefusal>
    ensures kept { IfOk result (λ node. breaks_node row (name.now, live) (map (λ w. w.now) words.now) ≡ []) }
    ensures value { IfOk result (λ node. row_written node ≡ node_in (map (λ w. w.now) words.now)) }
    ensures range { IfOk result IsNodeRow }
    ensures first { IfErr result (IsFirstOf (breaks_node row (name.now, live) (map (λ w. w.now) words.now))) }
{
    if !is_node_line(words) {
        return Err(CertRefusal::Shape { row });
    }
    if is_dead_line(words) {
        if !has_word(words, 1, name.as_bytes()) || live {
            return Err(CertRefusal::Node { row });
        }
        return Ok(NodeRow {
            entry: 0,
            guess: 0,
            radius: 0,
        });
    }
    let entry = read_wide(word(words, 2), 1, i128::from(MOST_WALK));
    let guess = read_wide(word(words, 3), -MOST_GUESS, MOST_GUESS);
    let radius = read_wide(word(words, 4), 0, MOST_RADIUS);
    match (entry, guess, radius) {
        (Some(entry), Some(guess), Some(radius)) => {
            if !has_word(words, 1, name.as_bytes()) || !live {
                return Err(CertRefusal::Node { row });
            }
            Ok(NodeRow {
                entry: entry as u16,
                guess,
                radius: radius as u128,
            })
        }
        _ => Err(CertRefusal::Number { row }),
    }
}
