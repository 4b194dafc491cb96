//! Bytes cut into lines, and lines into words.
ghost use Rattle.std.specs.Prelude.{◌≡◌, ◌+◌, ◌<◌, [], ◌∷◌, ◌==◌, length, map, take, drop, IfOk, IfSome, IfNone, if◌then◌else◌};
ghost use Rattle.gic_cert.specs.Cuts.{words_from, words_of, lines_cut};

use crate::limits::MOST_WORDS;
use std::alloc::{AllocError, Global};

/// Where the first line of a text ends. None where no line of it ends.
fn line_end(text: &[u8]) -> Option<usize>
    ensures inside { IfSome result (λ end. end < length text.now) }
    ensures some { IfSome result (λ end. lines_cut text.now ≡ words_of (take end text.now) ∷ lines_cut (drop (end + 1) text.now)) }
    ensures none { IfNone result (lines_cut text.now ≡ (if length text.now == 0 then [] else [] ∷ [])) }
{
    for place in 0..text.len() {
        if text[place] == b'\n' {
            return Some(place);
        }
    }
    None
}

/// Where the first word of a line ends that is not its last. None where it has one word.
fn word_end(line: &[u8]) -> Option<usize>
    ensures inside { IfSome result (λ end. end < length line.now) }
    ensures some { IfSome result (λ end. words_from [] line.now ≡ take end line.now ∷ words_from [] (drop (end + 1) line.now)) }
    ensures none { IfNone result (words_from [] line.now ≡ line.now ∷ []) }
{
    for place in 0..line.len() {
        if line[place] == b' ' {
            return Some(place);
        }
    }
    None
}

/// The words of a line, as far as they are looked at.
fn words_in(alloc: Global, line: &[u8]) -> Result<Vec<&[u8]>, AllocError>
    ensures { IfOk result (λ words. map (λ w. w.now) words.items ≡ words_of line.now) }
{
    let mut words = Vec::new(alloc);
    let mut left = line;
    for turn in 0..MOST_WORDS {
        match word_end(left) {
            None => {
                words.push(left)?;
                return Ok(words);
            }
            Some(end) => {
                words.push(&left[..end])?;
                left = &left[end + 1..];
            }
        }
    }
    Ok(words)
}

/// The words of a line, and the text behind it.
#[derive(Drop)]
pub(crate) struct Line<'a> {
    pub(crate) words: Vec<&'a [u8]>,
    pub(crate) left: &'a [u8],
}

/// The first line of a text; one without its end has no words.
pub(crate) fn next_line(alloc: Global, text: &[u8]) -> Result<Line<'_>, AllocError>
    requires { 0 < length text.now }
    ensures { IfOk result (λ line. lines_cut text.now ≡ map (λ w. w.now) line.words.items ∷ lines_cut line.left.now) }
{
    match line_end(text) {
        None => Ok(Line {
            words: Vec::new(alloc),
            left: &[],
        }),
        Some(end) => {
            let words = words_in(alloc, &text[..end])?;
            Ok(Line {
                words,
                left: &text[end + 1..],
            })
        }
    }
}
