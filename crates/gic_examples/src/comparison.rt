//! Lines that were written, against lines that were wanted.

/// The interval behind these words, and what is behind it.
fn interval<'a>(line: &'a str, words: &str) -> Option<(i64, i64, &'a str)> {
    let rest = line.strip_prefix(words)?.strip_prefix(" ")?;
    let (low, rest) = rest.split_once(' ')?;
    let (high, word) = rest.split_once(' ').unwrap_or((rest, ""));
    Some((low.parse::<i64>().ok()?, high.parse::<i64>().ok()?, word))
}

/// Whether an interval holds a fraction, and is at most so wide.
fn holds(low: i64, high: i64, numerator: i64, denominator: i64, width: i64) -> bool {
    low.saturating_mul(denominator) <= numerator
        && numerator <= high.saturating_mul(denominator)
        && high.saturating_sub(low) <= width
}

/// Whether a word is one of those that are wanted, with `|` between them.
fn is_one_of(word: &str, wanted: &str) -> bool {
    wanted.split('|').any(|one| one == word)
}

/// The low end of an interval behind the words that holds the fraction and is at most so wide, as `FRACTION WORDS` asks, and
/// what is behind it.
fn behind<'a>(line: &'a str, wanted: &str, width: i64) -> Option<(i64, &'a str)> {
    let (fraction, words) = wanted.split_once(' ')?;
    let (numerator, denominator) = fraction.split_once('/').unwrap_or((fraction, "1"));
    let (numerator, denominator) = (
        numerator.parse::<i64>().ok()?,
        denominator.parse::<i64>().ok()?,
    );
    let (low, high, rest) = interval(line, words)?;
    if holds(low, high, numerator, denominator, width) {
        Some((low, rest))
    } else {
        None
    }
}

/// The same where one or two such demands stand behind one another, with ` ~ ` between them: the last low end.
fn behind_two<'a>(line: &'a str, wanted: &str, width: i64) -> Option<(i64, &'a str)> {
    match wanted.split_once(" ~ ") {
        None => behind(line, wanted, width),
        Some((first, second)) => {
            let (_, rest) = behind(line, first, width)?;
            behind(rest, second, width)
        }
    }
}

/// The same of up to three.
fn behind_all<'a>(line: &'a str, wanted: &str, width: i64) -> Option<(i64, &'a str)> {
    match wanted.split_once(" ~ ") {
        None => behind(line, wanted, width),
        Some((first, others)) => {
            let (_, rest) = behind(line, first, width)?;
            behind_two(rest, others, width)
        }
    }
}

/// Whether a word is the verdict on a current that is just the threshold, in an interval that begins at `low`.
fn is_verdict_at(word: &str, low: i64, threshold: &str) -> bool {
    match threshold.parse::<i64>() {
        Ok(threshold) if threshold <= low => word == "reaches",
        Ok(_) => word == "undecided",
        Err(_) => false,
    }
}

/// Whether a line has words and an interval, up to three times, and a word at its end, as `FRACTION WORDS ~ FRACTION WORDS :
/// WORD` asks, with intervals that hold the fractions and are at most so wide. It isn't where a number can't be read.
pub(crate) fn is_enclosure(line: &str, wanted: &str, width: i64) -> bool {
    let (parts, verdict) = wanted.split_once(" : ").unwrap_or((wanted, ""));
    match (behind_all(line, parts, width), verdict.strip_prefix("at ")) {
        (Some((low, word)), Some(threshold)) => is_verdict_at(word, low, threshold),
        (Some((_, word)), None) => is_one_of(word, verdict),
        (None, _) => false,
    }
}
