//! Verdicts, counted.
ghost use Rattle.std.specs.Prelude.{◌≡◌, ◌+◌, ◌<◌, ◌≤◌, length};
ghost use Rattle.gic_text.specs.Lines.{with_words};
ghost use Rattle.gic_report.specs.Counts.{no_counts, counted, total_of, counts_words};

use gic_criteria::Verdict;
use gic_text::LineBuilder;

/// How many transformers have each verdict.
#[derive(Clone, Copy, Debug)]
pub struct Counts {
    pub below: u16,
    pub reaches: u16,
    pub undecided: u16,
    pub outside: u16,
}

/// The counts of no verdict.
pub fn no_counts() -> Counts
    ensures { result ≡ no_counts }
{
    Counts {
        below: 0,
        reaches: 0,
        undecided: 0,
        outside: 0,
    }
}

/// The counts with one verdict more.
pub fn counted(counts: Counts, said: Verdict) -> Counts
    requires { total_of counts < 65535 }
    ensures { result ≡ counted counts said }
{
    match said {
        Verdict::Below => Counts {
            below: counts.below + 1,
            ..counts
        },
        Verdict::Reaches => Counts {
            reaches: counts.reaches + 1,
            ..counts
        },
        Verdict::Undecided => Counts {
            undecided: counts.undecided + 1,
            ..counts
        },
        Verdict::Outside => Counts {
            outside: counts.outside + 1,
            ..counts
        },
    }
}

/// Adds the name and the number of each verdict to the line, which has space for them.
#[tactic(auto, using(gic_text::proofs::Sizes::line_space), unfolding(crate::specs::Counts::counts_words))]
pub fn add_counts(counts: &Counts, line: &mut LineBuilder)
    requires { length line.old.bytes ≤ 300 }
    ensures words { line.new ≡ with_words line.old (counts_words counts.now) }
    ensures size { length line.new.bytes ≤ length line.old.bytes + 196 }
{
    line.word(b"below");
    line.number(i128::from(counts.below));
    line.word(b"reaches");
    line.number(i128::from(counts.reaches));
    line.word(b"undecided");
    line.number(i128::from(counts.undecided));
    line.word(b"outside");
    line.number(i128::from(counts.outside));
}
