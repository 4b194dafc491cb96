//! The report of what is found in a case.
ghost use Rattle.std.specs.Prelude.{◌≡◌, ◌≤◌, ◌+◌, [], ◌∷◌, length, map};
ghost use Rattle.gic_base.specs.Writes.{Writes};
ghost use Rattle.gic_text.specs.Lines.{with_words, line_text, lines_text};
ghost use Rattle.gic_case.specs.ListWord.{list_word};
ghost use Rattle.gic_review.specs.FindingText.{field_word, finding_line};
ghost use Rattle.gic_review.specs.ReviewText.{findings_line, review_report};

use crate::findings::{Finding, Quantity};
use crate::words::{field_word, side_word};
use gic_base::{Name, Sink, WriteFailed, write_all};
use gic_case::CaseList;
use gic_report::write_word;
use gic_text::LineBuilder;

/// Adds to the line of which row a value is, and which of its values.
#[tactic(auto, using(gic_text::proofs::Sizes::line_space))]
fn add_value(list: CaseList, name: &Name, measured: Quantity, line: &mut LineBuilder)
    requires { length line.old.bytes ≤ 400 }
    ensures words { line.new ≡ with_words line.old (list_word list ∷ name.now ∷ field_word measured ∷ []) }
    ensures size { length line.new.bytes ≤ length line.old.bytes + 69 }
{
    line.word(list.word().as_bytes());
    line.word(name.as_bytes());
    line.word(field_word(measured).as_bytes());
}

/// Writes the line of a finding.
#[tactic(auto, using(gic_text::proofs::Sizes::line_space), unfolding(crate::specs::FindingText::finding_line))]
fn write_finding<S: Sink>(
    finding: &Finding,
    line: &mut LineBuilder,
    out: &mut S,
) -> Result<(), WriteFailed>
    ensures { Writes S.written S.faults out.old out.new (line_text (finding_line finding.now)) result }
{
    line.start();
    match finding {
        Finding::Ungrounded { name } => {
            line.word(b"ungrounded");
            line.word(name.as_bytes());
        }
        Finding::Part { nodes, first } => {
            line.word(b"part");
            line.number(i128::from(*nodes));
            line.word(first.as_bytes());
        }
        Finding::Closure { name, north, east } => {
            line.word(b"closure");
            line.word(name.as_bytes());
            line.number(i128::from(*north));
            line.number(i128::from(*east));
        }
        Finding::Value {
            list,
            name,
            measured,
            number,
        } => {
            line.word(b"value");
            add_value(*list, name, *measured, line);
            line.number(i128::from(*number));
        }
        Finding::Alpha { name, latitude } => {
            line.word(b"alpha");
            line.word(name.as_bytes());
            line.number(i128::from(*latitude));
        }
        Finding::Volts {
            name,
            side,
            volts,
            measure,
        } => {
            line.word(b"volts");
            line.word(name.as_bytes());
            line.word(side_word(*side).as_bytes());
            line.number(i128::from(*volts));
            line.number(i128::from(*measure));
        }
        Finding::Outside { name } => {
            line.word(b"outside");
            line.word(name.as_bytes());
        }
    }
    write_all(out, line.finish())
}

/// Writes a line for each finding.
fn write_each<S: Sink>(
    findings: &[Finding],
    line: &mut LineBuilder,
    out: &mut S,
) -> Result<(), WriteFailed>
    ensures { Writes S.written S.faults out.old out.new (lines_text (map finding_line findings.now)) result }
{
    for finding in findings {
        write_finding(finding, line, out)?;
    }
    Ok(())
}

/// Writes how many findings there are.
#[tactic(auto, using(gic_text::proofs::Sizes::line_space))]
fn write_count<S: Sink>(
    count: usize,
    line: &mut LineBuilder,
    out: &mut S,
) -> Result<(), WriteFailed>
    ensures { Writes S.written S.faults out.old out.new (line_text (findings_line count)) result }
{
    line.start();
    line.word(b"findings");
    line.number(count as i128);
    write_all(out, line.finish())
}

/// Writes the whole report.
pub(crate) fn write_review<S: Sink>(
    findings: &[Finding],
    line: &mut LineBuilder,
    out: &mut S,
) -> Result<(), WriteFailed>
    ensures { Writes S.written S.faults out.old out.new (lines_text (review_report findings.now)) result }
{
    write_word(b"review", line, out)?;
    write_each(findings, line, out)?;
    write_count(findings.len(), line, out)?;
    write_word(b"end", line, out)
}
