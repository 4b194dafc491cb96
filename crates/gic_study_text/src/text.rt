//! The report of a study.
ghost use Rattle.std.specs.Prelude.{◌≡◌, ◌+◌, ◌<◌, map, length};
ghost use Rattle.gic_base.specs.Writes.{Writes};
ghost use Rattle.gic_induce.specs.Fields.{zone_field};
ghost use Rattle.gic_text.specs.Lines.{line_text, lines_text};
ghost use Rattle.gic_study_text.specs.StudyText.{study_setting_line, detail_step_line, zone_line, zone_lines, detail_lines, detail_block};
ghost use Rattle.gic_study_text.specs.StudyText.{peak_lines, study_lines, monitor_line, monitor_text, monitor_texts, study_text};
ghost use Rattle.gic_study_text.specs.Given.{lent, lent_detail, HasZonesOf, HasZones};

use gic_base::{Name, Sink, WriteFailed, write_all};
use gic_case::{Case, Zone};
use gic_induce::Fields;
use gic_report::{write_absolutes, write_nodes, write_rows, write_signed, write_word};
use gic_text::LineBuilder;
use gic_view::StepView;

/// What is asked: the width of intervals in mV and mA, the threshold in mA per phase, and how many steps the storm has.
#[derive(Clone, Copy, Debug)]
pub struct Setting {
    pub width: u32,
    pub threshold: u32,
    pub steps: u32,
}

/// A step in detail: the field of each zone, and the view of the step, with its number and its time.
#[derive(Clone, Copy)]
pub struct Detail<'a> {
    pub fields: &'a Fields,
    pub view: &'a StepView,
}

/// Writes the line of what is asked.
#[tactic(auto, using(gic_text::proofs::Sizes::line_space))]
fn write_setting<S: Sink>(
    setting: &Setting,
    line: &mut LineBuilder,
    out: &mut S,
) -> Result<(), WriteFailed>
    ensures { Writes S.written S.faults out.old out.new
        (line_text (study_setting_line setting.now.width setting.now.threshold setting.now.steps)) result }
{
    line.start();
    line.word(b"width");
    line.number(i128::from(setting.width));
    line.word(b"threshold");
    line.number(i128::from(setting.threshold));
    line.word(b"steps");
    line.number(i128::from(setting.steps));
    write_all(out, line.finish())
}

/// Writes the line of a step.
#[tactic(auto, using(gic_text::proofs::Sizes::line_space))]
fn write_step<S: Sink>(
    view: &StepView,
    line: &mut LineBuilder,
    out: &mut S,
) -> Result<(), WriteFailed>
    ensures { Writes S.written S.faults out.old out.new (line_text (detail_step_line view.now.number view.now.time)) result }
{
    line.start();
    line.word(b"step");
    line.number(i128::from(view.number()));
    line.word(b"time");
    line.number(i128::from(view.time()));
    write_all(out, line.finish())
}

/// Writes the line of a zone, by its name and its place.
#[tactic(auto, using(gic_text::proofs::Sizes::line_space))]
fn write_zone<S: Sink>(
    name: &Name,
    fields: &Fields,
    zone: u16,
    line: &mut LineBuilder,
    out: &mut S,
) -> Result<(), WriteFailed>
    requires { zone < length fields.now }
    ensures { Writes S.written S.faults out.old out.new (line_text (zone_line name.now (zone_field fields.now zone))) result }
{
    let (north, east) = fields.get(zone);
    line.start();
    line.word(b"zone");
    line.word(name.as_bytes());
    line.word(b"north");
    line.number(i128::from(north));
    line.word(b"east");
    line.number(i128::from(east));
    write_all(out, line.finish())
}

/// Writes a line for each zone.
fn write_zones<S: Sink>(
    zones: &[Zone],
    fields: &Fields,
    line: &mut LineBuilder,
    out: &mut S,
) -> Result<(), WriteFailed>
    requires { length fields.now ≡ length zones.now }
    ensures { Writes S.written S.faults out.old out.new (lines_text (zone_lines zones.now fields.now)) result }
{
    for place in 0..fields.zones() {
        let zone = &zones[place as usize];
        write_zone(&zone.name, fields, place, line, out)?;
    }
    Ok(())
}

/// Writes a step in detail.
fn write_detail<S: Sink>(
    case: &Case,
    detail: Detail<'_>,
    line: &mut LineBuilder,
    out: &mut S,
) -> Result<(), WriteFailed>
    requires { HasZonesOf case.now (lent detail) }
    ensures { Writes S.written S.faults out.old out.new (lines_text (detail_lines case.now (lent detail.entry))) result }
{
    write_step(detail.view, line, out)?;
    write_zones(case.zones(), detail.fields, line, out)?;
    write_signed(case, detail.view, line, out)
}

/// Writes a step in detail, if there is one.
fn write_detail_block<S: Sink>(
    case: &Case,
    detail: Option<Detail<'_>>,
    line: &mut LineBuilder,
    out: &mut S,
) -> Result<(), WriteFailed>
    requires { HasZones case.now (lent_detail detail) }
    ensures { Writes S.written S.faults out.old out.new (lines_text (detail_block case.now (lent_detail detail.entry))) result }
{
    match detail {
        None => Ok(()),
        Some(detail) => write_detail(case, detail, line, out),
    }
}

/// Writes the nodes, the rows and the transformers of the peaks.
fn write_peaks<S: Sink>(
    case: &Case,
    threshold: u32,
    peaks: &StepView,
    line: &mut LineBuilder,
    out: &mut S,
) -> Result<(), WriteFailed>
    ensures { Writes S.written S.faults out.old out.new (lines_text (peak_lines case.now threshold peaks.now)) result }
{
    write_nodes(case, peaks, line, out)?;
    write_rows(case, peaks, line, out)?;
    write_absolutes(case.transformers(), peaks, threshold, line, out)
}

/// Writes all lines in front of the monitors.
fn write_lines<S: Sink>(
    case: &Case,
    setting: &Setting,
    detail: Option<Detail<'_>>,
    peaks: &StepView,
    line: &mut LineBuilder,
    out: &mut S,
) -> Result<(), WriteFailed>
    requires { HasZones case.now (lent_detail detail) }
    ensures { Writes S.written S.faults out.old out.new
        (lines_text (study_lines case.now setting.now.width setting.now.threshold setting.now.steps (lent_detail detail.entry) peaks.now)) result }
{
    write_word(b"study", line, out)?;
    write_setting(setting, line, out)?;
    write_detail_block(case, detail, line, out)?;
    write_word(b"peaks", line, out)?;
    write_peaks(case, setting.threshold, peaks, line, out)
}

/// Writes the line in front of a monitor's text.
#[tactic(auto, using(gic_text::proofs::Sizes::line_space))]
fn write_monitor_line<S: Sink>(
    number: u64,
    size: u64,
    line: &mut LineBuilder,
    out: &mut S,
) -> Result<(), WriteFailed>
    ensures { Writes S.written S.faults out.old out.new (line_text (monitor_line number size)) result }
{
    line.start();
    line.word(b"monitor");
    line.number(i128::from(number));
    line.number(i128::from(size));
    write_all(out, line.finish())
}

/// Writes the text of a monitor behind its line.
fn write_monitor<S: Sink>(
    number: u64,
    text: &[u8],
    line: &mut LineBuilder,
    out: &mut S,
) -> Result<(), WriteFailed>
    ensures { Writes S.written S.faults out.old out.new (monitor_text number text.now) result }
{
    write_monitor_line(number, text.len() as u64, line, out)?;
    write_all(out, text)
}

/// Writes the texts of the monitors, numbered from 1.
fn write_monitors<S: Sink>(
    texts: &[Vec<u8>],
    line: &mut LineBuilder,
    out: &mut S,
) -> Result<(), WriteFailed>
    ensures { Writes S.written S.faults out.old out.new (monitor_texts 1 (map (λ t. t.items) texts.now)) result }
{
    for (place, text) in texts.iter().enumerate() {
        write_monitor(place as u64 + 1, text, line, out)?;
    }
    Ok(())
}

/// Writes the whole report: what is asked, a step in detail if there is one, the peaks, and behind a line of its own the
/// text of each monitor, byte by byte as it is. Takes no memory. The peaks are absolute intervals.
pub fn write_study<S: Sink>(
    case: &Case,
    setting: &Setting,
    detail: Option<Detail<'_>>,
    peaks: &StepView,
    texts: &[Vec<u8>],
    line: &mut LineBuilder,
    out: &mut S,
) -> Result<(), WriteFailed>
    requires { HasZones case.now (lent_detail detail) }
    ensures { Writes S.written S.faults out.old out.new
        (study_text case.now setting.now.width setting.now.threshold setting.now.steps (lent_detail detail.entry) peaks.now (map (λ t. t.items) texts.now)) result }
{
    write_lines(case, setting, detail, peaks, line, out)?;
    write_monitors(texts, line, out)?;
    write_word(b"end", line, out)
}
