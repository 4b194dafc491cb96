//! The report of what was seen.
ghost use Rattle.std.specs.Prelude.{◌≡◌, length, map, option_map, IfSome};
ghost use Rattle.gic_base.specs.Writes.{Writes};
ghost use Rattle.gic_storm.specs.Steps.{steps_in};
ghost use Rattle.gic_criteria.specs.Event.{threshold_of};
ghost use Rattle.gic_study_text.specs.Given.{lent_detail};
ghost use Rattle.gic_study_text.specs.StudyText.{study_text};
ghost use Rattle.gic_study_mode.specs.Seen.{with_view};

use crate::views::Views;
use gic_base::{Sink, WriteFailed};
use gic_induce::Fields;
use gic_inputs::StormInputs;
use gic_study_text::{Detail, Setting, write_study};
use gic_text::LineBuilder;
use gic_view::StepView;

/// The step in detail, where there are fields of one.
fn detail_with<'a>(fields: &'a Option<Fields>, view: &'a StepView) -> Option<Detail<'a>>
    ensures { lent_detail result ≡ option_map (with_view view.now) fields.now }
{
    match fields {
        Some(fields) => Some(Detail { fields, view }),
        None => None,
    }
}

/// Writes the report of these views, with the fields of the step in detail, if there is one.
pub(crate) fn write_seen<S: Sink>(
    inputs: &StormInputs,
    fields: &Option<Fields>,
    views: &Views,
    texts: &[Vec<u8>],
    line: &mut LineBuilder,
    out: &mut S,
) -> Result<(), WriteFailed>
    requires { IfSome fields.now (λ fields. length fields ≡ length inputs.now.case.zones) }
    ensures { let question = inputs.now.question in Writes S.written S.faults out.old out.new
        (study_text inputs.now.case question.width (threshold_of question.event) (length (steps_in inputs.now.storm.rows))
        (option_map (with_view views.now.asked) fields.now) views.now.peaks (map (λ text. text.items) texts.now)) result }
{
    let question = &inputs.question;
    let setting = Setting {
        width: question.width,
        threshold: question.event.threshold(),
        steps: inputs.storm.steps(),
    };
    let detail = detail_with(fields, &views.asked);
    write_study(
        &inputs.case,
        &setting,
        detail,
        views.peaks.view(),
        texts,
        line,
        out,
    )
}
