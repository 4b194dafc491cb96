//! The modes over the network of a case, all rows of the switchings in force.
ghost use Rattle.std.specs.Prelude.{◌≡◌, IfOk, is_ok};
ghost use Rattle.gic_criteria.specs.Ranges.{IsWithinCriteria, IsWithinField, IsWithinRanges};
ghost use Rattle.gic_stand.specs.Needs.{Nothing, Earthed, Solved};
ghost use Rattle.gic_stand.specs.Serves.{shown};
ghost use Rattle.gic_study.specs.ModeCalls.{ServesNetwork, ServesOver};
ghost use Rattle.gic_volts.specs.Made as volts;
ghost use Rattle.gic_list.specs.Made as list;
ghost use Rattle.gic_check.specs.Made as check;
ghost use Rattle.gic_field.specs.Made as field;
ghost use Rattle.gic_screen_mode.specs.Made as screen;
ghost use Rattle.gic_certify.specs.Made as certify;
ghost use Rattle.gic_outage.specs.Made as outage;
ghost use Rattle.gic_review.specs.Made as review;
ghost use Rattle.gic_volts.specs.RightVolts.{IsRightVolts};
ghost use Rattle.gic_list.specs.RightList.{IsRightList};
ghost use Rattle.gic_check.specs.RightCheck.{IsRightCheck};
ghost use Rattle.gic_field.specs.RightField.{IsRightField};
ghost use Rattle.gic_screen_mode.specs.RightScreen.{IsRightScreen};
ghost use Rattle.gic_certify.specs.RightCertify.{IsRightCertify};
ghost use Rattle.gic_outage.specs.RightOutage.{IsRightOutage};
ghost use Rattle.gic_review.specs.RightReview.{IsRightReview};

use gic_ask::NetworkAsked;
use gic_base::{OutOfMemory, Sink};
use gic_certify::certify;
use gic_check::check;
use gic_criteria::{Criteria, Question, UniformField};
use gic_field::field;
use gic_inputs::Inputs;
use gic_list::list;
use gic_outage::outage;
use gic_review::review;
use gic_screen_mode::screen;
use gic_stand::ReportFault;
use gic_volts::volts;
use gic_words::NetworkMode;
use std::alloc::Global;

/// The report of `volts` in its workspace, where that was made.
fn volts_report<S: Sink>(
    inputs: &Inputs<UniformField>,
    made: Result<gic_volts::Workspace, OutOfMemory>,
    out: &mut S,
) -> Result<Result<(), ReportFault>, OutOfMemory>
    requires ranges { IsWithinField inputs.now.question }
    requires made { IfOk made (volts.IsMadeFor inputs.now) }
    ensures ends { ServesOver Nothing IsRightVolts inputs.now
        (shown S.written S.faults out.old) (shown S.written S.faults out.new) result }
    ensures memory { is_ok result ≡ is_ok made }
{
    match made {
        Ok(mut workspace) => Ok(volts(inputs, &mut workspace, out)),
        Err(e) => Err(e),
    }
}

/// The report of `list` in its workspace, where that was made.
fn list_report<S: Sink>(
    inputs: &Inputs<()>,
    made: Result<gic_list::Workspace, OutOfMemory>,
    out: &mut S,
) -> Result<Result<(), ReportFault>, OutOfMemory>
    requires made { IfOk made (list.IsMadeFor inputs.now) }
    ensures ends { ServesOver Nothing IsRightList inputs.now
        (shown S.written S.faults out.old) (shown S.written S.faults out.new) result }
    ensures memory { is_ok result ≡ is_ok made }
{
    match made {
        Ok(mut workspace) => Ok(list(inputs, &mut workspace, out)),
        Err(e) => Err(e),
    }
}

/// The report of `check` in its workspace, where that was made.
fn check_report<S: Sink>(
    inputs: &Inputs<()>,
    made: Result<gic_check::Workspace, OutOfMemory>,
    out: &mut S,
) -> Result<Result<(), ReportFault>, OutOfMemory>
    requires made { IfOk made (check.IsMadeFor inputs.now) }
    ensures ends { ServesOver Earthed IsRightCheck inputs.now
        (shown S.written S.faults out.old) (shown S.written S.faults out.new) result }
    ensures memory { is_ok result ≡ is_ok made }
{
    match made {
        Ok(mut workspace) => Ok(check(inputs, &mut workspace, out)),
        Err(e) => Err(e),
    }
}

/// The report of `field` in its workspace, where that was made.
fn field_report<S: Sink>(
    inputs: &Inputs<Question>,
    made: Result<gic_field::Workspace, OutOfMemory>,
    out: &mut S,
) -> Result<Result<(), ReportFault>, OutOfMemory>
    requires ranges { IsWithinRanges inputs.now.question }
    requires made { IfOk made (field.IsMadeFor inputs.now) }
    ensures ends { ServesOver Solved IsRightField inputs.now
        (shown S.written S.faults out.old) (shown S.written S.faults out.new) result }
    ensures memory { is_ok result ≡ is_ok made }
{
    match made {
        Ok(mut workspace) => Ok(field(inputs, &mut workspace, out)),
        Err(e) => Err(e),
    }
}

/// The report of `screen` in its workspace, where that was made.
fn screen_report<S: Sink>(
    inputs: &Inputs<Criteria>,
    made: Result<gic_screen_mode::Workspace, OutOfMemory>,
    out: &mut S,
) -> Result<Result<(), ReportFault>, OutOfMemory>
    requires ranges { IsWithinCriteria inputs.now.question }
    requires made { IfOk made (screen.IsMadeFor inputs.now) }
    ensures ends { ServesOver Solved IsRightScreen inputs.now
        (shown S.written S.faults out.old) (shown S.written S.faults out.new) result }
    ensures memory { is_ok result ≡ is_ok made }
{
    match made {
        Ok(mut workspace) => Ok(screen(inputs, &mut workspace, out)),
        Err(e) => Err(e),
    }
}

/// The report of `certify` in its workspace, where that was made.
fn certify_report<S: Sink>(
    inputs: &Inputs<UniformField>,
    made: Result<gic_certify::Workspace, OutOfMemory>,
    out: &mut S,
) -> Result<Result<(), ReportFault>, OutOfMemory>
    requires ranges { IsWithinField inputs.now.question }
    requires made { IfOk made (certify.IsMadeFor inputs.now) }
    ensures ends { ServesOver Solved IsRightCertify inputs.now
        (shown S.written S.faults out.old) (shown S.written S.faults out.new) result }
    ensures memory { is_ok result ≡ is_ok made }
{
    match made {
        Ok(workspace) => Ok(certify(inputs, workspace, out)),
        Err(e) => Err(e),
    }
}

/// The report of `outage` in its workspace, where that was made.
fn outage_report<S: Sink>(
    inputs: &Inputs<Criteria>,
    made: Result<gic_outage::Workspace, OutOfMemory>,
    out: &mut S,
) -> Result<Result<(), ReportFault>, OutOfMemory>
    requires ranges { IsWithinCriteria inputs.now.question }
    requires made { IfOk made (outage.IsMadeFor inputs.now) }
    ensures ends { ServesOver Solved IsRightOutage inputs.now
        (shown S.written S.faults out.old) (shown S.written S.faults out.new) result }
    ensures memory { is_ok result ≡ is_ok made }
{
    match made {
        Ok(mut workspace) => Ok(outage(inputs, &mut workspace, out)),
        Err(e) => Err(e),
    }
}

/// The report of `review` in its workspace, where that was made.
fn review_report<S: Sink>(
    inputs: &Inputs<()>,
    made: Result<gic_review::Workspace, OutOfMemory>,
    out: &mut S,
) -> Result<Result<(), ReportFault>, OutOfMemory>
    requires made { IfOk made (review.IsMadeFor inputs.now) }
    ensures ends { ServesOver Nothing IsRightReview inputs.now
        (shown S.written S.faults out.old) (shown S.written S.faults out.new) result }
    ensures memory { is_ok result ≡ is_ok made }
{
    match made {
        Ok(mut workspace) => Ok(review(inputs, &mut workspace, out)),
        Err(e) => Err(e),
    }
}

/// The report of a mode over the network of a case, or that its workspace was not made.
pub(crate) fn network_report<S: Sink>(
    alloc: Global,
    mode: NetworkMode,
    asked: NetworkAsked,
    out: &mut S,
) -> Result<Result<(), ReportFault>, OutOfMemory>
    requires { IsWithinRanges asked.question }
    ensures { ServesNetwork mode asked (shown S.written S.faults out.old) (shown S.written S.faults out.new) result }
{
    let question = asked.question;
    match mode {
        NetworkMode::Volts => {
            let inputs = asked.over(question.field);
            volts_report(&inputs, gic_volts::make_workspace(alloc, &inputs), out)
        }
        NetworkMode::List => {
            let inputs = asked.over(());
            list_report(&inputs, gic_list::make_workspace(alloc, &inputs), out)
        }
        NetworkMode::Check => {
            let inputs = asked.over(());
            check_report(&inputs, gic_check::make_workspace(alloc, &inputs), out)
        }
        NetworkMode::Field => {
            let inputs = asked.over(question);
            field_report(&inputs, gic_field::make_workspace(alloc, &inputs), out)
        }
        NetworkMode::Screen => {
            let inputs = asked.over(question.criteria);
            screen_report(
                &inputs,
                gic_screen_mode::make_workspace(alloc, &inputs),
                out,
            )
        }
        NetworkMode::Certify => {
            let inputs = asked.over(question.field);
            certify_report(&inputs, gic_certify::make_workspace(alloc, &inputs), out)
        }
        NetworkMode::Outage => {
            let inputs = asked.over(question.criteria);
            outage_report(&inputs, gic_outage::make_workspace(alloc, &inputs), out)
        }
        NetworkMode::Review => {
            let inputs = asked.over(());
            review_report(&inputs, gic_review::make_workspace(alloc, &inputs), out)
        }
    }
}
