//! The course of a storm.
ghost use Rattle.std.specs.Prelude.{◌≡◌, ◌<◌, length, None, IfOk, OnOk, IfErr, IfSome, IsSomeAnd};
ghost use Rattle.gic_enclose.specs.Solved.{IsWidth};
ghost use Rattle.gic_fixed.specs.Ends.{ends_of};
ghost use Rattle.gic_view.specs.Kept.{blank_view};
ghost use Rattle.gic_winding.specs.ElementList.{elements_of};
ghost use Rattle.gic_effective.specs.ViewLengths.{HasViewLengths};
ghost use Rattle.gic_view.specs.Peaks.{HasAbsolutes};
ghost use Rattle.gic_stand.specs.Needs.{Solved, IsUnmet};
ghost use Rattle.gic_course.specs.CourseOf.{IsCourseOf, CanShow};
ghost use Rattle.gic_course.specs.Epochs.{HasStep};
ghost use Rattle.gic_course.specs.Ready.{IsReadyAt, IsShownBy};
ghost use Rattle.gic_inputs.specs.Inputs.{IsStormOf};
ghost use Rattle.gic_course.specs.Single.{IsNarrowEffective};
ghost use Rattle.gic_course.specs.Steps.{IsStepOf, standing_at_step, storm_steps, storm_volts};
ghost use Rattle.gic_course.specs.Views.{IsSolvedStep};

use crate::epochs::{epoch_with, epochs_under, has_step};
use crate::preparing::prepare_epoch;
use crate::ready::{Ready, Way, way_after};
use crate::showing::show_step;
use crate::single::effective_of_step;
use crate::switched::SwitchedNet;
use crate::walking::{expect_epochs, put_in_force};
use crate::workspace::{Workspace, make_workspace};
use gic_base::OutOfMemory;
use gic_effective::view_of_case;
use gic_exists::laws::existence_law;
use gic_fixed::Interval;
use gic_inputs::StormInputs;
use gic_model::laws::potential_law;
use gic_stand::NetworkRefusal;
use gic_switch::Epoch;
use gic_view::StepView;
use gic_winding::elements;
use gic_winding::laws::limits_law;
use std::alloc::Global;

/// The course of a storm over the network of a case. All that takes memory is made with it.
pub struct Course {
    epochs: Vec<Epoch>,
    switched: SwitchedNet,
    /// The epoch for whose steps the net and what they take are ready.
    ready: Option<Ready>,
    workspace: Workspace,
}

impl Drop for Course {
    /// Lets go of everything, in one step for whoever drops it.
    fn drop(self) {
        let Course {
            epochs: _epochs,
            switched: _switched,
            ready: _ready,
            workspace: _workspace,
        } = self;
    }
}

impl Course {
    /// The course of this storm. Nothing is ready yet.
    pub fn new(alloc: Global, inputs: &StormInputs) -> Result<Course, OutOfMemory>
        requires { IsStormOf inputs.now }
        ensures { IfOk result (IsCourseOf inputs.now) }
    {
        let case = &inputs.case;
        let epochs = epochs_under(alloc, &inputs.storm, &inputs.switchings)?;
        let elements = elements(alloc, case)?;
        let switched = SwitchedNet::new(alloc, &elements)?;
        let workspace = make_workspace(alloc, case, &elements, inputs.storm.zones())?;
        Ok(Course {
            epochs,
            switched,
            ready: None,
            workspace,
        })
    }

    /// A view of the case in which nothing shows yet, for `show` to fill. Its number and its time are 0.
    pub fn blank_view(&self, alloc: Global, inputs: &StormInputs) -> Result<StepView, OutOfMemory>
        requires { IsCourseOf inputs.now self.now }
        ensures lengths { IfOk result (HasViewLengths inputs.now.case) }
        ensures blank { IfOk result (λ view. let case = inputs.now.case in let elements = elements_of case in
            view ≡ blank_view elements.nodes (length elements.list) (length case.transformers)) }
    {
        let view = view_of_case(alloc, &inputs.case, &self.switched.net)?;
        Ok(view)
    }

    /// Whether the network can be solved at each step of the storm: the first step at which it can't is told. Takes no
    /// memory.
    pub fn expect_solvable(&mut self, inputs: &StormInputs) -> Result<(), NetworkRefusal>
        requires { IsCourseOf inputs.now self.old }
        ensures met { OnOk result (CanShow inputs.now self.new) }
        ensures unmet { IfErr result (IsUnmet Solved inputs.now.case (storm_steps inputs.now)) }
        ensures course { IsCourseOf inputs.now self.new }
    {
        self.ready = None;
        expect_epochs(
            inputs,
            self.epochs.as_slice(),
            &mut self.switched,
            &mut self.workspace,
        )?;
        Ok(())
    }

    /// How a step is shown for which all is ready.
    fn way_for(&self, number: u32) -> Option<Way>
        ensures ready { IfSome result (λ way. IsSomeAnd self.now.ready (IsShownBy number way)) }
        ensures none { result ≡ None → ¬ IsSomeAnd self.now.ready (λ ready. HasStep number ready.epoch) }
    {
        match self.ready {
            Some(ready) if has_step(ready.epoch, number) => Some(ready.way),
            _ => None,
        }
    }

    /// Makes all ready for a step, and tells how it is shown: where it isn't, the switchings of its epoch are put in force,
    /// and what the steps of the epoch take is prepared, unless nothing changed that stands.
    fn be_ready_for(&mut self, inputs: &StormInputs, number: u32) -> Way
        requires shows { CanShow inputs.now self.old }
        requires step { IsStepOf inputs.now number }
        ensures ready { IsReadyAt inputs.now number result self.new.switched.net self.new.workspace }
        ensures way { IsSomeAnd self.new.ready (IsShownBy number result) }
        ensures same { IsSomeAnd self.old.ready (λ ready. HasStep number ready.epoch) → self.new ≡ self.old }
        ensures shows { CanShow inputs.now self.new }
    {
        if let Some(way) = self.way_for(number) {
            return way;
        }
        let epoch = epoch_with(self.epochs.as_slice(), number);
        let changed = put_in_force(inputs, epoch, &mut self.switched);
        let kept = way_after(changed, self.ready);
        let way = prepare_epoch(inputs, epoch, kept, &self.switched.net, &mut self.workspace);
        self.ready = Some(Ready { epoch, way });
        way
    }

    /// Fills the view of a step, counted from 1: its number, its time, and intervals that are no wider than `width`, in
    /// millivolts and milliamperes, with no effective current beyond 2^52 mA per phase. Steps may be shown in
    /// any order; how often their epochs are prepared isn't promised. No interval begins at -2^127, which has no absolute
    /// value of 128 bits. Takes no memory.
    pub fn show(&mut self, inputs: &StormInputs, number: u32, width: u32, view: &mut StepView)
        requires shows { CanShow inputs.now self.old }
        requires step { IsStepOf inputs.now number }
        requires width { IsWidth width }
        requires view { HasViewLengths inputs.now.case view.old }
        ensures solved { IsSolvedStep inputs.now width number view.new }
        ensures absolutes { HasAbsolutes view.new }
        ensures shows { CanShow inputs.now self.new }
    {
        existence_law();
        potential_law();
        limits_law();
        inputs.case.keeps_rules();
        let way = self.be_ready_for(inputs, number);
        show_step(
            inputs,
            &self.switched.net,
            number,
            way,
            width,
            &mut self.workspace,
            view,
        );
    }

    /// An interval, in milliamperes per phase, that holds the signed effective current of the transformer at a place of the
    /// case at a step, counted from 1, in every solution, and is no wider than `width`. No other quantity of the step is
    /// looked at. What `show` makes ready is made ready and kept here as well. Takes no memory.
    pub fn effective_at(
        &mut self,
        inputs: &StormInputs,
        number: u32,
        transformer: u16,
        width: u32,
    ) -> Interval
        requires shows { CanShow inputs.now self.old }
        requires step { IsStepOf inputs.now number }
        requires transformer { transformer < length inputs.now.case.transformers }
        requires width { IsWidth width }
        ensures shown { IsNarrowEffective inputs.now.case (standing_at_step inputs.now number) (storm_volts inputs.now number)
            transformer width (ends_of result) }
        ensures shows { CanShow inputs.now self.new }
    {
        let way = self.be_ready_for(inputs, number);
        effective_of_step(
            inputs,
            &self.switched.net,
            number,
            way,
            transformer,
            width,
            &mut self.workspace,
        )
    }
}
