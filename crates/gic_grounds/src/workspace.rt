//! What the currents of transformers are enclosed in, whatever resistances of their ranges the grounds have.
ghost use Rattle.std.specs.Prelude.{ℕ, ◌≡◌, ◌≤◌, ◌<◌, List, length, ℤ, IfErr, IfOk, OnOk};
ghost use Rattle.gic_effective.specs.RightView.{HasNoEffect};
ghost use Rattle.gic_inputs.specs.Inputs.{rows_in};
ghost use Rattle.gic_model.specs.declared.parts.Switching.{Switching};
ghost use Rattle.gic_model.specs.Earthing.{AreEarthed};
ghost use Rattle.gic_model.specs.Voltages.{number_at};
ghost use Rattle.gic_stand.specs.Needs.{Solved, Fails};
ghost use Rattle.gic_winding.specs.ElementList.{elements_of};
ghost use Rattle.gic_grounds.specs.Tolerated.{Tolerated, tolerated, AreNetsOf, own_in, most_in};
ghost use Rattle.gic_grounds.specs.Varied.{IsVariedWorkspaceFor, IsReadyToVary, HasNoGroundVolts, AreReferred, HasReferences, AreFieldVolts, AreOfOneCount, reference_to, IsReferredAtCorner, HasReferenceAtCorner};
ghost use Rattle.gic_grounds.specs.VariedCurrent.{AreVariedCurrents, AreCutCurrents, IsAtCorner, IsInside, AreInside};
ghost use Rattle.gic_grounds.specs.VariedCurrent.{IsCutAtCorner, IsCutAtCorners, AreCutAtCorners};
ghost use Rattle.gic_grounds.specs.Corner.{is_most_at, IsChosen};
ghost use Rattle.gic_grounds.specs.declared.direction.Direction.TheVariants.{North, East};
ghost use Rattle.gic_fixed.specs.Ends.{ends_of};

use crate::adjoint::adjoin;
use crate::at_corner::{CornerWorkspace, common, make_corner_workspace};
use crate::corner::{Corner, choose_corner};
use crate::corner_net::go_to_corner;
use crate::current::varied_current;
use crate::direction::Direction;
use crate::effect::has_effect;
use crate::extreme::Extreme;
use crate::grounding::{extreme_net, ground_nets};
use crate::nets::GroundNets;
use crate::node_intervals::NodeIntervals;
use crate::reference::{Reference, lift_both, new_reference, solve_reference};
use crate::unit::potential_unit;
use crate::varied_currents::VariedCurrents;
use crate::weights::stray_unit;
use gic_base::OutOfMemory;
use gic_case::Case;
use gic_fixed::Interval;
use gic_model::{Elements, Volts, WideVolts};
use gic_stand::NetworkRefusal;
use gic_switch::Switchings;
use gic_uniform::SolveWorkspace;
use gic_varied::laws::{
    certified_enclosure_law, corner_law, other_grounds_law, reciprocity_law, varied_bound_law,
};
use std::alloc::Global;

/// The nets of a case with its grounds at both ends of their ranges, and all that its transformers' currents are worked
/// out in. First the network is looked at, then it is referred to the voltages of two fields, and then transformers are
/// asked for, as often as is wanted, and their intervals sharpened by references at corners of the ranges. All memory is taken
/// when it is made.
pub struct VariedWorkspace {
    pub(crate) elements: Elements,
    pub nets: GroundNets,
    pub(crate) solving: SolveWorkspace,
    /// The voltages of a lift or of weights, whichever a net was solved for last.
    pub(crate) volts: WideVolts,
    /// The adjoint potentials of the last transformer.
    pub(crate) adjoint: NodeIntervals,
    /// The unit of potentials, in nanovolts.
    pub(crate) unit: u32,
    pub(crate) north: Reference,
    pub(crate) east: Reference,
    /// The corner of both: all grounds are at their least.
    pub(crate) all_least: Corner,
    /// For references at other corners.
    pub(crate) at_corner: CornerWorkspace,
}

impl Drop for VariedWorkspace {
    /// Lets go of everything, in one step for whoever drops it.
    fn drop(self) {
        let VariedWorkspace {
            elements: _elements,
            nets: _nets,
            solving: _solving,
            volts: _volts,
            adjoint: _adjoint,
            unit: _unit,
            north: _north,
            east: _east,
            all_least: _all_least,
            at_corner: _at_corner,
        } = self;
    }
}

/// A workspace for a case with these elements and switchings, whose grounds have this tolerance in per cent, or their own.
pub fn make_varied_workspace(
    alloc: Global,
    case: &Case,
    elements: Elements,
    switchings: &Option<Switchings>,
    percent: u8,
) -> Result<VariedWorkspace, OutOfMemory>
    requires elements { elements ≡ elements_of case.now }
    requires percent { percent ≤ 90 }
    ensures space { IfOk result (IsVariedWorkspaceFor case.now) }
    ensures nets { IfOk result (λ workspace. AreNetsOf (tolerated case.now (rows_in switchings.now) percent) workspace.nets) }
{
    let transformers = case.transformers().len() as u16;
    let nodes = elements.nodes();
    let nets = ground_nets(alloc, case, percent, &elements, switchings)?;
    let volts = WideVolts::new(alloc, &elements)?;
    let adjoint = NodeIntervals::new(alloc, nodes)?;
    let north = new_reference(alloc, nodes, transformers)?;
    let east = new_reference(alloc, nodes, transformers)?;
    let solving = SolveWorkspace::new(alloc, nodes, nets.least.count())?;
    let net = extreme_net(alloc, case, percent, &elements, switchings, Extreme::Least)?;
    let at_corner = make_corner_workspace(alloc, net, nodes, transformers)?;
    Ok(VariedWorkspace {
        elements,
        nets,
        solving,
        volts,
        adjoint,
        unit: 1,
        north,
        east,
        all_least: Corner::all_least(alloc),
        at_corner,
    })
}

impl VariedWorkspace {
    /// Looks whether the network with its grounds at their greatest can be solved; a refusal names the step 1. Takes no
    /// memory.
    pub fn look(&mut self, case: &Case) -> Result<(), NetworkRefusal>
        requires space { IsVariedWorkspaceFor case.now self.old }
        ensures ready { OnOk result (IsReadyToVary case.now self.new) }
        ensures earthed { (v : Tolerated) → AreNetsOf v self.old.nets → OnOk result (AreEarthed (own_in v)) }
        ensures err { (v : Tolerated) → AreNetsOf v self.old.nets → IfErr result (Fails Solved case.now 1 (most_in v)) }
        ensures space { IsVariedWorkspaceFor case.now self.new }
        ensures rest { self.new ≡ record self.old { solving = self.new.solving } }
    {
        other_grounds_law();
        self.elements.within_limits();
        self.solving.look(case, self.nets.most(), 1)
    }

    /// Refers the network to these voltages of the field to the north and of that to the east. Takes no memory.
    pub fn refer(&mut self, case: &Case, north: &Volts, east: &Volts)
        requires ready { IsReadyToVary case.now self.old }
        requires north { length north.now ≡ length (elements_of case.now).list }
        requires east { length east.now ≡ length (elements_of case.now).list }
        ensures referred { HasNoGroundVolts case.now (number_at north.now) → HasNoGroundVolts case.now (number_at east.now) →
            AreReferred case.now (number_at north.now) (number_at east.now) self.new }
        ensures references { HasReferences self.new }
        ensures ready { IsReadyToVary case.now self.new }
        ensures nets { self.new.nets ≡ self.old.nets }
    {
        north.within_limit();
        east.within_limit();
        solve_reference(
            case,
            &self.elements,
            &self.nets.least,
            north,
            &mut self.solving,
            &mut self.north,
        );
        solve_reference(
            case,
            &self.elements,
            &self.nets.least,
            east,
            &mut self.solving,
            &mut self.east,
        );
        let unit = potential_unit(
            &self.north.potentials.reference,
            &self.east.potentials.reference,
        );
        self.unit = unit;
        self.north.potentials.reference.in_units(unit);
        self.east.potentials.reference.in_units(unit);
        lift_both(
            &self.nets,
            &self.all_least,
            &mut self.volts,
            &mut self.solving,
            &mut self.north.potentials,
        );
        lift_both(
            &self.nets,
            &self.all_least,
            &mut self.volts,
            &mut self.solving,
            &mut self.east.potentials,
        );
    }

    /// The currents of a transformer in both fields, whatever resistances of their ranges the grounds have. Takes no memory.
    pub fn row(&mut self, case: &Case, transformer: u16) -> VariedCurrents
        requires ready { IsReadyToVary case.now self.old }
        requires references { HasReferences self.old }
        requires place { transformer < length case.now.transformers }
        ensures right { (rows : List Switching) (percent : ℕ) (north east : ℕ → ℤ) →
            AreNetsOf (tolerated case.now rows percent) self.old.nets → AreReferred case.now north east self.old →
            AreVariedCurrents (tolerated case.now rows percent) north east transformer result }
        ensures cut { AreCutCurrents result }
        ensures ready { IsReadyToVary case.now self.new }
        ensures rest { self.new ≡ record self.old { solving = self.new.solving; volts = self.new.volts; adjoint = self.new.adjoint } }
    {
        if has_effect(case, self.elements.list(), &self.nets, transformer) {
            self.enclose(case, transformer)
        } else {
            let none = Interval::point(0);
            VariedCurrents {
                north: none,
                east: none,
            }
        }
    }

    /// The same of a transformer that has an effect.
    fn enclose(&mut self, case: &Case, transformer: u16) -> VariedCurrents
        requires ready { IsReadyToVary case.now self.old }
        requires references { HasReferences self.old }
        requires place { transformer < length case.now.transformers }
        ensures right { (rows : List Switching) (percent : ℕ) (north east : ℕ → ℤ) →
            AreNetsOf (tolerated case.now rows percent) self.old.nets → AreReferred case.now north east self.old →
            (HasNoEffect case.now (own_in (tolerated case.now rows percent)) transformer → ⊥) →
            AreVariedCurrents (tolerated case.now rows percent) north east transformer result }
        ensures cut { AreCutCurrents result }
        ensures ready { IsReadyToVary case.now self.new }
        ensures rest { self.new ≡ record self.old { solving = self.new.solving; volts = self.new.volts; adjoint = self.new.adjoint } }
    {
        certified_enclosure_law();
        reciprocity_law();
        varied_bound_law();
        other_grounds_law();
        self.elements.within_limits();
        adjoin(
            case,
            &self.elements,
            &self.nets.least,
            transformer,
            self.unit,
            &mut self.volts,
            &mut self.solving,
            &mut self.adjoint,
        );
        let row = &case.transformers()[transformer as usize];
        let unit = stray_unit(row.high_volts, self.unit);
        let north = varied_current(
            &self.nets,
            &self.all_least,
            unit,
            &self.adjoint,
            &self.north,
            transformer,
        );
        let east = varied_current(
            &self.nets,
            &self.all_least,
            unit,
            &self.adjoint,
            &self.east,
            transformer,
        );
        VariedCurrents { north, east }
    }

    /// Leaves the corner where a transformer's current in the field of this direction is the least, or the greatest, as far as
    /// the signs of the adjoint potentials of the last transformer and of its reference's potentials tell.
    fn choose(&mut self, direction: Direction, extreme: Extreme)
        requires counts { AreOfOneCount self.old }
        ensures chosen { IsChosen extreme self.old.adjoint (reference_to direction self.old) (is_most_at self.new.at_corner.corner) }
        ensures count { length self.new.at_corner.corner ≡ length self.old.at_corner.corner }
        ensures rest { self.new ≡ record self.old { at_corner = record self.old.at_corner { corner = self.new.at_corner.corner } } }
    {
        match direction {
            Direction::North => choose_corner(
                &self.adjoint,
                &self.north.potentials.reference,
                extreme,
                &mut self.at_corner.corner,
            ),
            Direction::East => choose_corner(
                &self.adjoint,
                &self.east.potentials.reference,
                extreme,
                &mut self.at_corner.corner,
            ),
        }
    }

    /// Refers the network at the corner to the voltages of a field; the unit of the reference's potentials is answered, in
    /// nanovolts. Takes no memory.
    fn refer_at_corner(&mut self, case: &Case, field: &Volts) -> u32
        requires ready { IsReadyToVary case.now self.old }
        requires field { length field.now ≡ length (elements_of case.now).list }
        ensures referred { HasNoGroundVolts case.now (number_at field.now) →
            IsReferredAtCorner case.now self.old.nets (is_most_at self.old.at_corner.corner) (number_at field.now) result self.new.at_corner }
        ensures reference { HasReferenceAtCorner result self.new.at_corner }
        ensures same_corner { self.new.at_corner.corner ≡ self.old.at_corner.corner }
        ensures ready { IsReadyToVary case.now self.new }
        ensures rest { self.new ≡ record self.old { solving = self.new.solving; volts = self.new.volts; at_corner = self.new.at_corner } }
    {
        other_grounds_law();
        corner_law();
        self.elements.within_limits();
        field.within_limit();
        go_to_corner(&self.nets, &self.at_corner.corner, &mut self.at_corner.net);
        solve_reference(
            case,
            &self.elements,
            &self.at_corner.net,
            field,
            &mut self.solving,
            &mut self.at_corner.reference,
        );
        let unit = potential_unit(
            &self.at_corner.reference.potentials.reference,
            &self.at_corner.reference.potentials.reference,
        );
        self.at_corner.reference.potentials.reference.in_units(unit);
        lift_both(
            &self.nets,
            &self.at_corner.corner,
            &mut self.volts,
            &mut self.solving,
            &mut self.at_corner.reference.potentials,
        );
        unit
    }

    /// The current of a transformer that has an effect, by a reference at the corner, in these voltages of a field. Takes no
    /// memory.
    fn enclose_at_corner(&mut self, case: &Case, field: &Volts, transformer: u16) -> Interval
        requires ready { IsReadyToVary case.now self.old }
        requires field { length field.now ≡ length (elements_of case.now).list }
        requires place { transformer < length case.now.transformers }
        ensures right { (rows : List Switching) (percent : ℕ) →
            AreNetsOf (tolerated case.now rows percent) self.old.nets → HasNoGroundVolts case.now (number_at field.now) →
            (HasNoEffect case.now (own_in (tolerated case.now rows percent)) transformer → ⊥) →
            IsAtCorner (tolerated case.now rows percent) (is_most_at self.old.at_corner.corner) (number_at field.now) transformer (ends_of result) }
        ensures same_corner { self.new.at_corner.corner ≡ self.old.at_corner.corner }
        ensures ready { IsReadyToVary case.now self.new }
        ensures rest { self.new ≡ record self.old { solving = self.new.solving; volts = self.new.volts; at_corner = self.new.at_corner } }
    {
        certified_enclosure_law();
        reciprocity_law();
        varied_bound_law();
        other_grounds_law();
        corner_law();
        self.elements.within_limits();
        let unit = self.refer_at_corner(case, field);
        adjoin(
            case,
            &self.elements,
            &self.at_corner.net,
            transformer,
            unit,
            &mut self.volts,
            &mut self.solving,
            &mut self.at_corner.adjoint,
        );
        let row = &case.transformers()[transformer as usize];
        let stray_unit = stray_unit(row.high_volts, unit);
        varied_current(
            &self.nets,
            &self.at_corner.corner,
            stray_unit,
            &self.at_corner.adjoint,
            &self.at_corner.reference,
            transformer,
        )
    }

    /// Cuts the interval of a transformer's current in the field of this direction to what it shares with that by a reference
    /// at the corner where the current is the least, or the greatest, as far as can be told; where the two share nothing it
    /// stays. Takes no memory.
    fn cut_at_corner(
        &mut self,
        case: &Case,
        field: &Volts,
        direction: Direction,
        extreme: Extreme,
        transformer: u16,
        before: Interval,
    ) -> Interval
        requires ready { IsReadyToVary case.now self.old }
        requires field { length field.now ≡ length (elements_of case.now).list }
        requires place { transformer < length case.now.transformers }
        ensures right { (rows : List Switching) (percent : ℕ) →
            AreNetsOf (tolerated case.now rows percent) self.old.nets → HasNoGroundVolts case.now (number_at field.now) →
            (HasNoEffect case.now (own_in (tolerated case.now rows percent)) transformer → ⊥) →
            IsCutAtCorner (tolerated case.now rows percent) (is_most_at self.new.at_corner.corner) (number_at field.now) transformer
            (ends_of before) (ends_of result) }
        ensures chosen { IsChosen extreme self.old.adjoint (reference_to direction self.old) (is_most_at self.new.at_corner.corner) }
        ensures inside { IsInside (ends_of before) (ends_of result) }
        ensures ready { IsReadyToVary case.now self.new }
        ensures rest { self.new ≡ record self.old { solving = self.new.solving; volts = self.new.volts; at_corner = self.new.at_corner } }
    {
        self.choose(direction, extreme);
        let other = self.enclose_at_corner(case, field, transformer);
        common(before, other)
    }

    /// The same at both corners, one behind the other.
    fn cut_at_corners(
        &mut self,
        case: &Case,
        field: &Volts,
        direction: Direction,
        transformer: u16,
        before: Interval,
    ) -> Interval
        requires ready { IsReadyToVary case.now self.old }
        requires field { length field.now ≡ length (elements_of case.now).list }
        requires place { transformer < length case.now.transformers }
        ensures right { (rows : List Switching) (percent : ℕ) →
            AreNetsOf (tolerated case.now rows percent) self.old.nets → HasNoGroundVolts case.now (number_at field.now) →
            (HasNoEffect case.now (own_in (tolerated case.now rows percent)) transformer → ⊥) →
            IsCutAtCorners (tolerated case.now rows percent) self.old.adjoint (reference_to direction self.old) (number_at field.now) transformer
            (ends_of before) (ends_of result) }
        ensures inside { IsInside (ends_of before) (ends_of result) }
        ensures ready { IsReadyToVary case.now self.new }
        ensures rest { self.new ≡ record self.old { solving = self.new.solving; volts = self.new.volts; at_corner = self.new.at_corner } }
    {
        let once = self.cut_at_corner(case, field, direction, Extreme::Most, transformer, before);
        self.cut_at_corner(case, field, direction, Extreme::Least, transformer, once)
    }

    /// Narrows the currents of a transformer, of which a row was made last, to what they share with those by references at
    /// four corners: where each of the two is the least and where it is the greatest, as far as can be told. Takes no memory.
    pub fn sharpen(
        &mut self,
        case: &Case,
        north: &Volts,
        east: &Volts,
        transformer: u16,
        currents: VariedCurrents,
    ) -> VariedCurrents
        requires ready { IsReadyToVary case.now self.old }
        requires fields { AreFieldVolts case.now north.now east.now }
        requires place { transformer < length case.now.transformers }
        ensures right { (rows : List Switching) (percent : ℕ) → AreNetsOf (tolerated case.now rows percent) self.old.nets →
            HasNoGroundVolts case.now (number_at north.now) → HasNoGroundVolts case.now (number_at east.now) →
            AreVariedCurrents (tolerated case.now rows percent) (number_at north.now) (number_at east.now) transformer currents →
            AreVariedCurrents (tolerated case.now rows percent) (number_at north.now) (number_at east.now) transformer result }
        ensures cut { (rows : List Switching) (percent : ℕ) → AreNetsOf (tolerated case.now rows percent) self.old.nets →
            HasNoGroundVolts case.now (number_at north.now) → HasNoGroundVolts case.now (number_at east.now) →
            (HasNoEffect case.now (own_in (tolerated case.now rows percent)) transformer → ⊥) →
            AreCutAtCorners (tolerated case.now rows percent) self.old.adjoint (reference_to North self.old) (reference_to East self.old)
            (number_at north.now) (number_at east.now) transformer currents result }
        ensures inside { AreInside currents result }
        ensures ready { IsReadyToVary case.now self.new }
        ensures rest { self.new ≡ record self.old { solving = self.new.solving; volts = self.new.volts; at_corner = self.new.at_corner } }
    {
        if !has_effect(case, self.elements.list(), &self.nets, transformer) {
            return currents;
        }
        VariedCurrents {
            north: self.cut_at_corners(case, north, Direction::North, transformer, currents.north),
            east: self.cut_at_corners(case, east, Direction::East, transformer, currents.east),
        }
    }
}
