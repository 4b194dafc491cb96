//! The two ends of lines, and the sides of transformers: the terminals from which their windings run.
ghost use Rattle.std.specs.Prelude.{◌≡◌, ◌<◌, ◌^◌, ◌==◌, not, length};
ghost use Rattle.std.specs.List.{list_all};
ghost use Rattle.gic_base.specs.Refusals.{AnswersExactly, settle};
ghost use Rattle.gic_case.specs.Lists.{substation_at};
ghost use Rattle.gic_case_reader.specs.Sides.{sides_differ, are_together, are_ordered};
ghost use Rattle.gic_case_reader.specs.OneByOne.{breaks_same_ends_from, breaks_same_sides_from};
ghost use Rattle.gic_case_reader.specs.OneByOne.{breaks_apart_from, breaks_voltage_order_from};

use crate::refusal::CaseRefusal;
use gic_case::{Bus, CaseList, Line, Transformer, Winding, substation_at};

/// Whether a winding runs from a bus from which none of the others does.
fn has_own_bus(winding: &Winding, others: &[Winding]) -> bool
    ensures { result ≡ list_all (λ v. not (winding.now.from.bus == v.from.bus)) others.now }
{
    others
        .iter()
        .all(|other| winding.from.bus != other.from.bus)
}

/// Whether each of these windings runs from a bus of its own.
fn sides_differ(windings: &[Winding]) -> bool
    ensures { result ≡ sides_differ windings.now }
{
    let mut left = windings;
    while let Some((winding, others)) = left.split_first() {
        if !has_own_bus(winding, others) {
            return false;
        }
        left = others;
    }
    true
}

/// Whether these windings run from buses of the substation at a place.
fn are_at(buses: &[Bus], substation: u16, windings: &[Winding]) -> bool
    ensures { result ≡ list_all (λ v. substation == substation_at buses.now v.from.bus) windings.now }
{
    windings.iter().all(|winding| substation == substation_at(buses, winding.from.bus))
}

/// Whether these windings run from buses of one substation.
fn are_together(buses: &[Bus], windings: &[Winding]) -> bool
    ensures { result ≡ are_together buses.now windings.now }
{
    match windings.split_first() {
        Some((first, others)) => are_at(buses, substation_at(buses, first.from.bus), others),
        None => true,
    }
}

/// Whether none of these windings runs from a voltage above that of the high side.
fn are_ordered(high_volts: u32, windings: &[Winding]) -> bool
    ensures { result ≡ are_ordered high_volts windings.now }
{
    windings
        .iter()
        .all(|winding| winding.from.volts <= high_volts)
}

/// Whether each line has two buses.
pub(crate) fn lines_have_two_buses(lines: &[Line]) -> Result<(), CaseRefusal>
    requires { length lines.now < 2 ^ 16 }
    ensures { AnswersExactly (λ u. u) result (settle (breaks_same_ends_from 1 lines.now) (tt {0})) }
{
    for (i, line) in lines.iter().enumerate() {
        if line.from == line.to {
            return Err(CaseRefusal::SameEnds {
                list: CaseList::Line,
                row: i as u32 + 1,
            });
        }
    }
    Ok(())
}

/// Whether the sides of each transformer have each a bus of its own.
pub(crate) fn sides_have_own_buses(transformers: &[Transformer]) -> Result<(), CaseRefusal>
    requires { length transformers.now < 2 ^ 16 }
    ensures { AnswersExactly (λ u. u) result (settle (breaks_same_sides_from 1 transformers.now) (tt {0})) }
{
    for (i, transformer) in transformers.iter().enumerate() {
        let windings = transformer.windings();
        if !sides_differ(windings.as_slice()) {
            return Err(CaseRefusal::SameEnds {
                list: CaseList::Transformer,
                row: i as u32 + 1,
            });
        }
    }
    Ok(())
}

/// Whether each transformer stands in one substation.
pub(crate) fn stand_in_one_substation(
    buses: &[Bus],
    transformers: &[Transformer],
) -> Result<(), CaseRefusal>
    requires { length transformers.now < 2 ^ 16 }
    ensures { AnswersExactly (λ u. u) result (settle (breaks_apart_from buses.now 1 transformers.now) (tt {0})) }
{
    for (i, transformer) in transformers.iter().enumerate() {
        let windings = transformer.windings();
        if !are_together(buses, windings.as_slice()) {
            return Err(CaseRefusal::Apart { row: i as u32 + 1 });
        }
    }
    Ok(())
}

/// Whether no transformer's low or third voltage is above its high voltage.
pub(crate) fn voltages_are_ordered(transformers: &[Transformer]) -> Result<(), CaseRefusal>
    requires { length transformers.now < 2 ^ 16 }
    ensures { AnswersExactly (λ u. u) result (settle (breaks_voltage_order_from 1 transformers.now) (tt {0})) }
{
    for (i, transformer) in transformers.iter().enumerate() {
        let windings = transformer.windings();
        if !are_ordered(transformer.high_volts, windings.as_slice()) {
            return Err(CaseRefusal::VoltageOrder { row: i as u32 + 1 });
        }
    }
    Ok(())
}
