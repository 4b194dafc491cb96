//! The element list of a case.
ghost use Rattle.std.specs.Prelude.{◌≡◌, ◌≤◌, ◌++◌, All, IfOk, OnOk, length};
ghost use Rattle.gic_case.specs.Sound.{IsSoundTransformer};
ghost use Rattle.gic_case.specs.Lists.{neutrals_of};
ghost use Rattle.gic_winding.specs.ElementList.{earthings_of, lines_of, all_windings_of, resistors_of, elements_of};

use crate::push::{push_earthing, push_line, push_resistor, push_windings};
use gic_base::limits::MOST_TRANSFORMERS;
use gic_base::{NodeId, OutOfMemory};
use gic_case::{Case, Transformer, neutrals, node_count};
use gic_model::{Element, Elements};
use std::alloc::Global;

/// The elements of a case, in their order: the earthings, the lines that are not blocked, the windings, and the neutral
/// resistors. The nodes are the substations, then the buses, then the neutral nodes.
pub fn elements(alloc: Global, case: &Case) -> Result<Elements, OutOfMemory>
    ensures { IfOk result (λ elements. elements ≡ elements_of case.now) }
{
    let neutrals = neutrals(alloc, case)?;
    let mut list = Vec::new(alloc);
    push_all_earthings(&mut list, case)?;
    push_all_lines(&mut list, case)?;
    push_all_windings(&mut list, case, neutrals.as_slice())?;
    push_all_resistors(&mut list, case, neutrals.as_slice())?;
    Ok(Elements::new(node_count(case), list))
}

fn push_all_earthings(list: &mut Vec<Element>, case: &Case) -> Result<(), OutOfMemory>
    ensures { OnOk result (list.new.items ≡ list.old.items ++ earthings_of case.now) }
{
    for (place, substation) in case.substations().iter().enumerate() {
        push_earthing(list, place as u16, substation.ground)?;
    }
    Ok(())
}

fn push_all_lines(list: &mut Vec<Element>, case: &Case) -> Result<(), OutOfMemory>
    ensures { OnOk result (list.new.items ≡ list.old.items ++ lines_of case.now) }
{
    for (place, line) in case.lines().iter().enumerate() {
        push_line(list, case, place as u16, line)?;
    }
    Ok(())
}

fn push_all_windings(
    list: &mut Vec<Element>,
    case: &Case,
    neutrals: &[(u16, Transformer)],
) -> Result<(), OutOfMemory>
    requires all { neutrals.now ≡ neutrals_of case.now }
    requires few { length neutrals.now ≤ MOST_TRANSFORMERS }
    requires sound { All (λ p. IsSoundTransformer case.now p.1) neutrals.now }
    ensures { OnOk result (list.new.items ≡ list.old.items ++ all_windings_of case.now) }
{
    for (place, (neutral, transformer)) in neutrals.iter().enumerate() {
        push_windings(list, case, place as u16, NodeId(*neutral), transformer)?;
    }
    Ok(())
}

fn push_all_resistors(
    list: &mut Vec<Element>,
    case: &Case,
    neutrals: &[(u16, Transformer)],
) -> Result<(), OutOfMemory>
    requires all { neutrals.now ≡ neutrals_of case.now }
    requires few { length neutrals.now ≤ MOST_TRANSFORMERS }
    requires sound { All (λ p. IsSoundTransformer case.now p.1) neutrals.now }
    ensures { OnOk result (list.new.items ≡ list.old.items ++ resistors_of case.now) }
{
    for (place, (neutral, transformer)) in neutrals.iter().enumerate() {
        push_resistor(list, case, place as u16, NodeId(*neutral), transformer)?;
    }
    Ok(())
}
