//! What can be switched, by its name.
ghost use Rattle.std.specs.Prelude.{◌≡◌, ◌≤◌, ℕ, List, map, length, IfOk, Some, None, option_map, if◌then◌else◌};
ghost use Rattle.std.specs.HashMap.{get};
ghost use Rattle.std.specs.Option.{option_or};
ghost use Rattle.gic_case.specs.Names.{same, place_in};
ghost use Rattle.gic_model.specs.declared.parts.Item.TheVariants as items;
ghost use Rattle.gic_switch.specs.ItemsOf.{FindsNamed};

use gic_base::Name;
use gic_base::limits::{MOST_LINES, MOST_SUBSTATIONS, MOST_TRANSFORMERS};
use gic_case::{Case, Line, Substation, Transformer};
use gic_model::Item;
use std::alloc::{AllocError, Global};
use std::collections::HashMap;

/// Enters what a name stands for, unless the name is there already.
fn enter(named: &mut HashMap<Name, Item>, name: Name, item: Item) -> Result<(), AllocError>
    ensures { IfOk result (λ done. (q : List ℕ) → get same named.new q
        ≡ option_or (get same named.old q) (if same name q then Some item else None)) }
{
    if !named.contains_key(&name) {
        named.insert(name, item)?;
    }
    Ok(())
}

/// Enters the lines.
fn enter_lines(named: &mut HashMap<Name, Item>, lines: &[Line]) -> Result<(), AllocError>
    requires { length lines.now ≤ MOST_LINES }
    ensures { IfOk result (λ done. (q : List ℕ) → get same named.new q
        ≡ option_or (get same named.old q) (option_map items.Line (place_in (map (λ l. l.name) lines.now) q))) }
{
    for (place, line) in lines.iter().enumerate() {
        enter(named, line.name, Item::Line(place as u16))?;
    }
    Ok(())
}

/// Enters the transformers.
fn enter_transformers(
    named: &mut HashMap<Name, Item>,
    transformers: &[Transformer],
) -> Result<(), AllocError>
    requires { length transformers.now ≤ MOST_TRANSFORMERS }
    ensures { IfOk result (λ done. (q : List ℕ) → get same named.new q
        ≡ option_or (get same named.old q) (option_map items.Transformer (place_in (map (λ t. t.name) transformers.now) q))) }
{
    for (place, transformer) in transformers.iter().enumerate() {
        enter(named, transformer.name, Item::Transformer(place as u16))?;
    }
    Ok(())
}

/// Enters the substations, as their grounds.
fn enter_substations(
    named: &mut HashMap<Name, Item>,
    substations: &[Substation],
) -> Result<(), AllocError>
    requires { length substations.now ≤ MOST_SUBSTATIONS }
    ensures { IfOk result (λ done. (q : List ℕ) → get same named.new q
        ≡ option_or (get same named.old q) (option_map items.Ground (place_in (map (λ s. s.name) substations.now) q))) }
{
    for (place, substation) in substations.iter().enumerate() {
        enter(named, substation.name, Item::Ground(place as u16))?;
    }
    Ok(())
}

/// What each name of a case stands for, of what can be switched.
pub(crate) fn named_items(alloc: Global, case: &Case) -> Result<HashMap<Name, Item>, AllocError>
    ensures { IfOk result (λ found. FindsNamed case.now (get same found)) }
{
    let mut named = HashMap::new(alloc);
    enter_lines(&mut named, case.lines())?;
    enter_transformers(&mut named, case.transformers())?;
    enter_substations(&mut named, case.substations())?;
    Ok(named)
}
