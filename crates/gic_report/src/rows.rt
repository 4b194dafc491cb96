//! The rows of the items of a case, one after another.
ghost use Rattle.std.specs.Prelude.{◌≡◌, [], ◌∷◌, ◌++◌, slice_get, MatchOption};
ghost use Rattle.std.specs.Option.{option_to_list};
ghost use Rattle.std.specs.Iterator.{YieldsFirst, item_count};
ghost use Rattle.gic_case.specs.Windings.{windings_of};
ghost use Rattle.gic_report.specs.ItemText.{ground_rows, line_row, winding_rows, neutral_rows};
ghost use Rattle.gic_report.specs.ItemText.{all_ground_rows, all_winding_rows, all_neutral_rows, item_rows_of};
ghost use Rattle.gic_report.specs.RowsLeft.{rows_left};

use gic_base::Name;
use gic_case::{Case, Line, Neutral, Substation, Transformer, Winding};
use gic_model::Role;
use gic_winding::role_of;

/// A row of the items of a case: what stands in it, the name of its substation, line or transformer, and whether it is
/// blocked.
#[derive(Clone, Copy, Debug)]
pub struct ItemRow {
    pub role: Role,
    pub name: Name,
    pub blocked: bool,
}

impl ItemRow {
    ghost use Rattle.std.specs.Prelude.{◌≡◌, false};
    ghost use Rattle.gic_report.specs.ItemText.{item_row_of};

    /// A row that isn't blocked.
    fn new(role: Role, name: Name) -> ItemRow
        ensures { result ≡ item_row_of role name false }
    {
        ItemRow {
            role,
            name,
            blocked: false,
        }
    }
}

/// The rows of the items of a case from one on: grounds, lines, windings and neutral devices, each in the order of their
/// lists.
#[derive(Drop)]
pub(crate) struct ItemRows<'a> {
    grounds: &'a [Substation],
    lines: &'a [Line],
    /// The second winding of a transformer whose first one was the last row.
    second: Option<ItemRow>,
    /// The third winding of a transformer whose first or second one was the last row.
    third: Option<ItemRow>,
    windings: &'a [Transformer],
    neutrals: &'a [Transformer],
}

impl<'a> ItemRows<'a> {
    /// The rows of all items of a case.
    pub fn of(case: &'a Case) -> ItemRows<'a>
        ensures { rows_left result ≡ item_rows_of case.now }
    {
        ItemRows {
            grounds: case.substations(),
            lines: case.lines(),
            second: None,
            third: None,
            windings: case.transformers(),
            neutrals: case.transformers(),
        }
    }
}

/// The row of a substation's ground, if it has one.
fn ground_row(substation: &Substation) -> Option<ItemRow>
    ensures { ground_rows substation.now.name substation.now.ground ≡ option_to_list result }
{
    match substation.ground {
        Some(_) => Some(ItemRow::new(Role::Ground, substation.name)),
        None => None,
    }
}

/// The row of a line.
fn line_row(line: &Line) -> ItemRow
    ensures { result ≡ line_row line.now }
{
    ItemRow {
        role: Role::Line,
        name: line.name,
        blocked: line.blocked,
    }
}

/// The row of a winding of the transformer of this name, if there is one at this place.
#[tactic(auto, using(crate::proofs::RowHeads::row_at))]
fn winding_row(name: Name, windings: &[Winding], place: usize) -> Option<ItemRow>
    ensures { result ≡ slice_get (winding_rows name windings.now) place }
{
    match windings.get(place) {
        Some(winding) => Some(ItemRow::new(role_of(winding.role), name)),
        None => None,
    }
}

/// The rows of a transformer's windings, if it has any: of the first one, and of the second and the third one if there are
/// such.
#[tactic(auto, using(crate::proofs::RowHeads::no_rows))]
fn winding_rows(transformer: &Transformer) -> Option<(ItemRow, Option<ItemRow>, Option<ItemRow>)>
    ensures { MatchOption result
        (winding_rows transformer.now.name (windings_of transformer.now) ≡ [])
        (λ p. winding_rows transformer.now.name (windings_of transformer.now)
        ≡ p.0 ∷ (option_to_list p.1 ++ option_to_list p.2)) }
{
    let name = transformer.name;
    let windings = transformer.windings();
    let windings = windings.as_slice();
    let first = winding_row(name, windings, 0);
    let second = winding_row(name, windings, 1);
    let third = winding_row(name, windings, 2);
    match first {
        Some(first) => Some((first, second, third)),
        None => None,
    }
}

/// The row of a transformer's neutral device, if it has one.
fn neutral_row(transformer: &Transformer) -> Option<ItemRow>
    ensures { neutral_rows transformer.now.name transformer.now.neutral ≡ option_to_list result }
{
    match transformer.neutral {
        Some(Neutral::Resistor(_)) => Some(ItemRow::new(Role::Neutral, transformer.name)),
        Some(Neutral::Blocked) => Some(ItemRow {
            role: Role::Neutral,
            name: transformer.name,
            blocked: true,
        }),
        None => None,
    }
}

/// The first row of these grounds, and the substations behind it.
fn next_ground(substations: &[Substation]) -> Option<(ItemRow, &[Substation])>
    ensures { MatchOption result
        (all_ground_rows substations.now ≡ [])
        (λ p. all_ground_rows substations.now ≡ p.0 ∷ all_ground_rows p.1.now) }
{
    let mut left = substations;
    while let Some((substation, others)) = left.split_first() {
        if let Some(row) = ground_row(substation) {
            return Some((row, others));
        }
        left = others;
    }
    None
}

/// The first row of these windings, those of the same transformer behind it, and the transformers behind that.
fn next_windings(
    transformers: &[Transformer],
) -> Option<(ItemRow, Option<ItemRow>, Option<ItemRow>, &[Transformer])>
    ensures { MatchOption result
        (all_winding_rows transformers.now ≡ [])
        (λ p. all_winding_rows transformers.now
        ≡ p.0 ∷ (option_to_list p.1 ++ (option_to_list p.2 ++ all_winding_rows p.3.now))) }
{
    let mut left = transformers;
    while let Some((transformer, others)) = left.split_first() {
        if let Some((first, second, third)) = winding_rows(transformer) {
            return Some((first, second, third, others));
        }
        left = others;
    }
    None
}

/// The first row of these neutral devices, and the transformers behind it.
fn next_neutral(transformers: &[Transformer]) -> Option<(ItemRow, &[Transformer])>
    ensures { MatchOption result
        (all_neutral_rows transformers.now ≡ [])
        (λ p. all_neutral_rows transformers.now ≡ p.0 ∷ all_neutral_rows p.1.now) }
{
    let mut left = transformers;
    while let Some((transformer, others)) = left.split_first() {
        if let Some(row) = neutral_row(transformer) {
            return Some((row, others));
        }
        left = others;
    }
    None
}

impl Iterator for ItemRows<'_> {
    type Item = ItemRow;

    ghost next_gives = { YieldsFirst rows_left };

    ghost remaining = { item_count rows_left };

    fn next(&mut self) -> Option<ItemRow> {
        if let Some((row, others)) = next_ground(self.grounds) {
            self.grounds = others;
            return Some(row);
        }
        if let Some((line, others)) = self.lines.split_first() {
            self.lines = others;
            return Some(line_row(line));
        }
        if let Some(row) = self.second {
            self.second = None;
            return Some(row);
        }
        if let Some(row) = self.third {
            self.third = None;
            return Some(row);
        }
        if let Some((first, second, third, others)) = next_windings(self.windings) {
            self.second = second;
            self.third = third;
            self.windings = others;
            return Some(first);
        }
        if let Some((row, others)) = next_neutral(self.neutrals) {
            self.neutrals = others;
            return Some(row);
        }
        None
    }
}
