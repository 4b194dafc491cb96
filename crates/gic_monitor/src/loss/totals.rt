//! What a monitor of losses keeps.
ghost use Rattle.std.specs.Prelude.{◌≡◌, ◌≤◌, ℕ, List, [], ◌∷◌, ◌++◌, Some, OnOk, length, option_map};
ghost use Rattle.std.specs.Option.{option_to_list};
ghost use Rattle.gic_text.specs.Lines.{line_text};
ghost use Rattle.gic_view.specs.View.{View};
ghost use Rattle.gic_monitor.specs.LossText.{greatest_of, loss_line, loss_text};
ghost use Rattle.gic_monitor.specs.LossOutlook.{total_seen, text_behind};

use crate::loss::total::{SeenTotal, total_of};
use gic_base::OutOfMemory;
use gic_fixed::Interval;
use gic_text::LineBuilder;
use gic_view::StepView;
use std::alloc::Global;

/// The greatest ends of the totals so far and of the next one, and the first number that has the high one.
fn greatest(so_far: Option<SeenTotal>, next: SeenTotal) -> SeenTotal
    ensures { greatest_of (option_to_list (option_map total_seen so_far) ++ total_seen next ∷ []) ≡ Some (total_seen result) }
{
    match so_far {
        None => next,
        Some(first) => SeenTotal {
            number: if first.ends.hi < next.ends.hi {
                next.number
            } else {
                first.number
            },
            ends: Interval::new(
                first.ends.lo.max(next.ends.lo),
                first.ends.hi.max(next.ends.hi),
            ),
        },
    }
}

/// Adds the line that begins with this word and tells of these totals.
#[tactic(auto, using(gic_text::proofs::Sizes::line_space))]
fn print_greatest(
    alloc: Global,
    word: &[u8],
    greatest: &Option<SeenTotal>,
    into: &mut Vec<u8>,
) -> Result<(), OutOfMemory>
    // As long as `table`.
    requires { length word.now ≤ 5 }
    ensures { OnOk result (into.new.items ≡ into.old.items
        ++ line_text (loss_line word.now (option_map total_seen greatest.now))) }
{
    let mut line = LineBuilder::new(alloc)?;
    line.word(word);
    match greatest {
        None => line.word(b"none"),
        Some(greatest) => {
            line.number(greatest.ends.lo);
            line.number(greatest.ends.hi);
            line.word(b"step");
            line.number(i128::from(greatest.number));
        }
    }
    into.extend_from_slice(line.finish())?;
    Ok(())
}

/// The factors of the units in var per ampere, in the order of the roster, and the greatest ends of the totals of the
/// views so far, `None` before the first.
#[derive(Drop)]
pub(crate) struct Totals {
    factors: Vec<u32>,
    greatest: Option<SeenTotal>,
}

impl Totals {
    /// Over units with these factors, before the first view.
    pub(crate) fn new(factors: Vec<u32>) -> Totals
        ensures { (word : List ℕ) (views : List View) → text_behind word result views ≡ loss_text word factors.items views }
    {
        Totals {
            factors,
            greatest: None,
        }
    }

    /// Takes in a view.
    pub(crate) fn see(&mut self, view: &StepView)
        ensures { (word : List ℕ) (views : List View) →
            text_behind word self.new views ≡ text_behind word self.old (view.now ∷ views) }
    {
        self.greatest = Some(greatest(self.greatest, total_of(&self.factors, view)));
    }

    /// Adds the line that begins with this word. After a refusal nothing is known of what was added.
    pub(crate) fn print(
        &self,
        alloc: Global,
        word: &[u8],
        into: &mut Vec<u8>,
    ) -> Result<(), OutOfMemory>
        requires { length word.now ≤ 5 }
        ensures { OnOk result (into.new.items ≡ into.old.items ++ text_behind word.now self.now []) }
    {
        print_greatest(alloc, word, &self.greatest, into)
    }
}
