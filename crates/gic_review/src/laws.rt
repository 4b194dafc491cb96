//! What the text of the mode tells, and theorems over what is found, each the contract of a function that does nothing.
ghost use Rattle.std.specs.Prelude.{◌≡◌};
ghost use Rattle.gic_review.specs.Determines.{TextDeterminesFindings};
ghost use Rattle.gic_winding.specs.ElementList.{elements_of};
ghost use Rattle.gic_review.specs.Findings.{findings_with};
ghost use Rattle.gic_review.specs.FindingsLaws.{PartsAreOne, FindingsAreOne};
ghost use Rattle.gic_review.specs.PartSizes.{sizes_of};
ghost use Rattle.gic_review.specs.Worked.{ungrounded_case, ungrounded_findings, turned_case, turned_findings, parted_case, parted_findings};
ghost use Rattle.gic_review.specs.Worked.{levels_case, levels_findings, third_case, third_findings, alpha_case, alpha_findings};

/// Texts that are equal tell the same findings.
pub fn text_determines_findings_law()
    ensures { TextDeterminesFindings }
{}

/// The sizes of the parts of a network are those that are counted.
pub fn parts_law()
    ensures { PartsAreOne }
{}

/// What is found in a sound case is determined.
pub fn findings_law()
    ensures { FindingsAreOne }
{}

/// What is found in the cases that are worked by hand.
#[tactic(auto, unfolding(gic_winding::specs::ElementList::elements_of))]
pub fn worked_cases_law()
    ensures ungrounded { findings_with ungrounded_case (sizes_of (elements_of ungrounded_case)) ≡ ungrounded_findings }
    ensures turned { findings_with turned_case (sizes_of (elements_of turned_case)) ≡ turned_findings }
    ensures parted { findings_with parted_case (sizes_of (elements_of parted_case)) ≡ parted_findings }
    ensures levels { findings_with levels_case (sizes_of (elements_of levels_case)) ≡ levels_findings }
    ensures third { findings_with third_case (sizes_of (elements_of third_case)) ≡ third_findings }
    ensures alphas { findings_with alpha_case (sizes_of (elements_of alpha_case)) ≡ alpha_findings }
{}
