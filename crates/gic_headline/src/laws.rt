//! That every call keeps the headline, by the theorems of the modes.
ghost use Rattle.gic_headline.specs.Laws.{EachCallKeepsTheHeadline, EachRunKeepsTheHeadline};

use gic_certify::laws::right_certificates_law;
use gic_claims::laws::bound_networks_are_earthed_law;
use gic_exists::laws::{agreement_law, existence_law};
use gic_field::laws::field_verdicts_law;
use gic_laws::laws::{
    dwells_of_studies_law, earthings_of_studies_law, losses_of_studies_law, worst_orientation_law,
};
use gic_make::laws::made_cases_law;
use gic_outage::laws::right_outages_law;
use gic_recheck::laws::accepted_certificates_law;
use gic_robust::laws::robust_verdicts_law;
use gic_screen_mode::laws::screen_verdicts_law;
use gic_study::laws::{
    accepted_is_reported_law, asked_cases_are_sound_law, asked_storms_have_steps_law,
};
use gic_study_mode::laws::peaks_of_studies_law;
use gic_varied::laws::{any_grounds_law, varied_law};
use gic_winding::laws::limits_law;
use gic_words::laws::made_in_range_law;

/// The headline, of every call that ends as `gicstudy` of `gic_study` says. With status 0 the whole text of a true report
/// was written: each of its intervals holds the exact value, whatever solves each step's standing network, verdicts are
/// true of the exact currents, and where it speaks of solutions one exists, and any two agree. What is true of which
/// report, and how wide its intervals are, is told mode by mode. Every other status but 11 has its cause. Where the library
/// tells its files, what is accepted, solvable and not hindered is reported, out of memory aside.
pub fn headline_law()
    ensures { EachCallKeepsTheHeadline }
{
    existence_law();
    agreement_law();
    limits_law();
    bound_networks_are_earthed_law();
    right_certificates_law();
    accepted_certificates_law();
    worst_orientation_law();
    field_verdicts_law();
    screen_verdicts_law();
    varied_law();
    any_grounds_law();
    robust_verdicts_law();
    right_outages_law();
    peaks_of_studies_law();
    dwells_of_studies_law();
    earthings_of_studies_law();
    losses_of_studies_law();
    made_cases_law();
    made_in_range_law();
    asked_cases_are_sound_law();
    asked_storms_have_steps_law();
    accepted_is_reported_law();
}

/// So does every run of the program.
pub fn program_headline_law()
    ensures { EachRunKeepsTheHeadline }
{
    headline_law();
}
