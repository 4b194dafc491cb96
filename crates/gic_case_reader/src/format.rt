//! The format of a case.
ghost use Rattle.std.specs.Prelude.{◌≡◌, ◌<◌, ◌^◌, if◌then◌else◌};
ghost use Rattle.toml.specs.View.{table_view};
ghost use Rattle.gic_base.specs.Refusals.{AnswersExactly};
ghost use Rattle.gic_case_reader.specs.declared.field.Field.TheVariants as fields;
ghost use Rattle.gic_case.specs.declared.case_list.CaseList.TheVariants as lists;
ghost use Rattle.gic_case_reader.specs.Formats.{format_by, read_format, has_devices, is_third, most_rows};
ghost use Rattle.gic_case_reader.specs.Pass.{required};

use crate::field::Field;
use crate::refusal::CaseRefusal;
use crate::value::natural_at;
use gic_base::limits::{
    MOST_BUSES, MOST_BUSES_BEFORE_FORMAT_3, MOST_LINES, MOST_LINES_BEFORE_FORMAT_3,
    MOST_SUBSTATIONS, MOST_SUBSTATIONS_BEFORE_FORMAT_3, MOST_TRANSFORMERS,
    MOST_TRANSFORMERS_BEFORE_FORMAT_3, MOST_ZONES,
};
use gic_case::CaseList;
use toml::Table;

/// The format of a case: what its rows may say, and how many of them there may be.
#[derive(Clone, Copy)]
pub(crate) enum Format {
    One,
    Two,
    Three,
}

impl Format {
    /// The format of a number from 1 to 3.
    fn of(number: u32) -> Format
        ensures { result ≡ format_by number }
    {
        match number {
            1 => Format::One,
            2 => Format::Two,
            _ => Format::Three,
        }
    }

    /// Whether transformers may have neutral devices.
    pub(crate) fn has_devices(self) -> bool
        ensures { result ≡ has_devices self }
    {
        match self {
            Format::One => false,
            Format::Two | Format::Three => true,
        }
    }

    /// Whether zones may have scales, lines parts, and transformers a third winding.
    pub(crate) fn is_third(self) -> bool
        ensures { result ≡ is_third self }
    {
        match self {
            Format::One | Format::Two => false,
            Format::Three => true,
        }
    }

    /// The most rows of a list.
    pub(crate) fn most_rows(self, list: CaseList) -> usize
        ensures value { result ≡ most_rows self list }
        ensures few { result < 2 ^ 16 }
    {
        match list {
            CaseList::Document => 0,
            CaseList::Zone => MOST_ZONES,
            CaseList::Substation => self.choose(MOST_SUBSTATIONS, MOST_SUBSTATIONS_BEFORE_FORMAT_3),
            CaseList::Bus => self.choose(MOST_BUSES, MOST_BUSES_BEFORE_FORMAT_3),
            CaseList::Line => self.choose(MOST_LINES, MOST_LINES_BEFORE_FORMAT_3),
            CaseList::Transformer => self.choose(
                MOST_TRANSFORMERS,
                MOST_TRANSFORMERS_BEFORE_FORMAT_3,
            ),
        }
    }

    /// The first number in the third format, and the other before.
    fn choose(self, in_third: usize, before: usize) -> usize
        ensures { result ≡ (if is_third self then in_third else before) }
    {
        if self.is_third() { in_third } else { before }
    }
}

/// The format of a document.
#[tactic(auto, unfolding(crate::specs::Pass::required))]
pub(crate) fn format_at(table: &Table) -> Result<Format, CaseRefusal>
    ensures { AnswersExactly (λ f. f) result (required read_format lists.Document 0 fields.Format (table_view table.now)) }
{
    let number = natural_at(CaseList::Document, 0, Field::Format, 1, 3, table)?;
    Ok(Format::of(number))
}
