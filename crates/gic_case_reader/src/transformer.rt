//! Rows of transformers, whose fields are those of their kind.
ghost use Rattle.std.specs.Prelude.{◌≡◌};
ghost use Rattle.toml.specs.View.{view, table_view};
ghost use Rattle.gic_base.specs.Refusals.{AnswersExactly};
ghost use Rattle.gic_base.specs.Passes.{test};
ghost use Rattle.gic_case_reader.specs.declared.refusal.CaseRefusal.TheVariants.{Key};
ghost use Rattle.gic_case.specs.declared.case_list.CaseList.TheVariants as lists;
ghost use Rattle.gic_case_reader.specs.declared.field.Field.TheVariants as fields;
ghost use Rattle.gic_case_reader.specs.Keys.{fits};
ghost use Rattle.gic_case_reader.specs.Transformers.{in_third_format, kind_word, read_kind, fields_of, has_neutral, others_of};
ghost use Rattle.gic_case_reader.specs.Pass.{required, table_with, delta_wye_row, third_row, third_if};
ghost use Rattle.gic_case_reader.specs.Pass.{wye_wye_row, auto_row, reactor_row, kind_row, transformer_row};

use crate::field::Field;
use crate::format::Format;
use crate::keys::{at_key, fits, has};
use crate::refusal::CaseRefusal;
use crate::row::TransformerRow;
use crate::value::{name_at, ohm_at, optional_neutral_at, volts_at};
use gic_base::Name;
use gic_case::{CaseList, Kind, Third};
use toml::{Table, Value};

/// The list of these rows.
const LIST: CaseList = CaseList::Transformer;

/// The kind of a transformer, as its word tells it.
#[derive(Clone, Copy)]
pub(crate) enum KindWord {
    DeltaWye,
    WyeWye,
    Auto,
    WyeWyeWye,
    AutoWye,
    Reactor,
    DeltaDelta,
}

impl KindWord {
    /// The kind, where the format has those that only the third has.
    fn in_third_format(self, format: Format) -> Option<KindWord>
        ensures { result ≡ in_third_format format self }
    {
        if format.is_third() { Some(self) } else { None }
    }

    /// The kind that a word tells.
    #[tactic(auto, unfolding(crate::specs::Transformers::kind_word))]
    fn read(format: Format, text: &str) -> Option<KindWord>
        ensures { result ≡ kind_word format text.now }
    {
        match text {
            "delta-wye" => Some(KindWord::DeltaWye),
            "wye-wye" => Some(KindWord::WyeWye),
            "auto" => Some(KindWord::Auto),
            "delta-delta" => Some(KindWord::DeltaDelta),
            "wye-wye-wye" => KindWord::WyeWyeWye.in_third_format(format),
            "auto-wye" => KindWord::AutoWye.in_third_format(format),
            "reactor" => KindWord::Reactor.in_third_format(format),
            _ => None,
        }
    }

    /// The fields that a transformer of the kind must have.
    fn fields(self) -> &'static [Field]
        ensures { result.now ≡ fields_of self }
    {
        match self {
            KindWord::DeltaWye | KindWord::Reactor => &[
                Field::Kind,
                Field::Name,
                Field::HighVolts,
                Field::High,
                Field::HighResistance,
            ],
            KindWord::WyeWye => &[
                Field::Kind,
                Field::Name,
                Field::HighVolts,
                Field::High,
                Field::Low,
                Field::LowVolts,
                Field::HighResistance,
                Field::LowResistance,
            ],
            KindWord::Auto => &[
                Field::Kind,
                Field::Name,
                Field::HighVolts,
                Field::High,
                Field::Low,
                Field::LowVolts,
                Field::SeriesResistance,
                Field::CommonResistance,
            ],
            KindWord::WyeWyeWye => &[
                Field::Kind,
                Field::Name,
                Field::HighVolts,
                Field::High,
                Field::Low,
                Field::LowVolts,
                Field::HighResistance,
                Field::LowResistance,
                Field::Third,
                Field::ThirdVolts,
                Field::ThirdResistance,
            ],
            KindWord::AutoWye => &[
                Field::Kind,
                Field::Name,
                Field::HighVolts,
                Field::High,
                Field::Low,
                Field::LowVolts,
                Field::SeriesResistance,
                Field::CommonResistance,
                Field::Third,
                Field::ThirdVolts,
                Field::ThirdResistance,
            ],
            KindWord::DeltaDelta => &[Field::Kind, Field::Name, Field::HighVolts],
        }
    }

    /// Whether a unit of the kind has a neutral.
    fn has_neutral(self) -> bool
        ensures { result ≡ has_neutral self }
    {
        !matches!(self, KindWord::DeltaDelta)
    }

    /// The fields that it may have: its neutral device, where the format has such devices.
    fn others(self, format: Format) -> &'static [Field]
        ensures { result.now ≡ others_of format self }
    {
        if self.has_neutral() && format.has_devices() {
            &[Field::Neutral]
        } else {
            &[]
        }
    }
}

/// The table that a row is, if it has a kind.
#[tactic(auto, unfolding(crate::specs::Pass::table_with))]
fn kinded_table(row: u32, value: &Value) -> Result<&Table, CaseRefusal>
    ensures { AnswersExactly (λ t. table_view t.now) result (table_with lists.Transformer fields.Kind row (view value.now)) }
{
    match value.as_table() {
        Some(table) if has(table, Field::Kind) => Ok(table),
        _ => Err(CaseRefusal::Key { list: LIST, row }),
    }
}

/// The kind that a value is, where it is the word of one.
fn read_kind(format: Format, value: &Value) -> Option<KindWord>
    ensures { result ≡ read_kind format (view value.now) }
{
    KindWord::read(format, value.as_str()?)
}

/// The kind of a row.
#[tactic(auto, unfolding(crate::specs::Pass::required))]
fn kind_at(format: Format, row: u32, table: &Table) -> Result<KindWord, CaseRefusal>
    ensures { AnswersExactly (λ k. k) result (required (read_kind format) lists.Transformer row fields.Kind (table_view table.now)) }
{
    let refusal = CaseRefusal::Value {
        list: LIST,
        row,
        field: Field::Kind,
    };
    match at_key(table, Field::Kind.key()) {
        Some(value) => read_kind(format, value).ok_or(refusal),
        None => Err(refusal),
    }
}

/// Whether a row has the keys of its kind.
fn kind_keys(format: Format, kind: KindWord, row: u32, table: &Table) -> Result<(), CaseRefusal>
    ensures { AnswersExactly (λ u. u) result
        (test (fits (fields_of kind) (others_of format kind) (table_view table.now)) (Key lists.Transformer row)) }
{
    if fits(kind.fields(), kind.others(format), table) {
        Ok(())
    } else {
        Err(CaseRefusal::Key { list: LIST, row })
    }
}

/// What a delta-wye unit has of its own.
#[tactic(auto, unfolding(crate::specs::Pass::delta_wye_row))]
fn delta_wye_row(row: u32, table: &Table) -> Result<Kind<Name>, CaseRefusal>
    ensures { AnswersExactly (λ k. k) result (delta_wye_row row (table_view table.now)) }
{
    let high = name_at(LIST, row, Field::High, table)?;
    let high_resistance = ohm_at(LIST, row, Field::HighResistance, table)?;
    Ok(Kind::DeltaWye {
        high,
        high_resistance,
    })
}

/// A third winding.
#[tactic(auto, unfolding(crate::specs::Pass::third_row))]
fn third_row(row: u32, table: &Table) -> Result<Third<Name>, CaseRefusal>
    ensures { AnswersExactly (λ t. t) result (third_row row (table_view table.now)) }
{
    let bus = name_at(LIST, row, Field::Third, table)?;
    let volts = volts_at(LIST, row, Field::ThirdVolts, table)?;
    let resistance = ohm_at(LIST, row, Field::ThirdResistance, table)?;
    Ok(Third {
        bus,
        volts,
        resistance,
    })
}

/// The third winding of a unit that has one.
fn third_if(with_third: bool, row: u32, table: &Table) -> Result<Option<Third<Name>>, CaseRefusal>
    ensures { AnswersExactly (λ t. t) result (third_if with_third row (table_view table.now)) }
{
    if with_third {
        Ok(Some(third_row(row, table)?))
    } else {
        Ok(None)
    }
}

/// What a wye-wye unit has of its own, with a third winding or without.
#[tactic(auto, unfolding(crate::specs::Pass::wye_wye_row))]
fn wye_wye_row(with_third: bool, row: u32, table: &Table) -> Result<Kind<Name>, CaseRefusal>
    ensures { AnswersExactly (λ k. k) result (wye_wye_row with_third row (table_view table.now)) }
{
    let high = name_at(LIST, row, Field::High, table)?;
    let low = name_at(LIST, row, Field::Low, table)?;
    let low_volts = volts_at(LIST, row, Field::LowVolts, table)?;
    let high_resistance = ohm_at(LIST, row, Field::HighResistance, table)?;
    let low_resistance = ohm_at(LIST, row, Field::LowResistance, table)?;
    let third = third_if(with_third, row, table)?;
    Ok(Kind::WyeWye {
        high,
        low,
        low_volts,
        high_resistance,
        low_resistance,
        third,
    })
}

/// What an autotransformer has of its own, with a third winding or without.
#[tactic(auto, unfolding(crate::specs::Pass::auto_row))]
fn auto_row(with_third: bool, row: u32, table: &Table) -> Result<Kind<Name>, CaseRefusal>
    ensures { AnswersExactly (λ k. k) result (auto_row with_third row (table_view table.now)) }
{
    let high = name_at(LIST, row, Field::High, table)?;
    let low = name_at(LIST, row, Field::Low, table)?;
    let low_volts = volts_at(LIST, row, Field::LowVolts, table)?;
    let series_resistance = ohm_at(LIST, row, Field::SeriesResistance, table)?;
    let common_resistance = ohm_at(LIST, row, Field::CommonResistance, table)?;
    let third = third_if(with_third, row, table)?;
    Ok(Kind::Auto {
        high,
        low,
        low_volts,
        series_resistance,
        common_resistance,
        third,
    })
}

/// What a reactor has of its own.
#[tactic(auto, unfolding(crate::specs::Pass::reactor_row))]
fn reactor_row(row: u32, table: &Table) -> Result<Kind<Name>, CaseRefusal>
    ensures { AnswersExactly (λ k. k) result (reactor_row row (table_view table.now)) }
{
    let high = name_at(LIST, row, Field::High, table)?;
    let high_resistance = ohm_at(LIST, row, Field::HighResistance, table)?;
    Ok(Kind::Reactor {
        high,
        high_resistance,
    })
}

/// What a transformer of a kind has of its own.
#[tactic(auto, unfolding(crate::specs::Pass::kind_row))]
fn kind_row(kind: KindWord, row: u32, table: &Table) -> Result<Kind<Name>, CaseRefusal>
    ensures { AnswersExactly (λ k. k) result (kind_row kind row (table_view table.now)) }
{
    match kind {
        KindWord::DeltaWye => delta_wye_row(row, table),
        KindWord::WyeWye => wye_wye_row(false, row, table),
        KindWord::Auto => auto_row(false, row, table),
        KindWord::WyeWyeWye => wye_wye_row(true, row, table),
        KindWord::AutoWye => auto_row(true, row, table),
        KindWord::Reactor => reactor_row(row, table),
        KindWord::DeltaDelta => Ok(Kind::DeltaDelta),
    }
}

/// A row of the transformers, in a case of a format.
#[tactic(auto, unfolding(crate::specs::Pass::transformer_row))]
pub(crate) fn transformer_row(
    format: Format,
    row: u32,
    value: &Value,
) -> Result<TransformerRow, CaseRefusal>
    ensures { AnswersExactly (λ t. t) result (transformer_row format row (view value.now)) }
{
    let table = kinded_table(row, value)?;
    let word = kind_at(format, row, table)?;
    kind_keys(format, word, row, table)?;
    let name = name_at(LIST, row, Field::Name, table)?;
    let high_volts = volts_at(LIST, row, Field::HighVolts, table)?;
    let kind = kind_row(word, row, table)?;
    let neutral = optional_neutral_at(LIST, row, Field::Neutral, table)?;
    Ok(TransformerRow {
        name,
        high_volts,
        kind,
        neutral,
    })
}
