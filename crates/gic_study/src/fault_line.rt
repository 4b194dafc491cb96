//! The line that tells a fault.
ghost use Rattle.std.specs.Prelude.{◌≡◌, ◌∷◌, ◌++◌, [], map, codes};
ghost use Rattle.gic_base.specs.Writes.{Writes};
ghost use Rattle.gic_text.specs.Words.{spaced};
ghost use Rattle.gic_storm.specs.declared.refusal.StormRefusal.TheVariants.{Number};
ghost use Rattle.gic_study.specs.Faults.{usage_words, case_words, column_word, record_words, storm_words, switch_words, input_words};
ghost use Rattle.gic_study.specs.Faults.{network_words, certificate_words, memory_words, file_word, row_words, field_words, node_words};
ghost use Rattle.gic_study.specs.Faults.{told_line, line_of_fault};

use crate::fault::Fault;
use gic_ask::{File, InputFault, InputRefusal};
use gic_base::{Name, Sink, WriteFailed, write_all};
use gic_case::CaseList;
use gic_case_reader::{CaseRefusal, Field};
use gic_recheck::CertificateRefusal;
use gic_stand::{NetworkRefusal, ReportFault};
use gic_storm::{StormField, StormRefusal};
use gic_switch::SwitchRefusal;
use gic_words::Usage;

/// Writes a space and a word.
fn write_after_space<E: Sink>(word: &str, err: &mut E) -> Result<(), WriteFailed>
    ensures { Writes E.written E.faults err.old err.new (32 ∷ word.now) result }
{
    write_all(err, b" ")?;
    write_all(err, word.as_bytes())
}

/// Writes words, each after a space.
fn write_spaced<E: Sink>(words: &[&str], err: &mut E) -> Result<(), WriteFailed>
    ensures { Writes E.written E.faults err.old err.new (spaced (map (λ w. w.now) words.entry.now)) result }
{
    for word in words {
        write_after_space(word, err)?;
    }
    Ok(())
}

/// Writes the line of the program's name, words and more words.
fn write_joined<E: Sink>(words: &[&str], more: &[&str], err: &mut E) -> Result<(), WriteFailed>
    ensures { Writes E.written E.faults err.old err.new
        (told_line (map (λ w. w.now) words.entry.now ++ map (λ w. w.now) more.entry.now)) result }
{
    write_all(err, b"gicstudy:")?;
    write_spaced(words, err)?;
    write_spaced(more, err)?;
    write_all(err, b"\n")
}

/// Writes the line of the program's name and words.
fn write_line<E: Sink>(words: &[&str], err: &mut E) -> Result<(), WriteFailed>
    ensures { Writes E.written E.faults err.old err.new (told_line (map (λ w. w.now) words.entry.now)) result }
{
    write_joined(words, &[], err)
}

/// How a fault line names a file.
fn file_word(file: File) -> &'static str
    ensures { result.now ≡ file_word file }
{
    match file {
        File::Case => "case",
        File::Storm => "storm",
        File::Switch => "switch",
        File::Certificate => "cert",
    }
}

/// Writes the line of a fault of the words.
fn write_usage<E: Sink>(usage: Usage, err: &mut E) -> Result<(), WriteFailed>
    ensures { Writes E.written E.faults err.old err.new (told_line (codes "usage:" ∷ usage_words usage)) result }
{
    match usage {
        Usage::Words => write_line(&["usage:", "words"], err),
        Usage::Mode => write_line(&["usage:", "mode"], err),
        Usage::Extra { option } => write_line(&["usage:", "extra", option.flag()], err),
        Usage::Missing { option } => write_line(&["usage:", "missing", option.flag()], err),
        Usage::Number { option } => write_line(&["usage:", "number", option.flag()], err),
        Usage::Value { option } => write_line(&["usage:", "value", option.flag()], err),
    }
}

/// Writes the line of words, a list and a row.
fn write_row<E: Sink>(
    words: &[&str],
    list: CaseList,
    row: u32,
    err: &mut E,
) -> Result<(), WriteFailed>
    ensures { Writes E.written E.faults err.old err.new (told_line (row_words (map (λ w. w.now) words.entry.now) list row)) result }
{
    let mut buffer = itoa::Buffer::new();
    write_joined(words, &[list.word(), "row", buffer.format(row)], err)
}

/// Writes the line of words, a list, a row and a field.
fn write_field<E: Sink>(
    words: &[&str],
    list: CaseList,
    row: u32,
    field: Field,
    err: &mut E,
) -> Result<(), WriteFailed>
    ensures { Writes E.written E.faults err.old err.new (told_line (field_words (map (λ w. w.now) words.entry.now) list row field)) result }
{
    let mut buffer = itoa::Buffer::new();
    let place = [list.word(), "row", buffer.format(row), "field", field.key()];
    write_joined(words, &place, err)
}

/// Writes a space and a name.
fn write_name<E: Sink>(name: Name, err: &mut E) -> Result<(), WriteFailed>
    ensures { Writes E.written E.faults err.old err.new (32 ∷ name) result }
{
    write_all(err, b" ")?;
    write_all(err, name.as_bytes())
}

/// Writes the line of the program's name, words and the name of a node.
fn write_named<E: Sink>(words: &[&str], name: Name, err: &mut E) -> Result<(), WriteFailed>
    ensures { Writes E.written E.faults err.old err.new (told_line (map (λ w. w.now) words.entry.now ++ name ∷ [])) result }
{
    write_all(err, b"gicstudy:")?;
    write_spaced(words, err)?;
    write_name(name, err)?;
    write_all(err, b"\n")
}

/// Writes the line of a refused case.
fn write_case<E: Sink>(refusal: CaseRefusal, err: &mut E) -> Result<(), WriteFailed>
    ensures { Writes E.written E.faults err.old err.new (told_line (case_words refusal)) result }
{
    match refusal {
        CaseRefusal::NotToml => write_line(&["case:", "not", "toml"], err),
        CaseRefusal::Key { list, row } => write_row(&["case:", "key", "in"], list, row, err),
        CaseRefusal::Value { list, row, field } => {
            write_field(&["case:", "value", "in"], list, row, field, err)
        }
        CaseRefusal::TooMany { list } => {
            write_line(&["case:", "too", "many", "in", list.word()], err)
        }
        CaseRefusal::Duplicate { list, row } => {
            write_row(&["case:", "duplicate", "name", "in"], list, row, err)
        }
        CaseRefusal::Unknown { list, row, field } => {
            write_field(&["case:", "unknown", "name", "in"], list, row, field, err)
        }
        CaseRefusal::SameEnds { list, row } => {
            write_row(&["case:", "same", "ends", "in"], list, row, err)
        }
        CaseRefusal::Apart { row } => {
            write_row(&["case:", "apart", "in"], CaseList::Transformer, row, err)
        }
        CaseRefusal::VoltageOrder { row } => {
            write_row(
                &["case:", "voltage", "order", "in"],
                CaseList::Transformer,
                row,
                err,
            )
        }
        CaseRefusal::Degree { node } => {
            write_named(&["case:", "degree", "at", "node"], node, err)
        }
    }
}

/// How a fault line names a number of a row of a storm.
fn column_word(field: StormField) -> &'static str
    ensures { result.now ≡ column_word field }
{
    match field {
        StormField::Time => "time",
        StormField::North => "north",
        StormField::East => "east",
    }
}

/// Writes the line of what a row of a file breaks; the first word names the file.
fn write_record<E: Sink>(file: &str, what: &str, row: u32, err: &mut E) -> Result<(), WriteFailed>
    ensures { Writes E.written E.faults err.old err.new (told_line (record_words file.now what.now row)) result }
{
    let mut buffer = itoa::Buffer::new();
    write_line(&[file, what, "in", "row", buffer.format(row)], err)
}

/// Writes the line of a number in a row of the storm.
fn write_storm_number<E: Sink>(row: u32, field: StormField, err: &mut E) -> Result<(), WriteFailed>
    ensures { Writes E.written E.faults err.old err.new (told_line (storm_words (Number row field))) result }
{
    let mut buffer = itoa::Buffer::new();
    let place = ["row", buffer.format(row), "field", column_word(field)];
    write_joined(&["storm:", "number", "in"], &place, err)
}

/// Writes the line of a refused storm.
fn write_storm<E: Sink>(refusal: StormRefusal, err: &mut E) -> Result<(), WriteFailed>
    ensures { Writes E.written E.faults err.old err.new (told_line (storm_words refusal)) result }
{
    match refusal {
        StormRefusal::Shape { row } => write_record("storm:", "shape", row, err),
        StormRefusal::Number { row, field } => write_storm_number(row, field, err),
        StormRefusal::Zone { row } => write_record("storm:", "zone", row, err),
        StormRefusal::Order { row } => write_record("storm:", "order", row, err),
        StormRefusal::Empty => write_line(&["storm:", "empty"], err),
        StormRefusal::TooMany => write_line(&["storm:", "too", "many"], err),
    }
}

/// Writes the line of refused switchings.
fn write_switchings<E: Sink>(refusal: SwitchRefusal, err: &mut E) -> Result<(), WriteFailed>
    ensures { Writes E.written E.faults err.old err.new (told_line (switch_words refusal)) result }
{
    match refusal {
        SwitchRefusal::Shape { row } => write_record("switch:", "shape", row, err),
        SwitchRefusal::Number { row } => write_record("switch:", "number", row, err),
        SwitchRefusal::Order { row } => write_record("switch:", "order", row, err),
        SwitchRefusal::Action { row } => write_record("switch:", "action", row, err),
        SwitchRefusal::Item { row } => write_record("switch:", "item", row, err),
        SwitchRefusal::TooMany => write_line(&["switch:", "too", "many"], err),
    }
}

/// Writes the line of what is wrong with the network at a step, and of the first node that shows it.
fn write_node<E: Sink>(what: &str, step: u32, node: Name, err: &mut E) -> Result<(), WriteFailed>
    ensures { Writes E.written E.faults err.old err.new (told_line (node_words what.now step node)) result }
{
    let mut buffer = itoa::Buffer::new();
    write_named(&[what, "step", buffer.format(step), "node"], node, err)
}

/// Writes the line of refused words or files.
fn write_input<E: Sink>(refusal: InputRefusal, err: &mut E) -> Result<(), WriteFailed>
    ensures { Writes E.written E.faults err.old err.new (told_line (input_words refusal)) result }
{
    match refusal {
        InputRefusal::Usage(usage) => write_usage(usage, err),
        InputRefusal::TooLong(file) => write_line(&["too", "long:", file_word(file)], err),
        InputRefusal::Case(refusal) => write_case(refusal, err),
        InputRefusal::UnknownTransformer => write_line(&["unknown", "transformer"], err),
        InputRefusal::Storm(refusal) => write_storm(refusal, err),
        InputRefusal::Switch(refusal) => write_switchings(refusal, err),
    }
}

/// Writes the line of a refused network.
fn write_network<E: Sink>(refusal: NetworkRefusal, err: &mut E) -> Result<(), WriteFailed>
    ensures { Writes E.written E.faults err.old err.new (told_line (network_words refusal)) result }
{
    match refusal {
        NetworkRefusal::Unearthed { step, node } => write_node("unearthed:", step, node, err),
        NetworkRefusal::Unresolved { step, node } => write_node("unresolved:", step, node, err),
    }
}

/// Writes the line of a refused certificate.
fn write_certificate<E: Sink>(refusal: CertificateRefusal, err: &mut E) -> Result<(), WriteFailed>
    ensures { Writes E.written E.faults err.old err.new (told_line (certificate_words refusal)) result }
{
    match refusal {
        CertificateRefusal::Shape { row } => write_record("cert:", "shape", row, err),
        CertificateRefusal::Number { row } => write_record("cert:", "number", row, err),
        CertificateRefusal::Node { row } => write_record("cert:", "node", row, err),
        CertificateRefusal::Row { node } => write_named(&["cert:", "row", "at", "node"], node, err),
        CertificateRefusal::Residual { node } => {
            write_named(&["cert:", "residual", "at", "node"], node, err)
        }
        CertificateRefusal::Radius { node } => {
            write_named(&["cert:", "radius", "at", "node"], node, err)
        }
    }
}

/// Writes the line of out of memory.
fn write_memory<E: Sink>(err: &mut E) -> Result<(), WriteFailed>
    ensures { Writes E.written E.faults err.old err.new (told_line memory_words) result }
{
    write_line(&["out", "of", "memory"], err)
}

/// Writes the line that tells a fault. Takes no memory.
pub(crate) fn write_fault<E: Sink>(fault: &Fault, err: &mut E) -> Result<(), WriteFailed>
    ensures { Writes E.written E.faults err.old err.new (line_of_fault fault.now) result }
{
    match fault {
        Fault::Input(InputFault::Refused(refusal)) => write_input(*refusal, err),
        Fault::Input(InputFault::CannotRead(file)) => {
            write_line(&["cannot", "read", file_word(*file)], err)
        }
        Fault::Report(ReportFault::Refused(refusal)) => write_network(*refusal, err),
        Fault::Report(ReportFault::CannotWrite) => write_line(&["cannot", "write"], err),
        Fault::Input(InputFault::Memory) | Fault::Memory(_) => write_memory(err),
        Fault::Certificate(refusal) => write_certificate(*refusal, err),
    }
}
