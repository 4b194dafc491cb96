//! A table of factors.
use gic_base::Name;
use gic_monitor::NamedFactor;
use std::alloc::Global;
use std::io;

/// How many entries the table has.
const ENTRIES: u32 = 36;

/// How many names they have.
const NAMES: u32 = 24;

/// The table: the names `T0` to `T23`, and the first twelve of them once more, which counts for nothing. The factor of the
/// first entry is 400 var per ampere, and that of each further one 7 more.
pub(crate) fn table(alloc: Global) -> io::Result<Vec<NamedFactor>> {
    let mut table = Vec::new(alloc);
    for place in 0..ENTRIES {
        let name = format!(in alloc; "T{}", place % NAMES)?;
        if let Some(name) = Name::read(name.as_bytes()) {
            table.push(NamedFactor {
                name,
                factor: 400 + 7 * place,
            })?;
        }
    }
    Ok(table)
}
