//! One transformer's effective current at a step, superposed from the table of an epoch's base fields.
ghost use Rattle.std.specs.Prelude.{◌≡◌, ◌<◌, length};
ghost use Rattle.gic_fixed.specs.Ends.{ends_of};
ghost use Rattle.gic_superpose.specs.Superposed.{superposed};
ghost use Rattle.gic_base_views.specs.Table.{base_rows_of};

use crate::table::BaseTable;
use gic_fixed::Interval;
use gic_induce::Fields;

/// The interval of a transformer's signed effective current, in milliamperes per phase, that the fields make of its row:
/// that of the view which `fill_superposed` fills. The fields, in mV/km, are those of the table's zones.
pub fn superposed_effective(fields: &Fields, table: &BaseTable, transformer: u16) -> Interval
    requires fields { length fields.now ≡ table.now.effective.zones }
    requires transformer { transformer < table.now.effective.places }
    ensures { ends_of result ≡ superposed fields.now ((base_rows_of table.now).effective transformer) }
{
    table.effective.superposed(fields, transformer)
}
