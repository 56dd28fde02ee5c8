//! Sound sheets.

ghost use Rattle.std.specs.Prelude.{take};
ghost use Rattle.sheet.specs.Compiled.{Compiled};

use super::tables::Tables;
use rows::CheckedRows;

/// A sheet that was checked, with the tables that its standings are worked out by.
///
/// Every value of this type is sound. Its rows cannot be altered: another sheet is read and checked.
// No Model: clauses speak of `rows_of`. The rows alone would be a value with no way back to the tables, which Copy needs.
#[derive(Clone, Copy)]
pub struct SoundSheet {
    pub(super) checked: CheckedRows,
    pub(super) tables: Tables,
    ghost compiled: { ∥ Compiled (take checked.count checked.rows) tables ∥₁ },
}
