// Two sheets, and the labels that are tried for them.
ghost use Rattle.judge.specs.Labels.{Tries};
ghost use Rattle.sheet.specs.Held.{rows_of};

use crate::labels::Labels;
use sheet::sound::SoundSheet;

/// An old and a new sheet, with the labels to try: the last stands for all that neither sheet names.
#[derive(Drop)]
pub struct Pair {
    pub old: SoundSheet,
    pub new: SoundSheet,
    pub labels: Labels,
    ghost tries: { ∥ Tries (rows_of old) (rows_of new) labels ∥₁ },
}
