//! What holds of forests and their bytes.
ghost use Rattle.forest.specs.Reading.{AlwaysJustOne, OneForm};

/// Each forest has one form, and each body stands for just one record or has just one refusal due.
pub fn bytes_are_exact()
    ensures one_form { OneForm }
    ensures just_one { AlwaysJustOne }
{}
