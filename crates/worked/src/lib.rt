//! Worked examples, as tables about the definitions: each holds by the rules alone, whatever the code does.

#![tactic(auto)]

ghost use Rattle.worked.specs.Costs.{AtCeiling, BreaksALaw, Priced, TextsFirst};
ghost use Rattle.worked.specs.Examples.{Worked};
ghost use Rattle.worked.specs.Handing.{Handing};
ghost use Rattle.worked.specs.Judgements.{Judgements};
ghost use Rattle.worked.specs.Lines.{Fronts, Lines};
ghost use Rattle.worked.specs.Refusals.{JustRead, NotSound, ReadingRefused, SheetsRefused};
ghost use Rattle.worked.specs.Standings.{AsExpression, Standings};

/// Which of the worked records belong to which of the worked sheets, and what one of them costs.
pub fn worked_examples()
    ensures { Worked }
{}

/// The exact standings of records over sheets: each rule of belonging and of what may follow a leaf decides one of them.
pub fn standing_examples()
    ensures exact { Standings }
    ensures definitions { AsExpression }
{}

/// Record bodies that are refused, by number and place, and records at the bounds that are read.
pub fn reading_examples()
    ensures read { JustRead }
    ensures refused { ReadingRefused }
{}

/// What is handed out of a record: its tokens in order, and each text where it stands.
pub fn handing_examples()
    ensures { Handing }
{}

/// Sheet bodies that are refused, by number and row, and such at the bounds that pass.
pub fn sheet_examples()
    ensures refused { SheetsRefused }
    ensures unsound { NotSound }
{}

/// Costs of records, costs at the ceiling, the order of fillings, and for each law a measure that keeps all others and breaks it.
pub fn cost_examples()
    ensures costs { Priced }
    ensures ceiling { AtCeiling }
    ensures texts { TextsFirst }
    ensures laws { BreaksALaw }
{}

/// How many sorts of forests there are, what is lost and what a loss tells, between sheets of the worked examples.
pub fn judging_examples()
    ensures { Judgements }
{}

/// What stands at the front of inputs, and lines.
pub fn line_examples()
    ensures fronts { Fronts }
    ensures lines { Lines }
{}
