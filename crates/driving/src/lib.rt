// Drivings: calls on a run over a sheet, and on a rig. These functions do nothing: their contracts are the theorems.
#![tactic(auto)]

ghost use Rattle.driving.specs.Theorems.{BadSheetFails, GoodSheetServes, GoodSheetServesAsLaid};

/// Over a good sheet no driving meets a refused step or a dead end, and at its end all goal facts stand.
pub fn a_good_sheet_serves_every_driving()
    ensures { GoodSheetServes }
{}

/// Over a good sheet the steps can be taken and done in home order, and all goal facts stand after the last.
pub fn a_good_sheet_serves_as_laid()
    ensures { GoodSheetServesAsLaid }
{}

/// Over a sheet that is wanting a fact, some driving fails.
pub fn a_bad_sheet_fails_some_driving()
    ensures { BadSheetFails }
{}
