// Small sheets, and what the rules say of each.

#![tactic(auto)]

ghost use Rattle.smallsheets.specs.Table.{EveryRowHolds};

/// What `lay`, `check`, `apply` and `take` promise leaves no other answer than the table's, and no other sheet.
pub fn every_small_sheet_is_as_the_table_says()
    ensures { EveryRowHolds }
{}
