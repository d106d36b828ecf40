// The mathematics of run sheets: running orders, wanting facts and driving. These functions do nothing: their contracts are the theorems.
#![tactic(auto)]

ghost use Rattle.orders.specs.DrivingTheorems.{DrivingEndsRunning, DrivingIsFront, NoDeadEnd, RunningIsDriven};
ghost use Rattle.orders.specs.EditTheorems.{GroupAddsFewest, GroupKeepsGood, GroupKeepsRules, GroupOrdersAreOld, LoosenKeepsRules, NeighboursMeet, PartsAreTiedAlike, ReplaceKeepsBlocks, ReplaceKeepsRules, ReplaceKeepsTies, SwapCarriesBlocks, SwapKeepsGood, SwapKeepsRules, SwapRenamesOrders, SwapUndone, UngroupKeepsRules};
ghost use Rattle.orders.specs.Theorems.{HomeIsRunning, TestDecidesWanting};

/// In every sheet that keeps its rules, a fact is wanting at a place exactly when the test says so.
pub fn wanting_exactly_when_the_test_says_so()
    ensures { TestDecidesWanting }
{}

/// The home order of every sheet that keeps its rules is a running order.
pub fn home_is_a_running_order()
    ensures { HomeIsRunning }
{}

/// While positions are undone, one of them is open.
pub fn no_driving_comes_to_a_dead_end()
    ensures { NoDeadEnd }
{}

/// A driving to the end is a running order.
pub fn a_driving_to_the_end_is_a_running_order()
    ensures { DrivingEndsRunning }
{}

/// Every running order can be driven, to the end.
pub fn every_running_order_can_be_driven()
    ensures { RunningIsDriven }
{}

/// Every driving is the front of a running order.
pub fn every_driving_is_the_front_of_a_running_order()
    ensures { DrivingIsFront }
{}

/// Where it may be made, group keeps the rules.
pub fn group_keeps_the_rules()
    ensures { GroupKeepsRules }
{}

/// Every sheet that keeps the rules, has the old ties and has the new block has all ties of the grouped sheet.
pub fn group_adds_the_fewest_ties()
    ensures { GroupAddsFewest }
{}

/// Every running order of a grouped sheet was one before.
pub fn running_orders_after_group_are_old()
    ensures { GroupOrdersAreOld }
{}

/// Group makes no fact wanting.
pub fn a_good_sheet_stays_good_under_group()
    ensures { GroupKeepsGood }
{}

/// Ungroup keeps the rules.
pub fn ungroup_keeps_the_rules()
    ensures { UngroupKeepsRules }
{}

/// From one part to the other all positions are tied, or none.
pub fn two_parts_are_tied_alike()
    ensures { PartsAreTiedAlike }
{}

/// Where it may be made, loosen keeps the rules.
pub fn loosen_keeps_the_rules()
    ensures { LoosenKeepsRules }
{}

/// The parts of two neighbours are two runs of positions, one right behind the other.
pub fn the_parts_of_neighbours_meet()
    ensures { NeighboursMeet }
{}

/// The blocks of a swapped sheet are the old ones, each with its positions.
pub fn swap_carries_the_blocks()
    ensures { SwapCarriesBlocks }
{}

/// Where it may be made, swap keeps the rules.
pub fn swap_keeps_the_rules()
    ensures { SwapKeepsRules }
{}

/// Where positions go under swap and where they come from undo each other.
pub fn swap_can_be_undone()
    ensures { SwapUndone }
{}

/// The running orders of a swapped sheet are the old ones, renamed.
pub fn swap_renames_the_running_orders()
    ensures { SwapRenamesOrders }
{}

/// Swap makes no fact wanting.
pub fn a_good_sheet_stays_good_under_swap()
    ensures { SwapKeepsGood }
{}

/// Replace keeps the rules.
pub fn replace_keeps_the_rules()
    ensures { ReplaceKeepsRules }
{}

/// The new steps are tied to the other positions as all that they replace was.
pub fn replace_keeps_the_ties_around()
    ensures { ReplaceKeepsTies }
{}

/// The blocks after replace are the new steps and the old blocks that were not inside what they replace.
pub fn replace_keeps_the_blocks_around()
    ensures { ReplaceKeepsBlocks }
{}
