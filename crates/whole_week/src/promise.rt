// What is promised of every week.
ghost use Rattle.whole_week.specs.Week.{WholeWeek};

use rigs::Rig;
use task::Tariff;

/// Whatever is edited and driven, by whatever tariff and on whatever two kinds of rig: no driving meets a refused
/// step, a dead end or an end without the goal, prices balance, and an edit is refused for a missing fact exactly
/// when some driving over the sheet it asked for fails.
pub fn every_week_keeps_its_promise<T: Tariff, R: Rig, S: Rig>()
    ensures { (tariff : T) → WholeWeek R.meaning S.meaning (T.Tariff.prices tariff) }
{}
