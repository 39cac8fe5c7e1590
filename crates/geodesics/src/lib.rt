// The theorems on measured maps, each the contract of a function that does nothing. They hold over every
// kind of length, which is the function's parameter, and every board of 1 to 256 rows and columns with
// heights below 65,536.
#![tactic(auto)]

ghost use Rattle.geodesics.specs.Between.{GapIsLeast, OverEveryRuler, RouteIsShortest};
ghost use Rattle.geodesics.specs.GapSums.{PublishedGap};
ghost use Rattle.geodesics.specs.Least.{BarredEverywhere, LeastLengths, LinksAreWays, OverEveryGauge};
ghost use Rattle.geodesics.specs.Needed.{FirstIsNeeded, GrowthIsNeeded, OrderIsNeeded};
ghost use Rattle.geodesics.specs.Transform.{PublishedTransform};
ghost use Rattle.geodesics.specs.Unique.{OneMap};

use lengths::Length;

/// Over every lawful gauge and every group, whatever its number: a reached cell's length is the least of a
/// path of the group to it, and a cell is unreached exactly when there is no path to it.
pub fn lengths_are_least<K: Length>()
    ensures { OverEveryGauge K.kind LeastLengths }
{}

/// Over every lawful gauge and every group: from a reached cell the links lead to a source with the cell's
/// pad, within as many cells as there are, and backwards that is a path of the cell's length. Where steps
/// add nothing, too.
pub fn links_are_ways<K: Length>()
    ensures { OverEveryGauge K.kind LinksAreWays }
{}

/// Over every lawful gauge and every group: the ranking rule has exactly one result, and boards that say
/// the same have one map.
pub fn there_is_one_map<K: Length>()
    ensures { OverEveryGauge K.kind OneMap }
{}

/// Under a gauge that bars every step exactly the sources are reached, whatever the group.
pub fn barring_all_reaches_sources<K: Length>()
    ensures { OverEveryGauge K.kind BarredEverywhere }
{}

/// The four rulers give the distance transform on curved space, in units, three-four with a weight from 0
/// to 64. No cap is reached: distances stay below 2^40.
pub fn rulers_give_the_transform()
    ensures { PublishedTransform }
{}

/// Over every lawful ruler the gap is the least length of a path from group 1 to group 2, and there is
/// none exactly when there is no such path.
pub fn gap_is_least<K: Length>()
    ensures { OverEveryRuler K.kind GapIsLeast }
{}

/// By the four rulers the gap is the least sum of the step formula over lists of neighbours from group 1
/// to group 2, in units, three-four with a weight from 0 to 64. No cap is reached: gaps stay below 2^40.
pub fn rulers_give_the_gap()
    ensures { PublishedGap }
{}

/// Over every lawful ruler a cell is marked exactly when it lies on a path from group 1 to group 2 that is
/// as short as any.
pub fn route_is_shortest<K: Length>()
    ensures { OverEveryRuler K.kind RouteIsShortest }
{}

/// The theorems do not hold of wrong models: lengths are not least under a gauge that breaks either law,
/// and a rule that takes the last of equal offers is not the rule of the map.
pub fn wrong_models_fail()
    ensures order { OrderIsNeeded }
    ensures growth { GrowthIsNeeded }
    ensures first { FirstIsNeeded }
{}
