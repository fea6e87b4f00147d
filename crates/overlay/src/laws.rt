ghost use Rattle.overlay.specs.Laws.{OverlaysAssociative, OverNothing, StretchesUnite, MapsThrough, MapsThroughAll, OneRuns, RunsExist};

use super::marks::Mark;

/// The laws of overlays, for every kind of mark and every filler.
pub fn laws_of_overlays<M>()
    ensures bracketing { OverlaysAssociative M }
    ensures over_nothing { OverNothing M }
    ensures stretches { StretchesUnite M }
{}

/// A change of every mark may be made before an overlay or after it. So what holds of marks holds
/// of what they stand for.
pub fn laws_of_maps<M, N>()
    ensures one { MapsThrough M N }
    ensures stretch { MapsThroughAll M N }
{}

/// A difference has exactly one list of canonical runs.
pub fn laws_of_runs<M: Mark>()
    ensures one_runs { OneRuns M.moves }
    ensures runs_exist { RunsExist M.moves M.alike }
{}
