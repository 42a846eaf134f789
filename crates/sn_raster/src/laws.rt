//! Laws of grids and of planes.
ghost use Rattle.sn_raster.specs.GridLaws.{MarginIsGreatest, PlacesAreBetween, PlacesAreCounted, WindowIsGrown, RawNodesAreTheJobs, FitsByItsNodes};
ghost use Rattle.sn_raster.specs.PlaneLaws.{PlanesAreTheirNodes, NodesHaveMarks, MarksAreNodes};
ghost use Rattle.sn_raster.specs.ReachLaws.{NearIsInABox};

/// Laws of grids.
pub fn grids()
    ensures margin { MarginIsGreatest }
    ensures between { PlacesAreBetween }
    ensures count { PlacesAreCounted }
    ensures window { WindowIsGrown }
    ensures raw { RawNodesAreTheJobs }
    ensures fits { FitsByItsNodes }
{}

/// Laws of planes.
pub fn planes()
    ensures nodes { PlanesAreTheirNodes }
    ensures marks { NodesHaveMarks }
    ensures marked { MarksAreNodes }
{}

/// Laws of what may be near a segment.
pub fn nearness()
    ensures { NearIsInABox }
{}
