//! Laws of the definitions. Each function's contract states laws, and the function does nothing.
ghost use Rattle.sn_feature.specs.FormLaws.{RowsHaveForms};
ghost use Rattle.sn_feature.specs.OutlineLaws.{SidesAreHalved, WidthOfFive, FaceLiesBesidePath, PathGoesInDirection, RepeatedLastIsDropped, LongPolylineIsBad};
ghost use Rattle.sn_feature.specs.StepLaws.{PartsTell, StepsAgree, NeverMemory, StepsAreFit, PointOfDrill, FaultsInOrder};

/// Laws of outlines where they are drawn.
pub fn outlines()
    ensures sides { SidesAreHalved }
    ensures five { WidthOfFive }
    ensures faces { FaceLiesBesidePath }
    ensures paths { PathGoesInDirection }
    ensures polygons { RepeatedLastIsDropped }
    ensures long { LongPolylineIsBad }
{}

/// Each row of the groups that a step leads to has a form, a bottom, a way of cutting or a cutter.
pub fn rows_have_forms()
    ensures { RowsHaveForms }
{}

/// Laws of the parts of steps.
pub fn steps()
    ensures tell { PartsTell }
    ensures agree { StepsAgree }
    ensures fit { StepsAreFit }
    ensures drills { PointOfDrill }
{}

/// Laws of refusals.
pub fn refusals()
    ensures memory { NeverMemory }
    ensures order { FaultsInOrder }
{}
