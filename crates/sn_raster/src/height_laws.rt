//! Laws of the material that is left after passes.
ghost use Rattle.sn_raster.specs.HeightLaws.{CutStaysCut, SamePassesLeaveTheSame, UntouchedIsLeft, TopIsOne, CellsAreCounted};

use sn_geom::laws::touching;

/// Laws of material.
pub fn materials()
    ensures stays { CutStaysCut }
    ensures same_passes { SamePassesLeaveTheSame }
    ensures untouched { UntouchedIsLeft }
{
    touching();
}

/// Laws of tops and counts.
pub fn counts()
    ensures top { TopIsOne }
    ensures cells { CellsAreCounted }
{}
