//! Laws of the layout of programs: what a program is good for does not depend on how it is laid out.
ghost use Rattle.sn_program.specs.LayoutLaws.{GoodGoesByTheActs, LinesMayBeReplaced, LinesOfOneBlock, ModalMotionsMayBeLeftOut, RatesMayStandAlone, SilentLinesDoNothing, WordsMaySwap};
ghost use Rattle.sn_program.specs.LayoutExamples.{LayoutsOfALine, OtherLayoutsMeanTheSame};

use sn_geom::laws::meaning::{programs, texts};
use sn_geom::line_readings;

/// Laws of programs whose lines say the same.
pub fn layouts()
    ensures acts { GoodGoesByTheActs }
    ensures lines { LinesOfOneBlock }
    ensures silent { SilentLinesDoNothing }
{
    line_readings();
    texts();
    programs();
}

/// Laws of words that stand in another order or on other lines, or that are left out.
pub fn splits()
    ensures order { WordsMaySwap }
    ensures modal { ModalMotionsMayBeLeftOut }
    ensures alone { RatesMayStandAlone }
    ensures replaced { LinesMayBeReplaced }
{}

/// Layouts of lines and of a program, worked by hand.
pub fn worked_layouts()
    ensures forms { LayoutsOfALine }
    ensures program { OtherLayoutsMeanTheSame }
{
    programs();
}
