//! How a line and its acts are judged.
ghost use Rattle.std.specs.Prelude.{◌≡◌, ◌+◌, ◌<◌, ℕ, List, [], ◌∷◌, ◌++◌, length};
ghost use Rattle.sn_geom.specs.declared.units.Pt3.{Pt3 as Point};
ghost use Rattle.sn_geom.specs.Acts.{Act, Mark, Feed, act_list, mark_acts, motion_act, motion_acts, end_acts};
ghost use Rattle.sn_geom.specs.LineText.{LineText};
ghost use Rattle.sn_geom.specs.Sweep.{IsHorizontalOrVertical};
ghost use Rattle.sn_raster.specs.Heights.{Pass, StandsFor};
ghost use Rattle.sn_open.specs.Good.{body_of, pass_of};
ghost use Rattle.sn_open.specs.Verdict.{IsActCause};
ghost use Rattle.sn_sweep.specs.Causes.{TellsFirst};
ghost use Rattle.sn_sweep.specs.Judging.{KeepsActs, KeepsProgram, KeepsMachine, IsStraight, AreStraight, JudgesActs, JudgesLine};

use crate::causes::{body_with, entry_cause, mark_cause, rapid_cause};
use crate::checker::Checker;
use crate::feed::feed_cause;
use crate::planes::make_current;
use sn_block::read_line;
use sn_geom::laws::machine::faults;
use sn_geom::{Acts, Block, Motion, Pt3, line_readings};
use sn_open::Cause;
use sn_open::verdict_laws::line_causes;

impl<'a> Checker<'a> {
    /// Does what a line says, or tells its first cause.
    pub(crate) fn take_line(&mut self, line: &[u8]) -> Option<Cause>
        ensures program { KeepsProgram self.old self.new }
        ensures judged { (before : List Act) → KeepsActs self.old.job before self.old
            → JudgesLine self.old.job self.old.machine before line.now self.new result }
    {
        line_causes();
        match read_line(line) {
            Err(fault) => Some(Cause::LineFault(fault)),
            Ok(block) => self.take_block(&block),
        }
    }

    fn take_block(&mut self, block: &Block) -> Option<Cause>
        ensures program { KeepsProgram self.old self.new }
        ensures judged { (before : List Act) (line : List ℕ) → LineText line block.now → KeepsActs self.old.job before self.old
            → JudgesLine self.old.job self.old.machine before line self.new result }
    {
        faults();
        line_readings();
        line_causes();
        match self.machine.step(block) {
            Err(fault) => Some(Cause::MachFault(fault)),
            Ok(acts) => self.take_acts(&acts),
        }
    }

    fn take_acts(&mut self, acts: &Acts) -> Option<Cause>
        requires { AreStraight acts.now.motion }
        ensures machine { KeepsMachine self.old self.new }
        ensures judged { (before : List Act) → KeepsActs self.old.job before self.old
            → JudgesActs self.old.job before (act_list acts.now) self.new result }
    {
        if let Some(cause) = self.take_mark(acts.mark) {
            return Some(cause);
        }
        if let Some(cause) = self.take_motion(acts.motion) {
            return Some(cause);
        }
        self.take_end(acts.end);
        None
    }

    fn take_mark(&mut self, mark: Option<u32>) -> Option<Cause>
        ensures machine { KeepsMachine self.old self.new }
        ensures judged { (before : List Act) → KeepsActs self.old.job before self.old
            → JudgesActs self.old.job before (mark_acts mark) self.new result }
    {
        match mark {
            None => None,
            Some(n) => {
                if let Some(cause) = mark_cause(self.job, self.marks, n) {
                    return Some(cause);
                }
                self.begin_step();
                None
            }
        }
    }

    /// Makes the next step the current one.
    fn begin_step(&mut self)
        requires { self.old.marks < length self.old.job.steps }
        ensures others { self.new ≡ record self.old { marks = self.old.marks + 1; allowed = self.new.allowed } }
        ensures keeps { (before : List Act) (n : ℕ) → KeepsActs self.old.job before self.old
            → KeepsActs self.old.job (before ++ Mark n ∷ []) self.new }
    {
        self.job.rule();
        make_current(&mut self.planes, self.job, self.marks, self.grid);
        self.marks += 1;
    }

    fn take_motion(&mut self, motion: Option<Motion>) -> Option<Cause>
        requires { AreStraight motion }
        ensures machine { KeepsMachine self.old self.new }
        ensures judged { (before : List Act) → KeepsActs self.old.job before self.old
            → JudgesActs self.old.job before (motion_acts motion) self.new result }
    {
        match motion {
            None => None,
            Some(motion) => {
                if let Some(cause) = self.motion_cause(&motion) {
                    return Some(cause);
                }
                self.follow(&motion);
                None
            }
        }
    }

    fn motion_cause(&self, motion: &Motion) -> Option<Cause>
        requires { IsStraight motion.now }
        ensures { (before : List Act) → KeepsActs self.now.job before self.now
            → TellsFirst (IsActCause self.now.job before (motion_act motion.now)) result }
    {
        match motion {
            Motion::Enter(z) => entry_cause(self.job, *z),
            Motion::Locate(to) => entry_cause(self.job, to.z),
            Motion::Rapid(from, to, tool) => {
                rapid_cause(self.job, &self.heights, from, to, *tool)
            }
            Motion::Feed(from, to, feed, speed, tool) => {
                self.feed_cause(from, to, *feed, *speed, *tool)
            }
        }
    }

    fn feed_cause(&self, from: &Pt3, to: &Pt3, feed: u32, speed: u32, tool: u32) -> Option<Cause>
        requires { IsHorizontalOrVertical from.now to.now }
        ensures { (before : List Act) → KeepsActs self.now.job before self.now
            → TellsFirst (IsActCause self.now.job before (Feed from.now to.now feed speed tool)) result }
    {
        match &self.planes {
            None => Some(Cause::Early),
            Some(planes) => feed_cause(
                self.job,
                &self.heights,
                &planes.allowed,
                self.marks,
                from,
                to,
                feed,
                speed,
                tool,
            ),
        }
    }

    fn follow(&mut self, motion: &Motion)
        requires { IsStraight motion.now }
        ensures others { self.new ≡ record self.old { heights = self.new.heights } }
        ensures keeps { (before : List Act) → KeepsActs self.old.job before self.old
            → KeepsActs self.old.job (before ++ motion_act motion.now ∷ []) self.new }
    {
        match motion {
            Motion::Enter(_) => {}
            Motion::Locate(_) => {}
            Motion::Rapid(_, _, _) => {}
            Motion::Feed(from, to, _, _, tool) => self.cut(from, to, *tool),
        }
    }

    /// Takes away what the tool surely cuts on its way.
    fn cut(&mut self, from: &Pt3, to: &Pt3, tool: u32)
        requires { IsHorizontalOrVertical from.now to.now }
        ensures others { self.new ≡ record self.old { heights = self.new.heights } }
        ensures material { (some : List Pass) → StandsFor self.old.heights self.old.job some
            → StandsFor self.new.heights self.old.job (some ++ pass_of (body_of self.old.job.steps tool) from.now to.now) }
    {
        self.job.rule();
        if let Some(body) = body_with(self.job, tool) {
            self.heights.cut(&body, from, to);
        }
    }

    fn take_end(&mut self, end: bool)
        ensures others { self.new ≡ record self.old { ended = self.new.ended } }
        ensures keeps { (before : List Act) → KeepsActs self.old.job before self.old
            → KeepsActs self.old.job (before ++ end_acts end) self.new }
    {
        if end {
            self.ended = true;
        }
    }
}
