//! The machine.
ghost use Rattle.std.specs.Prelude.{◌≡◌, ◌↔◌, ◌&&◌, false, if◌then◌else◌, OkIff, OnOk, OnErr, IfErr};
ghost use Rattle.sn_geom.specs.Block.{has_axis};
ghost use Rattle.sn_geom.specs.Machine.{start, fault_of, acts_of, state_after, no_acts, says_something, prepared, is_positive, is_tool, has_wrong_offset, motion_fault, words_fault, motion_of, tip_after_words};
ghost use Rattle.sn_geom.specs.declared.machine.MachFault.{MachFault};
ghost use Rattle.sn_geom.specs.AxisWords.{AxesAreLengths};
ghost use Rattle.sn_machine.specs.LineActs.{motion_between, moved, refuses_percent, after_percent, acts_of_words};

use crate::motion::{
    height, is_feed, is_positive, is_slanted, motion_from, needs_lost, target, tip_after,
};
use crate::state::{Demarcation, LengthOffset, Modes, Spindle, Stage, motion_after, stops};
use crate::words::{count_of, has_axis, has_g, has_m};
use sn_geom::{Acts, Block, MachFault, Motion, MotionMode, Pt3, Tip, Um, Word};
use std::marker::Model;

/// The machine that runs the lines of a program (after RS274/NGC version 3, NISTIR 6556, in this project's profile).
///
/// It knows what the lines before set, and answers what each line does. After a fault it is as it was.
#[derive(Debug, Drop)]
pub struct Machine {
    demarcation: Demarcation,
    stage: Stage,
    modes: Modes,
    motion: Option<MotionMode>,
    feed: Option<u32>,
    speed: Option<u32>,
    chosen: Option<u32>,
    tool: Option<u32>,
    offset: LengthOffset,
    spindle: Spindle,
    tip: Tip,
}

impl Model for Machine {
    ghost use Rattle.sn_geom.specs.Machine.{State};
    ghost use Rattle.sn_machine.specs.StateParts.{is_begun, is_within, is_closed, is_ended, is_turning, is_applied};

    ghost Value = { State };

    ghost view = { λ m. record {
      began = is_begun m.demarcation;
      within_percent = is_within m.demarcation;
      closed = is_closed m.demarcation;
      ended = is_ended m.stage;
      modes = m.modes;
      motion = m.motion;
      feed = m.feed;
      speed = m.speed;
      chosen = m.chosen;
      tool = m.tool;
      offset = is_applied m.offset;
      turning = is_turning m.spindle;
      tip = m.tip;
    } };
}

impl Machine {
    /// A machine before the first line: nothing is set, and no tool is in the spindle.
    pub fn new() -> Machine
        ensures { result ≡ start }
    {
        Machine {
            demarcation: Demarcation::Unread,
            stage: Stage::Running,
            modes: Modes::none(),
            motion: None,
            feed: None,
            speed: None,
            chosen: None,
            tool: None,
            offset: LengthOffset::Dropped,
            spindle: Spindle::Stopped,
            tip: Tip::Unknown,
        }
    }

    /// Runs a line: what it does, or why it is refused. After a fault the machine is as it was.
    pub fn step(&mut self, b: &Block) -> Result<Acts, MachFault>
        ensures acts { OkIff result (fault_of self.old b.now ≡ None) (acts_of self.old b.now) }
        ensures fault { (fault : MachFault) → (result ≡ Err fault) ↔ (fault_of self.old b.now ≡ Some fault) }
        ensures after { OnOk result (self.new ≡ state_after self.old b.now) }
        ensures unchanged { OnErr result (self.new ≡ self.old) }
    {
        if self.is_closed() {
            Ok(no_acts())
        } else if b.percent {
            self.step_percent()
        } else if self.is_after_end(b) {
            Err(MachFault::AfterEnd)
        } else {
            self.step_words(b)
        }
    }

    /// Whether a closing percent line was read.
    fn is_closed(&self) -> bool
        ensures { result ≡ self.now.closed }
    {
        self.demarcation == Demarcation::Closed
    }

    /// Whether the program ended, and the line says something.
    fn is_after_end(&self, b: &Block) -> bool
        ensures { result ≡ (self.now.ended && says_something b.now) }
    {
        self.stage == Stage::Ended && says_something(b)
    }

    /// Runs a percent line.
    fn step_percent(&mut self) -> Result<Acts, MachFault>
        ensures acts { OkIff result (refuses_percent self.old ≡ false) no_acts }
        ensures fault { IfErr result (λ fault. fault ≡ MachFault.Percent) }
        ensures after { OnOk result (self.new ≡ after_percent self.old) }
        ensures unchanged { OnErr result (self.new ≡ self.old) }
    {
        if self.demarcation.refuses_percent() {
            return Err(MachFault::Percent);
        }
        self.demarcation = self.demarcation.after_percent();
        Ok(no_acts())
    }

    /// Runs a line that is no percent line.
    fn step_words(&mut self, b: &Block) -> Result<Acts, MachFault>
        ensures acts { OkIff result (words_fault (prepared self.old b.now.words) b.now.words ≡ None)
            (acts_of_words (prepared self.old b.now.words) b.now.mark b.now.words) }
        ensures fault { (fault : MachFault) →
            (result ≡ Err fault) ↔ (words_fault (prepared self.old b.now.words) b.now.words ≡ Some fault) }
        ensures after { OnOk result (self.new ≡ moved (prepared self.old b.now.words) b.now.words) }
        ensures unchanged { OnErr result (self.new ≡ self.old) }
    {
        b.axes();
        let words = b.words.as_slice();
        let next = self.prepared(words);
        if let Some(fault) = next.words_fault(words) {
            return Err(fault);
        }
        let acts = next.acts_of(b.mark, words);
        *self = next.moved(words);
        Ok(acts)
    }

    /// The acts of a line without a fault, the machine being that with all words but the motion and the stop.
    fn acts_of(&self, mark: Option<u32>, words: &[Word]) -> Acts
        requires { AxesAreLengths words.now }
        ensures { result ≡ acts_of_words self.now mark words.now }
    {
        Acts {
            mark,
            tool: if has_m(words, 6) { self.tool } else { None },
            motion: if has_axis(words) {
                Some(self.motion_of(words))
            } else {
                None
            },
            end: stops(words),
        }
    }

    /// The machine with all words of a line but its motion and its stop.
    fn prepared(&self, words: &[Word]) -> Machine
        ensures { result ≡ prepared self.now words.now }
    {
        let changes = has_m(words, 6);
        let chosen = count_of(words, b'T').or(self.chosen);
        Machine {
            demarcation: self.demarcation.after_words(),
            stage: self.stage,
            modes: self.modes.after(words),
            motion: motion_after(self.motion, words),
            feed: count_of(words, b'F').or(self.feed),
            speed: count_of(words, b'S').or(self.speed),
            chosen,
            tool: if changes { chosen } else { self.tool },
            offset: self.offset.after(words),
            spindle: self.spindle.after(words),
            tip: if changes { Tip::Unknown } else { self.tip },
        }
    }

    /// Whether the words ask for no length offset or for another tool's.
    fn has_wrong_offset(&self, words: &[Word]) -> bool
        ensures { result ≡ has_wrong_offset self.now words.now }
    {
        let asked = count_of(words, b'H');
        if has_g(words, 430) {
            !is_tool(self.tool, asked)
        } else {
            asked.is_some()
        }
    }

    /// The fault of a motion.
    fn motion_fault(&self, words: &[Word]) -> Option<MachFault>
        ensures { result ≡ motion_fault self.now words.now }
    {
        if !is_positive(self.tool) {
            Some(MachFault::NoTool)
        } else if self.has_wrong_offset(words) {
            Some(MachFault::WrongOffset)
        } else if !self.modes.are_set() {
            Some(MachFault::ModeUnset)
        } else if self.offset == LengthOffset::Dropped {
            Some(MachFault::NoOffset)
        } else if needs_lost(self.tip, self.motion, words) {
            Some(MachFault::LostAxis)
        } else if is_slanted(self.tip, words) {
            Some(MachFault::Slanted)
        } else if is_feed(self.motion) && !is_positive(self.feed) {
            Some(MachFault::NoFeed)
        } else if is_feed(self.motion) && !self.is_cutting() {
            Some(MachFault::SpindleOff)
        } else {
            None
        }
    }

    /// Whether the spindle turns at a speed that is not 0.
    fn is_cutting(&self) -> bool
        ensures { result ≡ (self.now.turning && is_positive self.now.speed) }
    {
        self.spindle == Spindle::Turning && is_positive(self.speed)
    }

    /// The fault of a line's words, the machine being that with all of them but the motion and the stop.
    fn words_fault(&self, words: &[Word]) -> Option<MachFault>
        ensures { result ≡ words_fault self.now words.now }
    {
        let moves = has_axis(words);
        if moves && self.motion.is_none() {
            Some(MachFault::NoMotion)
        } else if (has_g(words, 0) || has_g(words, 10)) && !moves {
            Some(MachFault::NoMotion)
        } else if has_m(words, 6) && self.chosen.is_none() {
            Some(MachFault::NoTool)
        } else if moves {
            self.motion_fault(words)
        } else if self.has_wrong_offset(words) {
            Some(MachFault::WrongOffset)
        } else {
            None
        }
    }

    /// The motion of a line without a fault.
    fn motion_of(&self, words: &[Word]) -> Motion
        requires { AxesAreLengths words.now }
        ensures { result ≡ motion_of self.now self.now.tip words.now }
    {
        match self.tip {
            Tip::Unknown => Motion::Enter(height(Um::of(0), words)),
            Tip::Height(z) => motion_from(z, words),
            Tip::At(p) => self.motion_between(p, target(&p, words)),
        }
    }

    /// A straight motion from a point to a point.
    fn motion_between(&self, from: Pt3, to: Pt3) -> Motion
        ensures { result ≡ motion_between self.now from to }
    {
        if is_feed(self.motion) {
            Motion::Feed(
                from,
                to,
                self.feed.unwrap_or(0),
                self.speed.unwrap_or(0),
                self.tool.unwrap_or(0),
            )
        } else {
            Motion::Rapid(from, to, self.tool.unwrap_or(0))
        }
    }

    /// The machine after the motion and the stop of a line without a fault.
    fn moved(&self, words: &[Word]) -> Machine
        requires { AxesAreLengths words.now }
        ensures { result ≡ moved self.now words.now }
    {
        Machine {
            demarcation: self.demarcation,
            stage: self.stage.after(words),
            modes: self.modes,
            motion: self.motion,
            feed: self.feed,
            speed: self.speed,
            chosen: self.chosen,
            tool: self.tool,
            offset: self.offset,
            spindle: self.spindle,
            tip: self.tip_after(words),
        }
    }

    /// Where the tip is after a line without a fault.
    fn tip_after(&self, words: &[Word]) -> Tip
        requires { AxesAreLengths words.now }
        ensures { result ≡ (if has_axis words.now then tip_after_words self.now.tip words.now else self.now.tip) }
    {
        if has_axis(words) {
            tip_after(self.tip, words)
        } else {
            self.tip
        }
    }
}

/// Whether the number is that of the tool in the spindle, which is not 0.
fn is_tool(tool: Option<u32>, asked: Option<u32>) -> bool
    ensures { result ≡ is_tool tool asked }
{
    is_positive(tool) && asked.is_some() && asked.unwrap_or(0) == tool.unwrap_or(0)
}

/// What a line does that says nothing.
fn no_acts() -> Acts
    ensures { result ≡ no_acts }
{
    Acts {
        mark: None,
        tool: None,
        motion: None,
        end: false,
    }
}

/// Whether the line has a word, a line number or a mark.
fn says_something(b: &Block) -> bool
    ensures { result ≡ says_something b.now }
{
    !b.words.as_slice().is_empty() || b.number.is_some() || b.mark.is_some()
}
