//! The emitter.
ghost use Rattle.std.specs.Prelude.{◌≡◌, ◌≤◌, [], ◌∷◌, OnOk, OnErr};
ghost use Rattle.sn_io.specs.Sink.{Writes};
ghost use Rattle.sn_geom.specs.Acts.{Mark, PutTool, End};
ghost use Rattle.sn_gwrite.specs.Agreement.{PartMeans, motion_act};
ghost use Rattle.sn_gwrite.specs.Program.{head_text, mark_text, change_text, rates_text, motion_text, end_text};
ghost use Rattle.sn_gwrite.specs.Kept.{IsKept, IsBegun, HasTool, IsTurning, IsToolNumber, IsRate, MayRapid, MayFeed, unused, begun, with_tool, with_rates, moved, ended, failed};

use crate::kept::{Spindle, Stage};
use crate::parts::{write_change, write_end, write_head, write_mark, write_motion, write_rates};
use crate::ranges::{of_point, of_tools};
use sn_geom::{MotionMode, Pt3, Tip};
use sn_io::{Sink, WriteFault};
use std::marker::Model;

/// The writer of one program.
///
/// Each call writes its part of the text to the sink that it is given, and nothing else. A machine that agrees with what
/// the emitter keeps runs that part to the call's acts, and then agrees with what the emitter keeps. After a call that answers
/// `WriteFault`, the sink has a front of that part, and no further call may come.
#[derive(Debug, Drop)]
pub struct Emitter {
    /// `Failed` while a call writes, and so where its write failed.
    stage: Stage,
    tool: Option<u32>,
    speed: Option<u32>,
    feed: Option<u32>,
    spindle: Spindle,
    tip: Tip,
}

impl Model for Emitter {
    ghost use Rattle.sn_gwrite.specs.Kept.{Kept};

    ghost Value = { Kept };

    ghost use Rattle.sn_gwrite.specs.Kept.{IsKept};

    ghost view = { λ e. record { stage = e.stage; tool = e.tool; speed = e.speed; feed = e.feed; spindle = e.spindle; tip = e.tip } };

    ghost invariant = { λ e. IsKept (record { stage = e.stage; tool = e.tool; speed = e.speed; feed = e.feed; spindle = e.spindle; tip = e.tip }) };
}

impl Emitter {
    /// An emitter for a new program.
    pub fn new() -> Emitter
        ensures { result ≡ unused }
    {
        Emitter {
            stage: Stage::Unused,
            tool: None,
            speed: None,
            feed: None,
            spindle: Spindle::Stopped,
            tip: Tip::Unknown,
        }
    }

    /// Writes the percent line, the modes, and a comment for each tool: its number, counted from 1, and the number of
    /// its instance in the part. It is the first call.
    pub fn head<S: Sink>(&mut self, sink: &mut S, tools: &[u32]) -> Result<(), WriteFault>
        requires { self.old ≡ unused }
        ensures writes { Writes result (S.state sink.old) (S.state sink.new) (head_text tools.now) }
        ensures ok { OnOk result (self.new ≡ begun self.old) }
        ensures means { OnOk result (PartMeans self.old self.new (head_text tools.now) []) }
        ensures err { OnErr result (self.new ≡ failed self.old) }
    {
        of_tools(tools);
        self.stage = Stage::Failed;
        write_head(sink, tools)?;
        self.stage = Stage::Begun;
        Ok(())
    }

    /// Writes the mark of the workingstep whose instance in the part has the number `ws`.
    pub fn mark<S: Sink>(&mut self, sink: &mut S, ws: u32) -> Result<(), WriteFault>
        requires begun { IsBegun self.old }
        requires step { 1 ≤ ws }
        ensures writes { Writes result (S.state sink.old) (S.state sink.new) (mark_text ws) }
        ensures ok { OnOk result (self.new ≡ self.old) }
        ensures means { OnOk result (PartMeans self.old self.new (mark_text ws) (Mark ws ∷ [])) }
        ensures err { OnErr result (self.new ≡ failed self.old) }
    {
        self.stage = Stage::Failed;
        write_mark(sink, ws)?;
        self.stage = Stage::Begun;
        Ok(())
    }

    /// Writes the change to the tool of number `k`, and the length offset of that tool.
    pub fn change_tool<S: Sink>(&mut self, sink: &mut S, k: u32) -> Result<(), WriteFault>
        requires begun { IsBegun self.old }
        requires number { IsToolNumber k }
        ensures writes { Writes result (S.state sink.old) (S.state sink.new) (change_text k) }
        ensures ok { OnOk result (self.new ≡ with_tool self.old k) }
        ensures means { OnOk result (PartMeans self.old self.new (change_text k) (PutTool k ∷ [])) }
        ensures err { OnErr result (self.new ≡ failed self.old) }
    {
        self.stage = Stage::Failed;
        write_change(sink, k)?;
        self.stage = Stage::Begun;
        self.tool = Some(k);
        self.spindle = Spindle::Stopped;
        self.tip = Tip::Unknown;
        Ok(())
    }

    /// Writes the spindle's speed in rev/min, clockwise, and the feed in mm/min.
    pub fn rates<S: Sink>(&mut self, sink: &mut S, speed: u32, feed: u32) -> Result<(), WriteFault>
        requires begun { IsBegun self.old }
        requires speed { IsRate speed }
        requires feed { IsRate feed }
        ensures writes { Writes result (S.state sink.old) (S.state sink.new) (rates_text speed feed) }
        ensures ok { OnOk result (self.new ≡ with_rates self.old speed feed) }
        ensures means { OnOk result (PartMeans self.old self.new (rates_text speed feed) []) }
        ensures err { OnErr result (self.new ≡ failed self.old) }
    {
        self.stage = Stage::Failed;
        write_rates(sink, speed, feed)?;
        self.stage = Stage::Begun;
        self.speed = Some(speed);
        self.feed = Some(feed);
        self.spindle = Spindle::Turning;
        Ok(())
    }

    /// Writes a rapid to a point, not slanted. The first motion after a tool change writes Z alone, and reads no other
    /// coordinate; the second writes X and Y, at that Z; each later one writes what changes.
    pub fn rapid<S: Sink>(&mut self, sink: &mut S, p: &Pt3) -> Result<(), WriteFault>
        requires begun { IsBegun self.old }
        requires tool { HasTool self.old }
        requires straight { MayRapid self.old.tip p.now }
        ensures writes { Writes result (S.state sink.old) (S.state sink.new)
            (motion_text MotionMode.Rapid self.old.tip p.now) }
        ensures ok { OnOk result (self.new ≡ moved self.old p.now) }
        ensures means { OnOk result (PartMeans self.old self.new (motion_text MotionMode.Rapid self.old.tip p.now) (motion_act MotionMode.Rapid self.old p.now ∷ [])) }
        ensures err { OnErr result (self.new ≡ failed self.old) }
    {
        self.rule();
        of_point(p);
        self.motion(sink, MotionMode::Rapid, p)
    }

    /// Writes a feed to a point, not slanted: Z alone, or X and Y. It is no motion right after a tool change.
    pub fn feed<S: Sink>(&mut self, sink: &mut S, p: &Pt3) -> Result<(), WriteFault>
        requires begun { IsBegun self.old }
        requires tool { HasTool self.old }
        requires rates { IsTurning self.old }
        requires straight { MayFeed self.old.tip p.now }
        ensures writes { Writes result (S.state sink.old) (S.state sink.new)
            (motion_text MotionMode.Feed self.old.tip p.now) }
        ensures ok { OnOk result (self.new ≡ moved self.old p.now) }
        ensures means { OnOk result (PartMeans self.old self.new (motion_text MotionMode.Feed self.old.tip p.now) (motion_act MotionMode.Feed self.old p.now ∷ [])) }
        ensures err { OnErr result (self.new ≡ failed self.old) }
    {
        self.rule();
        of_point(p);
        self.motion(sink, MotionMode::Feed, p)
    }

    /// Writes the end of the program. It is the last call.
    pub fn end<S: Sink>(&mut self, sink: &mut S) -> Result<(), WriteFault>
        requires { IsBegun self.old }
        ensures writes { Writes result (S.state sink.old) (S.state sink.new) end_text }
        ensures ok { OnOk result (self.new ≡ ended self.old) }
        ensures means { OnOk result (PartMeans self.old self.new end_text (End ∷ [])) }
        ensures err { OnErr result (self.new ≡ failed self.old) }
    {
        self.stage = Stage::Failed;
        write_end(sink)?;
        self.stage = Stage::Ended;
        Ok(())
    }

    /// Hands on what holds of every emitter: the number of its tool and its rates are within their limits, and it has
    /// both rates where the spindle turns.
    pub fn rule(&self)
        ensures { IsKept self.now }
    {
        let _stage = &self.stage;
    }

    fn motion<S: Sink>(
        &mut self,
        sink: &mut S,
        mode: MotionMode,
        to: &Pt3,
    ) -> Result<(), WriteFault>
        requires { IsBegun self.old }
        ensures writes { Writes result (S.state sink.old) (S.state sink.new)
            (motion_text mode self.old.tip to.now) }
        ensures ok { OnOk result (self.new ≡ moved self.old to.now) }
        ensures err { OnErr result (self.new ≡ failed self.old) }
    {
        self.stage = Stage::Failed;
        write_motion(sink, mode, self.tip, to)?;
        self.stage = Stage::Begun;
        self.tip = self.tip.after(to);
        Ok(())
    }
}
