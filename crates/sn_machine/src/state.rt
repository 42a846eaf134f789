//! The parts of the machine's state.
ghost use Rattle.std.specs.Prelude.{◌≡◌, true, not, ◌&&◌, ◌||◌};
ghost use Rattle.sn_geom.specs.Machine.{motion_after, stops};
ghost use Rattle.sn_machine.specs.StateParts.{is_begun, is_within, is_closed, is_ended, is_turning, is_applied, turns_after, applies_after};

use crate::words::{has_g, has_m};
use sn_geom::{MotionMode, Word};
use std::marker::Model;

/// The percent lines that were read (NISTIR 6556, 3.2).
#[derive(Clone, Copy, Debug, PartialEq, Eq)]
pub(crate) enum Demarcation {
    /// No line was read.
    Unread,
    /// The first line was no percent line.
    Absent,
    /// The first line was a percent line, and no later line was.
    Opened,
    /// A second percent line was read: nothing counts any more.
    Closed,
}

impl Demarcation {
    /// After a line that is no percent line.
    pub(crate) fn after_words(self) -> Demarcation
        ensures begun { is_begun result ≡ true }
        ensures within { is_within result ≡ is_within self }
        ensures closed { is_closed result ≡ is_closed self }
    {
        match self {
            Demarcation::Unread => Demarcation::Absent,
            Demarcation::Absent => Demarcation::Absent,
            Demarcation::Opened => Demarcation::Opened,
            Demarcation::Closed => Demarcation::Closed,
        }
    }

    /// Whether a percent line may not stand here.
    pub(crate) fn refuses_percent(self) -> bool
        ensures { result ≡ (is_begun self && not (is_within self)) }
    {
        match self {
            Demarcation::Unread => false,
            Demarcation::Absent => true,
            Demarcation::Opened => false,
            Demarcation::Closed => false,
        }
    }

    /// After a percent line.
    pub(crate) fn after_percent(self) -> Demarcation
        ensures begun { is_begun result ≡ true }
        ensures within { is_within result ≡ true }
        ensures closed { is_closed result ≡ is_begun self }
    {
        match self {
            Demarcation::Unread => Demarcation::Opened,
            Demarcation::Absent => Demarcation::Closed,
            Demarcation::Opened => Demarcation::Closed,
            Demarcation::Closed => Demarcation::Closed,
        }
    }
}

/// Whether the program ended.
#[derive(Clone, Copy, Debug, PartialEq, Eq)]
pub(crate) enum Stage {
    Running,
    Ended,
}

impl Stage {
    /// After a line without a fault.
    pub(crate) fn after(self, words: &[Word]) -> Stage
        ensures { is_ended result ≡ (is_ended self || stops words.now) }
    {
        if stops(words) { Stage::Ended } else { self }
    }
}

/// Whether the spindle turns.
#[derive(Clone, Copy, Debug, PartialEq, Eq)]
pub(crate) enum Spindle {
    Stopped,
    /// It turns clockwise.
    Turning,
}

impl Spindle {
    /// With the words of a line: a tool change stops it, unless they start it.
    pub(crate) fn after(self, words: &[Word]) -> Spindle
        ensures { is_turning result ≡ turns_after (is_turning self) words.now }
    {
        if has_m(words, 3) {
            Spindle::Turning
        } else if has_m(words, 5) || has_m(words, 6) {
            Spindle::Stopped
        } else {
            self
        }
    }
}

/// Whether the length offset of the tool in the spindle is applied.
#[derive(Clone, Copy, Debug, PartialEq, Eq)]
pub(crate) enum LengthOffset {
    Dropped,
    Applied,
}

impl LengthOffset {
    /// With the words of a line: a tool change drops it, unless they apply one.
    pub(crate) fn after(self, words: &[Word]) -> LengthOffset
        ensures { is_applied result ≡ applies_after (is_applied self) words.now }
    {
        if has_g(words, 430) {
            LengthOffset::Applied
        } else if has_g(words, 490) || has_m(words, 6) {
            LengthOffset::Dropped
        } else {
            self
        }
    }
}

/// Which modes were set, each of another modal group: millimetres, the XY plane, absolute distances, feed in mm/min, no
/// cutter compensation, exact path.
#[derive(Clone, Copy, Debug, PartialEq, Eq)]
pub(crate) struct Modes {
    pub(crate) millimetres: bool,
    pub(crate) xy_plane: bool,
    pub(crate) absolute: bool,
    pub(crate) feed_per_minute: bool,
    pub(crate) no_compensation: bool,
    pub(crate) exact_path: bool,
}

impl Model for Modes {
    ghost use Rattle.sn_geom.specs.Machine.{Modes};

    ghost Value = { Modes };

    ghost view = { λ m. record {
      g21 = m.millimetres;
      g17 = m.xy_plane;
      g90 = m.absolute;
      g94 = m.feed_per_minute;
      g40 = m.no_compensation;
      g61 = m.exact_path;
    } };

    ghost inverse = { λ m. record {
      millimetres = m.g21;
      xy_plane = m.g17;
      absolute = m.g90;
      feed_per_minute = m.g94;
      no_compensation = m.g40;
      exact_path = m.g61;
    } };
}

impl Modes {
    ghost use Rattle.sn_geom.specs.Machine.{no_modes, modes_after, are_set};

    /// No mode.
    pub(crate) fn none() -> Modes
        ensures { result ≡ no_modes }
    {
        Modes {
            millimetres: false,
            xy_plane: false,
            absolute: false,
            feed_per_minute: false,
            no_compensation: false,
            exact_path: false,
        }
    }

    /// The modes with those that the words set.
    pub(crate) fn after(&self, words: &[Word]) -> Modes
        ensures { result ≡ modes_after self.now words.now }
    {
        Modes {
            millimetres: self.millimetres || has_g(words, 210),
            xy_plane: self.xy_plane || has_g(words, 170),
            absolute: self.absolute || has_g(words, 900),
            feed_per_minute: self.feed_per_minute || has_g(words, 940),
            no_compensation: self.no_compensation || has_g(words, 400),
            exact_path: self.exact_path || has_g(words, 610) || has_g(words, 611),
        }
    }

    /// Whether all modes were set.
    pub(crate) fn are_set(&self) -> bool
        ensures { result ≡ are_set self.now }
    {
        self.millimetres
            && self.xy_plane
            && self.absolute
            && self.feed_per_minute
            && self.no_compensation
            && self.exact_path
    }
}

/// The motion that is active with the words.
pub(crate) fn motion_after(motion: Option<MotionMode>, words: &[Word]) -> Option<MotionMode>
    ensures { result ≡ motion_after motion words.now }
{
    if has_g(words, 0) {
        Some(MotionMode::Rapid)
    } else if has_g(words, 10) {
        Some(MotionMode::Feed)
    } else if has_g(words, 800) {
        None
    } else {
        motion
    }
}

/// Whether the words end the program.
pub(crate) fn stops(words: &[Word]) -> bool
    ensures { result ≡ stops words.now }
{
    has_m(words, 2) || has_m(words, 30)
}
