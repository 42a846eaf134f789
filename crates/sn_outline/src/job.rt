//! Executed steps and jobs.
ghost use Rattle.std.specs.Prelude.{◌≡◌, SomeIff};
ghost use Rattle.sn_outline.specs.Job.{Job as JobContent};
ghost use Rattle.sn_outline.specs.JobRule.{IsJob};

use crate::outline::Outline;
use crate::rule::{are_corners, is_pitch, keep_rule};
use sn_geom::{Body, Pt3, REACH};
use sqlite_items::Items;
use std::marker::Model;

/// Executed steps in order, seen as their list.
pub type Steps = Items<StepJob>;

/// Instance numbers, seen as their list.
pub type Numbers = Items<u32>;

/// The bottom of a feature.
#[derive(Clone, Copy, Debug, PartialEq, Eq)]
pub enum Bottom {
    Flat,
    Conical,
    Through,
}

/// How a step cuts.
#[derive(Clone, Copy, Debug, PartialEq, Eq)]
pub enum Way {
    /// In rows over its outline.
    Clear,
    /// Along the trail of its outline.
    Trail,
    /// Straight down at the centre of its circle.
    Drill,
}

/// An executed step. Lengths are tenths of a micrometre, heights and places those of the setup.
#[derive(Drop)]
pub struct StepJob {
    /// The instance number of the workingstep.
    pub ws: u32,
    /// The instance number of the feature.
    pub feature: u32,
    pub outline: Outline,
    /// The height of the feature's origin.
    pub top: i32,
    /// The height of the feature's floor.
    pub floor: i32,
    pub bottom: Bottom,
    /// The corner diameter of a pocket or a face, and 0 for a hole or a slot.
    pub corner: u32,
    /// The side allowance.
    pub side: u32,
    /// The bottom allowance.
    pub under: u32,
    /// The axial depth of cut.
    pub axial: u32,
    /// The radial depth of cut.
    pub radial: u32,
    /// The number of the tool in the program, from 1.
    pub tool: u32,
    pub body: Body,
    /// In mm/min.
    pub feed: u32,
    /// In rev/min.
    pub speed: u32,
    pub way: Way,
}

/// A job: what the executed steps of a part cut, in the frame of the setup. It keeps the rule of jobs.
#[derive(Drop)]
pub struct Job {
    pitch: u32,
    low: Pt3,
    high: Pt3,
    sec: i32,
    steps: Steps,
    tools: Numbers,
}

impl Model for Job {
    ghost use Rattle.sn_outline.specs.Job.{Job as JobContent};

    ghost Value = { JobContent };

    ghost use Rattle.sn_outline.specs.JobRule.{IsJob};

    ghost view = { λ j. record { pitch = j.pitch; low = j.low; high = j.high; sec = j.sec; steps = j.steps; tools = j.tools } };

    ghost invariant = { λ j. IsJob (record { pitch = j.pitch; low = j.low; high = j.high; sec = j.sec; steps = j.steps; tools = j.tools }) };
}

impl Job {
    /// The job of these parts: the pitch of its grid, the low and the high corner of its raw box, its security height, its
    /// steps, and the instance numbers of its tools in the order of their numbers in the program.
    ///
    /// It is None where they do not keep the rule of jobs. All lengths are tenths of a micrometre.
    pub fn new(
        pitch: u32,
        low: Pt3,
        high: Pt3,
        sec: i32,
        steps: Steps,
        tools: Numbers,
    ) -> Option<Job>
        ensures { let job : JobContent = record { pitch = pitch; low = low; high = high; sec = sec; steps = steps; tools = tools } in
            SomeIff result (IsJob job) job }
    {
        if !is_pitch(pitch) {
            return None;
        }
        if !are_corners(&low, &high) {
            return None;
        }
        if sec.unsigned_abs() > REACH {
            return None;
        }
        if sec < high.z.get() {
            return None;
        }
        if !keep_rule(steps.as_slice(), tools.len()) {
            return None;
        }
        Some(Job {
            pitch,
            low,
            high,
            sec,
            steps,
            tools,
        })
    }

    /// The job keeps the rule of jobs, which callers do not see from its type.
    pub fn rule(&self)
        ensures { IsJob self.now }
    {
        let _pitch = self.pitch;
    }

    /// The pitch of the grid.
    pub fn pitch(&self) -> u32
        ensures { result ≡ self.now.pitch }
    {
        self.pitch
    }

    /// The low corner of the raw box.
    pub fn low(&self) -> Pt3
        ensures { result ≡ self.now.low }
    {
        self.low
    }

    /// The high corner of the raw box.
    pub fn high(&self) -> Pt3
        ensures { result ≡ self.now.high }
    {
        self.high
    }

    /// The security height.
    pub fn sec(&self) -> i32
        ensures { result ≡ self.now.sec }
    {
        self.sec
    }

    /// The executed steps in order.
    pub fn steps(&self) -> &[StepJob]
        ensures { result.now ≡ self.now.steps }
    {
        self.steps.as_slice()
    }

    /// The instance numbers of the tools, in the order of their numbers in the program, from 1.
    pub fn tools(&self) -> &[u32]
        ensures { result.now ≡ self.now.tools }
    {
        self.tools.as_slice()
    }
}
