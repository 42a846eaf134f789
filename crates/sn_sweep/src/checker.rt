//! The checker of a program.
ghost use Rattle.std.specs.Prelude.{◌≡◌, ◌≢◌, ◌+◌, ◌<◌, ◌≤◌, is_some, ◌^◌, ℕ, None, Some, List, [], ◌∷◌, ◌++◌, length, IfOk};
ghost use Rattle.sn_outline.specs.Job.{Job as JobContent};
ghost use Rattle.sn_raster.specs.Grid.{IsGridOf};
ghost use Rattle.sn_sweep.specs.Checking.{HasRead, HasTaken, HasNoLineFeed};
ghost use Rattle.sn_sweep.specs.Judging.{fault_at};

use crate::planes::Planes;
use arrayvec::ArrayVec;
use sn_geom::Memory;
use sn_geom::laws::meaning::texts;
use sn_machine::Machine;
use sn_open::{Cause, Verdict};
use sn_outline::Job;
use sn_raster::{Grid, Heights};
use std::alloc::Global;
use std::marker::Model;

/// The most bytes of a line that are held: one more than a line may have.
pub(crate) const MOST_HELD: usize = 257;

/// The check of a program for a job, line by line.
#[derive(Drop)]
pub struct Checker<'a> {
    pub(crate) job: &'a Job,
    pub(crate) grid: &'a Grid,
    pub(crate) heights: Heights,
    /// None where the job has no steps.
    pub(crate) planes: Option<Planes>,
    pub(crate) machine: Machine,
    pub(crate) lines: u64,
    pub(crate) marks: u32,
    pub(crate) ended: bool,
    /// The first line at fault.
    pub(crate) fault: Option<Verdict>,
    /// The first bytes behind the last line feed.
    pub(crate) rest: ArrayVec<u8, MOST_HELD>,
}

impl<'a> Model for Checker<'a> {
    ghost use Rattle.sn_sweep.specs.Checking.{Checking};

    ghost Value = { Checking };

    ghost use Rattle.sn_sweep.specs.Kept.{allowed_of, IsChecker};

    ghost view = { λ c. record {
      job = c.job.now;
      grid = c.grid.now;
      heights = c.heights;
      allowed = allowed_of c.grid.now c.planes;
      machine = c.machine;
      lines = c.lines;
      marks = c.marks;
      ended = c.ended;
      fault = c.fault;
      rest = c.rest.items;
    } };

    ghost invariant = { IsChecker };
}

impl<'a> Checker<'a> {
    /// A checker that has read nothing of a program for the job.
    pub fn begin(alloc: Global, j: &'a Job, g: &'a Grid) -> Result<Checker<'a>, Memory>
        requires { IsGridOf g.now j.now }
        ensures nothing { IfOk result (λ kept. HasTaken j.now [] kept) }
        ensures counted { IfOk result (λ kept. kept.lines ≡ 0) }
        ensures held { IfOk result (λ kept. kept.rest ≡ []) }
    {
        let heights = Heights::raw(alloc, g, j)?;
        let planes = Planes::of(alloc, j, g)?;
        Ok(Checker {
            job: j,
            grid: g,
            heights,
            planes,
            machine: Machine::new(),
            lines: 0,
            marks: 0,
            ended: false,
            fault: None,
            rest: ArrayVec::new(),
        })
    }

    /// Takes a line, given without its line feed, and tells the first fault so far.
    pub fn line(&mut self, line: &[u8]) -> Option<Verdict>
        requires held { self.old.rest ≡ [] }
        requires room { self.old.lines + length line.now < 2 ^ 63 }
        ensures told { result ≡ self.new.fault }
        ensures read { (job : JobContent) (text : List ℕ) → HasRead job text self.old → HasNoLineFeed line.now
            → HasRead job (text ++ (line.now ++ 10 ∷ [])) self.new }
        ensures kept { self.old.fault ≢ None → result ≡ self.old.fault }
        ensures rest { self.new.rest ≡ self.old.rest }
        ensures counted { self.new.lines ≡ self.old.lines + 1 }
    {
        self.judge_line(line);
        self.fault
    }

    /// Judges a line, given without its line feed, unless one before it is at fault.
    pub(crate) fn judge_line(&mut self, line: &[u8])
        requires held { self.old.rest ≡ [] }
        requires room { self.old.lines < 2 ^ 63 }
        ensures read { (job : JobContent) (text : List ℕ) → HasRead job text self.old → HasNoLineFeed line.now
            → HasRead job (text ++ (line.now ++ 10 ∷ [])) self.new }
        ensures kept { self.old.fault ≢ None → self.new.fault ≡ self.old.fault }
        ensures rest { self.new.rest ≡ self.old.rest }
        ensures counted { self.new.lines ≡ self.old.lines + 1 }
    {
        texts();
        self.count_line();
        if self.is_at_fault() {
            self.rule();
            return;
        }
        let cause = self.take_line(line);
        self.keep_fault(cause);
        self.rule();
    }

    fn count_line(&mut self)
        requires held { self.old.rest ≡ [] }
        requires room { self.old.lines < 2 ^ 63 }
        ensures { self.new ≡ record self.old { lines = self.old.lines + 1 } }
    {
        self.lines += 1;
    }

    fn is_at_fault(&self) -> bool
        ensures { result ≡ is_some self.now.fault }
    {
        self.fault.is_some()
    }

    /// Keeps the first cause of the line that was taken last as the first fault, where it has one.
    fn keep_fault(&mut self, cause: Option<Cause>)
        ensures { self.new ≡ record self.old { fault = fault_at self.old.lines cause } }
    {
        self.fault = match cause {
            None => None,
            Some(cause) => Some(Verdict::Line(self.lines, cause)),
        };
    }

    /// Hands on what holds of every checker.
    pub(crate) fn rule(&self)
        ensures grid { IsGridOf self.now.grid self.now.job }
        ensures heights { self.now.heights.grid ≡ self.now.grid }
        ensures allowed { self.now.allowed.plane.grid ≡ self.now.grid }
        ensures marks { self.now.marks ≤ length self.now.job.steps }
    {
        let _lines = self.lines;
    }
}
