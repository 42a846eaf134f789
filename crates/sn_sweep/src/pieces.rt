//! A program that comes in pieces of any size.
ghost use Rattle.std.specs.Prelude.{◌≡◌, ◌≢◌, ◌+◌, ◌<◌, ◌≤◌, ◌^◌, ℕ, None, Some, List, [], ◌++◌, length, take, IfSome, IfNone};
ghost use Rattle.sn_geom.specs.Block.{lines_of};
ghost use Rattle.sn_outline.specs.Job.{Job as JobContent};
ghost use Rattle.sn_sweep.specs.Checking.{most_held, HasRead, HasTaken, HasNoLineFeed};
ghost use Rattle.sn_sweep.specs.Pieces.{ReadsNext, IsFirstLine};

use crate::checker::{Checker, MOST_HELD};
use sn_open::Verdict;

impl Checker<'_> {
    /// Takes the next piece of the program, and tells the first fault so far.
    ///
    /// A line may begin in one piece and end in a later one; what stands behind the last line feed is not judged yet.
    pub fn feed(&mut self, piece: &[u8]) -> Option<Verdict>
        requires room { self.old.lines + length piece.now < 2 ^ 63 }
        ensures told { result ≡ self.new.fault }
        ensures taken { (job : JobContent) (bytes : List ℕ) → HasTaken job bytes self.old → HasTaken job (bytes ++ piece.now) self.new }
        ensures kept { self.old.fault ≢ None → result ≡ self.old.fault }
        ensures counted { self.new.lines ≤ self.old.lines + length piece.now }
    {
        let mut left = piece;
        while let Some(end) = first_line_feed(left) {
            self.end_line_with(&left[..end]);
            left = &left[end + 1..];
        }
        self.hold(left);
        self.fault
    }

    /// Judges the bytes behind the last line feed as a line, where there are some.
    pub(crate) fn end_line(&mut self)
        ensures read { (job : JobContent) (bytes : List ℕ) → HasTaken job bytes self.old
            → (text : List ℕ) × HasRead job text self.new × (lines_of text ≡ lines_of bytes) }
        ensures kept { self.old.fault ≢ None → self.new.fault ≡ self.old.fault }
        ensures rest { self.new.rest ≡ [] }
    {
        if !self.rest.is_empty() {
            self.judge_held();
        }
    }

    /// Judges the line that ends with these bytes, behind those that are held. Of a line that is too long it judges as much
    /// as shows that.
    fn end_line_with(&mut self, last: &[u8])
        requires room { self.old.lines < 2 ^ 63 }
        ensures read { ReadsNext (take most_held (self.old.rest ++ last.now)) self.old self.new }
        ensures kept { self.old.fault ≢ None → self.new.fault ≡ self.old.fault }
        ensures rest { self.new.rest ≡ [] }
        ensures counted { self.new.lines ≡ self.old.lines + 1 }
    {
        if self.rest.is_empty() {
            self.judge_line(&last[..MOST_HELD.min(last.len())]);
        } else {
            self.hold(last);
            self.judge_held();
        }
    }

    /// Judges the held bytes as a line, and holds none then.
    fn judge_held(&mut self)
        requires room { self.old.lines < 2 ^ 63 }
        ensures read { ReadsNext self.old.rest self.old self.new }
        ensures kept { self.old.fault ≢ None → self.new.fault ≡ self.old.fault }
        ensures rest { self.new.rest ≡ [] }
        ensures counted { self.new.lines ≡ self.old.lines + 1 }
    {
        let line = self.rest.take();
        self.judge_line(line.as_slice());
    }

    /// Holds the bytes behind those that are held, as far as there is room.
    fn hold(&mut self, bytes: &[u8])
        requires room { self.old.lines < 2 ^ 63 }
        ensures { self.new ≡ record self.old { rest = take most_held (self.old.rest ++ bytes.now) } }
    {
        let room = self.rest.remaining_capacity();
        let first = &bytes[..room.min(bytes.len())];
        self.rest.try_extend_from_slice(first).unwrap();
    }
}

/// The place of the first line feed.
fn first_line_feed(bytes: &[u8]) -> Option<usize>
    ensures none { IfNone result (HasNoLineFeed bytes.now) }
    ensures found { IfSome result (IsFirstLine bytes.now) }
{
    bytes.iter().position(|byte| *byte == b'\n')
}
