//! A piece of a program's text, on the stack until it is written.
ghost use Rattle.std.specs.Prelude.{◌≡◌, ◌+◌, ◌<◌, ◌≤◌, [], ◌++◌, length, replicate, decimal};
ghost use Rattle.std.specs.Fmt.{sign_text};
ghost use Rattle.std.specs.Int.{is_negative};
ghost use Rattle.sn_io.specs.Sink.{Writes};
ghost use Rattle.sn_gwrite.specs.Length.{last_digits, length_text};
ghost use Rattle.sn_gwrite.specs.Program.{axes_text, plan_text, height_text};

use arrayvec::ArrayString;
use itoa::Buffer;
use sn_geom::{DECIMALS, PER_MM, Pt3, Tip, Um};
use sn_io::{Sink, WriteFault, write_all};
use std::marker::Model;

/// The bytes that a text has room for.
const ROOM: usize = 96;

/// The most bytes of a whole number.
const NUMBER_ROOM: usize = 20;

/// The most bytes of a length: a minus, a whole number, a point and decimals.
const LENGTH_ROOM: usize = NUMBER_ROOM + 2 + DECIMALS;

/// The most bytes of the axis words of a motion: two letters, each behind a blank, and two lengths.
const AXES_ROOM: usize = 2 * LENGTH_ROOM + 4;

/// A text of one or two lines.
#[derive(Drop)]
pub struct Text {
    bytes: ArrayString<ROOM>,
}

impl Model for Text {
    ghost use Rattle.std.specs.Prelude.{ℕ, List};

    ghost Value = { List ℕ };

    ghost view = { λ text. text.bytes.bytes };
}

impl Text {
    /// An empty text.
    pub fn new() -> Text
        ensures { result ≡ [] }
    {
        Text {
            bytes: ArrayString::new(),
        }
    }

    /// Appends a text.
    pub fn push_str(&mut self, text: &str)
        requires room { length self.old + length text.now ≤ ROOM }
        ensures { self.new ≡ self.old ++ text.now }
    {
        self.bytes.push_str(text);
    }

    /// Appends a whole number.
    pub fn push_number(&mut self, n: u64)
        requires room { length self.old + NUMBER_ROOM ≤ ROOM }
        ensures text { self.new ≡ self.old ++ decimal n }
        ensures short { length (decimal n) ≤ NUMBER_ROOM }
    {
        let mut digits = Buffer::new();
        self.bytes.push_str(digits.format(n));
    }

    /// Appends a length in millimetres.
    #[tactic(auto, using(crate::proofs::Pieces::four_pieces), unfolding(crate::specs::Length::length_text))]
    pub fn push_length(&mut self, um: Um)
        requires room { length self.old + LENGTH_ROOM ≤ ROOM }
        ensures text { self.new ≡ self.old ++ length_text um }
        ensures short { length (length_text um) ≤ LENGTH_ROOM }
    {
        let size = um.get().unsigned_abs();
        self.push_sign(um);
        self.push_number(u64::from(size / PER_MM));
        self.push_str(".");
        self.push_decimals(size % PER_MM);
    }

    fn push_sign(&mut self, um: Um)
        requires room { length self.old + 1 ≤ ROOM }
        ensures text { self.new ≡ self.old ++ sign_text (is_negative um) }
        ensures short { length (sign_text (is_negative um)) ≤ 1 }
    {
        if um.get() < 0 {
            self.push_str("-");
        }
    }

    /// Appends a number below a millimetre's units in exactly `DECIMALS` digits.
    fn push_decimals(&mut self, n: u32)
        requires room { length self.old + DECIMALS ≤ ROOM }
        requires below { n < PER_MM }
        ensures text { self.new ≡ self.old ++ last_digits DECIMALS n }
        ensures long { length (last_digits DECIMALS n) ≡ DECIMALS }
    {
        let mut buffer = Buffer::new();
        let digits = buffer.format(n);
        self.push_zeros(DECIMALS - digits.len());
        self.push_str(digits);
    }

    fn push_zeros(&mut self, count: usize)
        requires room { length self.old + count ≤ ROOM }
        ensures { self.new ≡ self.old ++ replicate count 48 }
    {
        for _place in 0..count {
            self.push_str("0");
        }
    }

    /// Appends the axis words of a motion from a tip to a point.
    pub fn push_axes(&mut self, tip: Tip, to: &Pt3)
        requires room { length self.old + AXES_ROOM ≤ ROOM }
        ensures text { self.new ≡ self.old ++ axes_text tip to.now }
        ensures short { length (axes_text tip to.now) ≤ AXES_ROOM }
    {
        match tip {
            Tip::Height(_) => self.push_plan(to),
            Tip::At(from) if from.z == to.z => self.push_plan(to),
            Tip::Unknown | Tip::At(_) => self.push_height(to),
        }
    }

    fn push_plan(&mut self, to: &Pt3)
        requires room { length self.old + AXES_ROOM ≤ ROOM }
        ensures text { self.new ≡ self.old ++ plan_text to.now }
        ensures short { length (plan_text to.now) ≤ AXES_ROOM }
    {
        self.push_str(" X");
        self.push_length(to.x);
        self.push_str(" Y");
        self.push_length(to.y);
    }

    fn push_height(&mut self, to: &Pt3)
        requires room { length self.old + AXES_ROOM ≤ ROOM }
        ensures text { self.new ≡ self.old ++ height_text to.now }
        ensures short { length (height_text to.now) ≤ AXES_ROOM }
    {
        self.push_str(" Z");
        self.push_length(to.z);
    }

    /// Writes the text to a sink.
    pub fn write_to<S: Sink>(&self, sink: &mut S) -> Result<(), WriteFault>
        ensures { Writes result (S.state sink.old) (S.state sink.new) self.now }
    {
        write_all(sink, self.bytes.as_str().as_bytes())
    }
}
