//! The parts of a program's text.
ghost use Rattle.std.specs.Prelude.{◌≡◌};
ghost use Rattle.sn_io.specs.Sink.{Writes};
ghost use Rattle.sn_gwrite.specs.Program.{head_text, tools_text, tool_text, mark_text, change_text, rates_text, motion_text, mode_text, end_text};

use crate::text::Text;
use sn_geom::{MotionMode, Pt3, Tip};
use sn_io::{Sink, WriteFault, write_all};

/// The text of the end of a program.
pub const END: &str = "M2\n%\n";

/// Writes the percent line, the modes and the tools.
#[tactic(auto, unfolding(crate::specs::Program::head_text))]
pub fn write_head<S: Sink>(sink: &mut S, tools: &[u32]) -> Result<(), WriteFault>
    ensures { Writes result (S.state sink.old) (S.state sink.new) (head_text tools.now) }
{
    write_all(sink, b"%\nG21 G90 G17 G94 G40 G61\n")?;
    write_tools(sink, tools)
}

fn write_tools<S: Sink>(sink: &mut S, tools: &[u32]) -> Result<(), WriteFault>
    ensures { Writes result (S.state sink.old) (S.state sink.new) (tools_text 1 tools.now) }
{
    for (i, instance) in tools.iter().enumerate() {
        write_tool(sink, i as u64 + 1, *instance)?;
    }
    Ok(())
}

#[tactic(auto, unfolding(crate::specs::Program::tool_text))]
fn write_tool<S: Sink>(sink: &mut S, number: u64, instance: u32) -> Result<(), WriteFault>
    ensures { Writes result (S.state sink.old) (S.state sink.new) (tool_text number instance) }
{
    let mut text = Text::new();
    text.push_str("(T");
    text.push_number(number);
    text.push_str(" #");
    text.push_number(u64::from(instance));
    text.push_str(")\n");
    text.write_to(sink)
}

/// Writes the mark of a workingstep.
#[tactic(auto, unfolding(crate::specs::Program::mark_text))]
pub fn write_mark<S: Sink>(sink: &mut S, ws: u32) -> Result<(), WriteFault>
    ensures { Writes result (S.state sink.old) (S.state sink.new) (mark_text ws) }
{
    let mut text = Text::new();
    text.push_str("(WS #");
    text.push_number(u64::from(ws));
    text.push_str(")\n");
    text.write_to(sink)
}

/// Writes the change to a tool, and its length offset.
#[tactic(auto, unfolding(crate::specs::Program::change_text))]
pub fn write_change<S: Sink>(sink: &mut S, k: u32) -> Result<(), WriteFault>
    ensures { Writes result (S.state sink.old) (S.state sink.new) (change_text k) }
{
    let mut text = Text::new();
    text.push_str("T");
    text.push_number(u64::from(k));
    text.push_str(" M6\nG43 H");
    text.push_number(u64::from(k));
    text.push_str("\n");
    text.write_to(sink)
}

/// Writes the spindle's speed and the feed.
#[tactic(auto, unfolding(crate::specs::Program::rates_text))]
pub fn write_rates<S: Sink>(sink: &mut S, speed: u32, feed: u32) -> Result<(), WriteFault>
    ensures { Writes result (S.state sink.old) (S.state sink.new) (rates_text speed feed) }
{
    let mut text = Text::new();
    text.push_str("S");
    text.push_number(u64::from(speed));
    text.push_str(" M3\nF");
    text.push_number(u64::from(feed));
    text.push_str("\n");
    text.write_to(sink)
}

/// Writes a motion from a tip to a point.
#[tactic(auto, unfolding(crate::specs::Program::motion_text))]
pub fn write_motion<S: Sink>(
    sink: &mut S,
    mode: MotionMode,
    tip: Tip,
    to: &Pt3,
) -> Result<(), WriteFault>
    ensures { Writes result (S.state sink.old) (S.state sink.new) (motion_text mode tip to.now) }
{
    let mut text = Text::new();
    text.push_str(mode_word(mode));
    text.push_axes(tip, to);
    text.push_str("\n");
    text.write_to(sink)
}

/// The word of a mode.
fn mode_word(mode: MotionMode) -> &'static str
    ensures { result.now ≡ mode_text mode }
{
    match mode {
        MotionMode::Rapid => "G0",
        MotionMode::Feed => "G1",
    }
}

/// Writes the end of the program.
#[tactic(auto, unfolding(crate::specs::Program::end_text))]
pub fn write_end<S: Sink>(sink: &mut S) -> Result<(), WriteFault>
    ensures { Writes result (S.state sink.old) (S.state sink.new) end_text }
{
    write_all(sink, END.as_bytes())
}
