//! Writing moves.
ghost use Rattle.std.specs.Prelude.{◌≡◌, OnOk};
ghost use Rattle.sn_io.specs.Sink.{Writes};
ghost use Rattle.sn_gwrite.specs.Kept.{HasTool, IsBegun, IsTurning, moved};
ghost use Rattle.sn_link.specs.Moves.{AreStraight, MayMove, end_of, tip_after_moves};
ghost use Rattle.sn_program.specs.Text.{move_text, moves_text};

use sn_gwrite::Emitter;
use sn_io::{Sink, WriteFault};
use sn_link::Move;

/// Writes moves that are straight from the tip on.
pub fn write_moves<S: Sink>(
    emitter: &mut Emitter,
    sink: &mut S,
    moves: &[Move],
) -> Result<(), WriteFault>
    requires begun { IsBegun emitter.old }
    requires tool { HasTool emitter.old }
    requires turning { IsTurning emitter.old }
    requires straight { AreStraight emitter.old.tip moves.now }
    ensures writes { Writes result (S.state sink.old) (S.state sink.new) (moves_text emitter.old.tip moves.now) }
    ensures begun { OnOk result (IsBegun emitter.new) }
    ensures tool { OnOk result (emitter.new.tool ≡ emitter.old.tool) }
    ensures tip { OnOk result (emitter.new.tip ≡ tip_after_moves emitter.old.tip moves.now) }
{
    for to in moves {
        write_move(emitter, sink, *to)?;
    }
    Ok(())
}

fn write_move<S: Sink>(emitter: &mut Emitter, sink: &mut S, to: Move) -> Result<(), WriteFault>
    requires begun { IsBegun emitter.old }
    requires tool { HasTool emitter.old }
    requires turning { IsTurning emitter.old }
    requires straight { MayMove emitter.old.tip to }
    ensures writes { Writes result (S.state sink.old) (S.state sink.new) (move_text emitter.old.tip to) }
    ensures ok { OnOk result (emitter.new ≡ moved emitter.old (end_of to)) }
{
    match to {
        Move::Rapid(end) => emitter.rapid(sink, &end),
        Move::Feed(end) => emitter.feed(sink, &end),
    }
}
