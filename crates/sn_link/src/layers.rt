//! The moves of the layers of a step, along its strokes.
ghost use Rattle.std.specs.Prelude.{◌≡◌, ◌≢◌, ◌+◌, ◌≤◌, ◌∷◌, [], false, IfOk, OnOk, List, ℤ, pos, ◌+ℤ◌, ◌-ℤ◌, ◌<ℤ◌, ◌≤ℤ◌, IfSome, IsNone};
ghost use Rattle.std.specs.Int.{int_min};
ghost use Rattle.sn_outline.specs.Job.{Job, tip_floor};
ghost use Rattle.sn_outline.specs.JobRule.{IsProper};
ghost use Rattle.sn_open.specs.Planes.{AreAllowed, IsGridWith};
ghost use Rattle.sn_link.specs.declared.moves.Move.{Move as MoveContent};
ghost use Rattle.sn_link.specs.declared.moves.Move.TheVariants.{Rapid as RapidTo, Feed as FeedTo};
ghost use Rattle.sn_link.specs.Layering.{Grows, GrowsByLayers, IsAdded, IsCutAs, IsLayerOf, IsNextTip, is_feed, lifts_after};
ghost use Rattle.sn_link.specs.Layers.{AreStepLayers, IsLayer, IsLink};
ghost use Rattle.sn_link.specs.Moves.{over};
ghost use Rattle.sn_link.specs.Safe.{AreWithin};

use crate::free_way::is_free_way;
use crate::moves::{Move, Moves, feed_end, feed_start, made, over};
use crate::step_plan::Planned;
use sn_geom::{GAP, Memory, NO_DEPTH, Pt, REACH, Tip, Um};
use sn_open::{Allowed, Stroke};
use sn_outline::{StepJob, Way, tip_floor};
use std::alloc::Global;

/// The heights of the moves of a layer.
#[derive(Clone, Copy)]
pub(crate) struct Layer {
    /// The security height.
    sec: Um,
    /// Where the feed down begins.
    start: Um,
    /// The tip of the layer.
    low: Um,
    /// Where the feed up ends.
    end: Um,
}

/// The moves of the layers of a step along its strokes that are made from a tip. No material is left over its allowed nodes
/// over the height `above`.
pub(crate) fn cut_in_layers(
    alloc: Global,
    sec: Um,
    step: &StepJob,
    tip: Tip,
    above: Um,
    allowed: &Allowed,
    strokes: &[Stroke],
) -> Result<Planned, Memory>
    requires executed { IsGridWith allowed.now.plane.grid step.now }
    requires proper { IsProper step.now }
    requires high { tip_floor step.now <ℤ above }
    requires some { strokes.now ≢ [] }
    requires own { (job : Job) × (job.sec ≡ sec) × AreAllowed allowed.now job step.now }
    ensures cut { IfOk result (λ planned. (job : Job) → job.sec ≡ sec → AreAllowed allowed.now job step.now
        → IsCutAs job step.now strokes.now above tip planned) }
    ensures within { IfOk result (λ planned. AreWithin planned.moves) }
{
    let mut all = Moves::new(alloc);
    let layers = push_layers(&mut all, sec, step, allowed, strokes, above)?;
    let all = all.as_slice();
    let moves = made(alloc, tip, all)?;
    let lifts = lifts_in(all);
    Ok(Planned {
        moves,
        layers,
        lifts,
    })
}

/// How often the tool is lifted: how often a rapid comes right after a feed.
fn lifts_in(moves: &[Move]) -> u64
    ensures { result ≡ lifts_after false moves.now }
{
    let mut lifts = 0;
    let mut feeds = false;
    for to in moves {
        lifts += lift_of(feeds, *to);
        feeds = to.is_feed();
    }
    lifts
}

/// One where a move is a rapid that comes after a feed, and else none.
fn lift_of(feeds: bool, to: Move) -> u64
    ensures next { (rest : List MoveContent) → lifts_after feeds (to ∷ rest) ≡ result + lifts_after (is_feed to) rest }
    ensures size { result ≤ 1 }
{
    match to {
        Move::Rapid(_) => u64::from(feeds),
        Move::Feed(_) => 0,
    }
}

/// The lowest height of the tip in the step.
pub(crate) fn lowest(step: &StepJob) -> Um
    requires { IsProper step.now }
    ensures { result ≡ tip_floor step.now }
{
    Um::of(tip_floor(step) as i32)
}

/// Adds a feed to a height over a place.
fn push_feed(moves: &mut Moves, place: &Pt, z: Um) -> Result<(), Memory>
    ensures { OnOk result (IsAdded moves.old (FeedTo (over place.now z) ∷ []) moves.new) }
{
    moves.push(Move::Feed(over(place, z)))?;
    Ok(())
}

/// Adds a rapid to a height over a place.
fn push_rapid(moves: &mut Moves, place: &Pt, z: Um) -> Result<(), Memory>
    ensures { OnOk result (IsAdded moves.old (RapidTo (over place.now z) ∷ []) moves.new) }
{
    moves.push(Move::Rapid(over(place, z)))?;
    Ok(())
}

/// Adds the moves down to the tip of a layer at a place.
fn push_approach(moves: &mut Moves, layer: &Layer, place: &Pt) -> Result<(), Memory>
    ensures { OnOk result (IsAdded moves.old
        (RapidTo (over place.now layer.now.sec) ∷ RapidTo (over place.now layer.now.start) ∷ FeedTo (over place.now layer.now.low) ∷ []) moves.new) }
{
    push_rapid(moves, place, layer.sec)?;
    push_rapid(moves, place, layer.start)?;
    push_feed(moves, place, layer.low)?;
    Ok(())
}

/// Adds the moves up from a layer at a place.
fn push_lift(moves: &mut Moves, layer: &Layer, place: &Pt) -> Result<(), Memory>
    ensures { OnOk result (IsAdded moves.old (FeedTo (over place.now layer.now.end) ∷ RapidTo (over place.now layer.now.sec) ∷ []) moves.new) }
{
    push_feed(moves, place, layer.end)?;
    push_rapid(moves, place, layer.sec)?;
    Ok(())
}

/// Adds the moves from the end of a stroke to the start of the next.
fn push_link(
    moves: &mut Moves,
    layer: &Layer,
    step: &StepJob,
    allowed: &Allowed,
    from: &Pt,
    to: &Pt,
) -> Result<(), Memory>
    requires executed { IsGridWith allowed.now.plane.grid step.now }
    requires proper { IsProper step.now }
    ensures { OnOk result ((job : Job) (above : ℤ) → AreAllowed allowed.now job step.now → IsLayerOf job step.now above layer.now
        → Grows (IsLink job step.now above layer.now.low from.now to.now) moves.old moves.new) }
{
    if is_free_way(allowed, step, from, to) {
        push_feed(moves, to, layer.low)?;
        return Ok(());
    }
    push_lift(moves, layer, from)?;
    push_approach(moves, layer, to)?;
    Ok(())
}

/// Adds the moves of a layer along the strokes.
fn push_layer(
    moves: &mut Moves,
    layer: &Layer,
    step: &StepJob,
    allowed: &Allowed,
    strokes: &[Stroke],
) -> Result<(), Memory>
    requires executed { IsGridWith allowed.now.plane.grid step.now }
    requires proper { IsProper step.now }
    ensures { OnOk result ((job : Job) (above : ℤ) → AreAllowed allowed.now job step.now → IsLayerOf job step.now above layer.now
        → Grows (IsLayer job step.now above layer.now.low strokes.now) moves.old moves.new) }
{
    let Some((first, rest)) = strokes.split_first() else {
        return Ok(());
    };
    push_approach(moves, layer, &first.from)?;
    let mut stroke = *first;
    for next in rest {
        push_feed(moves, &stroke.to, layer.low)?;
        push_link(moves, layer, step, allowed, &stroke.to, &next.from)?;
        stroke = *next;
    }
    push_feed(moves, &stroke.to, layer.low)?;
    push_lift(moves, layer, &stroke.to)?;
    Ok(())
}

/// Adds the moves of the layers from the height `above` down to the tip floor of the step, along the strokes, and gives how
/// many layers there are.
fn push_layers(
    moves: &mut Moves,
    sec: Um,
    step: &StepJob,
    allowed: &Allowed,
    strokes: &[Stroke],
    above: Um,
) -> Result<u64, Memory>
    requires executed { IsGridWith allowed.now.plane.grid step.now }
    requires proper { IsProper step.now }
    requires high { tip_floor step.now <ℤ above }
    ensures { IfOk result (λ layers. (job : Job) → job.sec ≡ sec → AreAllowed allowed.now job step.now
        → GrowsByLayers job step.now strokes.now above moves.old moves.new layers) }
{
    let floor = lowest(step);
    let mut layers = 1;
    let mut top = above;
    let mut start = feed_start(sec, above);
    while let Some(low) = next_tip(step, top, floor) {
        let layer = layer_at(sec, start, low, step.body.e);
        push_layer(moves, &layer, step, allowed, strokes)?;
        start = start_after(sec, low, step.body.e);
        top = low;
        layers += 1;
    }
    let layer = layer_at(sec, start, floor, step.body.e);
    push_layer(moves, &layer, step, allowed, strokes)?;
    Ok(layers)
}

/// The tip of the next layer over the floor, where there is one: a drill goes down to the floor at once.
fn next_tip(step: &StepJob, top: Um, floor: Um) -> Option<Um>
    requires proper { IsProper step.now }
    requires floor { floor ≡ tip_floor step.now }
    ensures some { IfSome result (IsNextTip step.now top) }
    ensures none { IsNone result → AreStepLayers step.now top (floor ∷ []) }
{
    match step.way {
        Way::Clear => lower_tip(top, step.axial, floor),
        Way::Trail => lower_tip(top, step.axial, floor),
        Way::Drill => None,
    }
}

/// The height that is an axial depth lower, where that is over the floor.
fn lower_tip(top: Um, axial: u32, floor: Um) -> Option<Um>
    requires { axial ≤ NO_DEPTH }
    ensures some { IfSome result (λ low. (low ≡ top -ℤ pos axial) × (floor <ℤ low)) }
    ensures none { IsNone result → (top -ℤ pos axial) ≤ℤ floor }
{
    let low = top.get() - axial as i32;
    if low <= floor.get() {
        return None;
    }
    Some(Um::of(low))
}

/// Where the feed down begins after a layer, over which nothing is left where the tool cut with its whole diameter.
#[tactic(auto, using(crate::proofs::LayeringLemmas::start_after_within))]
fn start_after(sec: Um, low: Um, e: u32) -> Um
    requires { e ≤ REACH }
    ensures { result ≡ int_min sec (low +ℤ pos (e + GAP)) }
{
    let start = low.get() + (e + GAP) as i32;
    Um::of(sec.get().min(start))
}

/// The heights of a layer, by where the feed down to its tip begins.
fn layer_at(sec: Um, start: Um, low: Um, e: u32) -> Layer
    requires { e ≤ REACH }
    ensures { result ≡ record { sec = sec; start = start; low = low; end = int_min (low +ℤ pos e) (pos REACH) } }
{
    Layer {
        sec,
        start,
        low,
        end: feed_end(low, e),
    }
}
