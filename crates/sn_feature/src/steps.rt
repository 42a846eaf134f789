//! The steps of workingsteps.
ghost use Rattle.std.specs.Prelude.{◌≡◌, ◌⊎◌, Err, IfOk, ◌+ℤ◌};
ghost use Rattle.sn_refs.specs.Target.{IsTarget};
ghost use Rattle.sn_feature.specs.Outline.{sketch_of, is_bad_outline as is_bad_outline_by};
ghost use Rattle.sn_feature.specs.Placement.{plane_height as height_of_plane};
ghost use Rattle.sn_feature.specs.Refusal.{length_in_range as in_range};
ghost use Rattle.sn_feature.specs.Step.{placed_feature, parts_of, judged, step_of};
ghost use Rattle.sn_feature.specs.StepRule.{AreProper, HasCorner};
ghost use Rattle.sn_feature.specs.Targets.{LeadsForm, LeadsTask};
ghost use Rattle.sn_outline.specs.JobRule.{IsRate};

use crate::bad::is_bad_outline;
use crate::entities::{Feature, Task, feed, speed};
use crate::fault::StepFault;
use crate::parts::{PlacedFeature, StepParts, lowest_tip};
use crate::placement::{plane_height, upright_frame};
use crate::site::{Site, outline_site, straight_path};
use crate::sketch::Sketch;
use crate::tooling::{
    axial_depth, body, corner, feature_bottom, is_short_tool, is_wrong_tool, radial_depth, way,
};
use sn_entity::{Group, RowId};
use sn_frame::{Frame, FrameFault};
use sn_geom::{REACH, Um};
use sn_outline::{Outline, Shapes};
use sn_refs::Checked;
use std::alloc::Global;

/// The height, where it is in the range of coordinates. The fault carries the number of a placement.
fn length_in_range(z: i64, placement: u32) -> Result<Um, FrameFault>
    ensures { result ≡ in_range z placement }
{
    if z.unsigned_abs() <= u64::from(REACH) {
        Ok(Um::of(z as i32))
    } else {
        Err(FrameFault::OutOfRange(placement))
    }
}

/// The height of a feature's floor, from that of its top.
fn floor(c: &Checked, top: Um, feature: &Feature) -> Result<Um, FrameFault>
    requires { IsTarget c.now Group.Surf feature.now.depth }
    ensures { result ≡ in_range (top +ℤ height_of_plane c.now feature.now.depth) feature.now.placement }
{
    let depth = plane_height(c, feature.depth);
    length_in_range(
        i64::from(top.get()) + i64::from(depth.get()),
        feature.placement,
    )
}

/// The feature in the setup, whose workpiece stands in this frame.
#[tactic(auto, unfolding(crate::specs::Step::placed_feature))]
fn place_feature(
    alloc: Global,
    c: &Checked,
    workpiece: &Frame,
    feature: &Feature,
    sketch: Sketch,
) -> Result<PlacedFeature, FrameFault>
    requires placement { IsTarget c.now (Group.One RowId.Axis2Placement3d) feature.now.placement }
    requires depth { IsTarget c.now Group.Surf feature.now.depth }
    requires form { LeadsForm c.now feature.now.form }
    requires sketch { sketch ≡ sketch_of c.now feature.now.form }
    ensures { result ≡ placed_feature c.now workpiece.now feature.now }
{
    let frame = upright_frame(c, workpiece, feature.placement)?;
    straight_path(c, &feature.form)?;
    let site = Site {
        frame,
        placement: feature.placement,
    };
    let shape = outline_site(c, &site, &feature.form)?.shape(sketch)?;
    let top = frame.origin().z;
    let floor = floor(c, top, feature)?;
    Ok(PlacedFeature {
        top,
        floor,
        outline: Outline {
            shape,
            islands: Shapes::new(alloc),
        },
    })
}

/// What a workingstep gives a step of a job.
#[tactic(auto, unfolding(crate::specs::Step::parts_of))]
fn parts(c: &Checked, task: &Task, placed: PlacedFeature) -> StepParts
    requires { LeadsTask c.now task.now }
    ensures value { result ≡ parts_of c.now task.now placed }
    ensures corner { HasCorner result }
    ensures feed { IsRate result.feed }
    ensures speed { IsRate result.speed }
{
    let form = &task.feature.form;
    let operation = &task.operation;
    StepParts {
        ws: task.ws,
        feature: task.names.feature,
        outline: placed.outline,
        top: placed.top,
        floor: placed.floor,
        bottom: feature_bottom(c, form),
        corner: corner(c, form),
        side: operation.side,
        under: operation.under,
        axial: axial_depth(operation),
        radial: radial_depth(operation, task.tool.diameter),
        tool: operation.tool,
        body: body(&task.tool),
        feed: feed(c, operation.technology),
        speed: speed(c, operation.technology),
        way: way(c, form, operation, task.tool.diameter),
    }
}

/// Refuses a workingstep whose feature stands in the setup, by its lowest tip, its depth, its outline or its tool.
#[tactic(auto, unfolding(crate::specs::Step::judged))]
fn judge(
    c: &Checked,
    task: &Task,
    raw_top: i32,
    parts: &StepParts,
    is_bad: bool,
) -> Result<(), StepFault>
    requires { is_bad ≡ is_bad_outline_by c.now task.now.feature.form }
    ensures { result ≡ judged c.now task.now raw_top parts.now }
{
    let tip = length_in_range(lowest_tip(parts), task.feature.placement)?;
    if parts.top.get() < parts.floor.get() {
        return Err(StepFault::Depth(task.names.feature));
    }
    if is_bad {
        return Err(StepFault::BadOutline(task.names.feature));
    }
    if is_wrong_tool(&task.feature.form, &task.operation, &task.tool) {
        return Err(StepFault::WrongTool(task.ws));
    }
    if is_short_tool(task.tool.length, raw_top, tip) {
        return Err(StepFault::ShortTool(task.ws));
    }
    Ok(())
}

/// The step of a workingstep in a setup in which the workpiece stands in this frame and the raw box has this top, in
/// tenths of a micrometre.
#[tactic(auto, unfolding(crate::specs::Step::step_of, crate::specs::Step::step_by))]
pub fn step(
    alloc: Global,
    c: &Checked,
    workpiece: &Frame,
    raw_top: i32,
    ws: u32,
) -> Result<StepParts, StepFault>
    requires { IsTarget c.now (Group.One RowId.MachiningWorkingstep) ws }
    ensures answer { (result ≡ Err StepFault.Memory) ⊎ (result ≡ step_of c.now workpiece.now raw_top ws) }
    ensures proper { IfOk result AreProper }
    ensures corner { IfOk result HasCorner }
{
    let task = Task::read(c, ws);
    let sketch = Sketch::read(alloc, c, &task.feature.form)?;
    let is_bad = is_bad_outline(c, &task.feature.form, &sketch);
    let placed = place_feature(alloc, c, workpiece, &task.feature, sketch)?;
    let parts = parts(c, &task, placed);
    judge(c, &task, raw_top, &parts, is_bad)?;
    Ok(parts)
}
