//! What the instances show that an executed step leads to.
ghost use Rattle.std.specs.Prelude.{◌≡◌, ◌≤◌, pos, IfSome};
ghost use Rattle.sn_geom.specs.declared.limits.TheConstants.{REACH};
ghost use Rattle.sn_model.specs.ModelContent.{row_of_number};
ghost use Rattle.sn_refs.specs.Reference.{IsReached};
ghost use Rattle.sn_refs.specs.Target.{read_at, IsTarget};
ghost use Rattle.sn_refs.specs.Within.{IsWithinRead};
ghost use Rattle.sn_outline.specs.JobRule.{IsRate};
ghost use Rattle.sn_feature.specs.Entities.{named, amount, amount_if, workingstep_of, feature_of, form_of, face_of, pocket_of, slot_of, hole_of, course_of, linear_course_of, profile_of, boundary_of, rectangular_of, length_of, profile_length_of, bottom_from, plane_milling, side_milling, drilling, operation_of, cutter_from, tool_of, feed_of, speed_of, task_of};
ghost use Rattle.sn_feature.specs.Targets.{LeadsWorkingstep, LeadsForm, LeadsFace, LeadsPocket, LeadsSlot, LeadsHole, LeadsCourse, LeadsLinearCourse, LeadsBoundary, LeadsRectangular, LeadsOperation, IsLinearProfile, IsPlaneMilling, IsSideMilling, IsAllowance, HasDiameter, LeadsTask};

use sn_entity::{Group, RowId};
use sn_model::rows_have_numbers;
use sn_outline::Bottom;
use sn_refs::Checked;

/// What a workingstep names.
#[derive(Clone, Copy)]
pub struct Workingstep {
    /// Its security plane.
    pub security: u32,
    pub feature: u32,
    pub operation: u32,
}

/// A feature.
#[derive(Clone, Copy)]
pub struct Feature {
    pub placement: u32,
    /// Its depth plane.
    pub depth: u32,
    pub form: Form,
}

/// What a feature shows by its kind.
#[derive(Clone, Copy)]
pub enum Form {
    Face(Face),
    Pocket(Pocket),
    Slot(Slot),
    Hole(Hole),
}

/// A planar face.
#[derive(Clone, Copy)]
pub struct Face {
    /// The linear path of its course.
    pub course: u32,
    /// The linear profile of its removal boundary.
    pub boundary: u32,
}

/// A closed pocket.
#[derive(Clone, Copy)]
pub struct Pocket {
    pub bottom: u32,
    pub planar_radius: Option<u32>,
    pub orthogonal_radius: Option<u32>,
    /// Its closed profile.
    pub boundary: u32,
}

/// A slot.
#[derive(Clone, Copy)]
pub struct Slot {
    /// The path of its course.
    pub course: u32,
    /// The profile that is swept along the course.
    pub swept: u32,
}

/// A round hole.
#[derive(Clone, Copy)]
pub struct Hole {
    pub diameter: u32,
    pub bottom: u32,
}

/// A path.
#[derive(Clone, Copy)]
pub enum Course {
    Linear(LinearCourse),
    /// Its polyline.
    General(u32),
}

/// A linear path.
#[derive(Clone, Copy)]
pub struct LinearCourse {
    pub distance: u32,
    pub direction: u32,
}

/// A closed profile.
#[derive(Clone, Copy)]
pub struct Profile {
    pub placement: Option<u32>,
    pub boundary: Boundary,
}

/// What a closed profile shows by its kind.
#[derive(Clone, Copy)]
pub enum Boundary {
    /// Its polyline.
    General(u32),
    Rectangular(Rectangular),
    /// Its diameter.
    Circular(u32),
}

/// A rectangular closed profile.
#[derive(Clone, Copy)]
pub struct Rectangular {
    /// Along X.
    pub width: u32,
    /// Along Y.
    pub length: u32,
}

/// A machining operation. Lengths are tenths of a micrometre; an allowance that is not given is 0.
#[derive(Clone, Copy)]
pub struct Operation {
    pub cutting: Cutting,
    pub tool: u32,
    pub technology: u32,
    /// The axial depth of cut, if it is given.
    pub axial: Option<u32>,
    /// The radial depth of cut, if it is given.
    pub radial: Option<u32>,
    /// The side allowance.
    pub side: u32,
    /// The bottom allowance.
    pub under: u32,
}

/// The kinds of operations.
#[derive(Clone, Copy)]
pub enum Cutting {
    Plane,
    BottomAndSide,
    Drilling,
}

/// A tool. Lengths are tenths of a micrometre; an edge radius that is not given is 0.
#[derive(Clone, Copy)]
pub struct Tool {
    pub cutter: Cutter,
    pub diameter: u32,
    /// The edge radius.
    pub edge: u32,
    /// The overall length, if it is given.
    pub length: Option<u32>,
}

/// The kinds of cutters.
#[derive(Clone, Copy)]
pub enum Cutter {
    Endmill,
    TwistDrill,
}

impl Workingstep {
    /// What a workingstep names.
    #[tactic(auto, unfolding(crate::specs::Entities::workingstep_of))]
    pub fn read(c: &Checked, n: u32) -> Workingstep
        requires { IsTarget c.now (Group.One RowId.MachiningWorkingstep) n }
        ensures value { result ≡ workingstep_of c.now n }
        ensures leads { LeadsWorkingstep c.now result }
    {
        Workingstep {
            security: c.one(n, 0),
            feature: c.one(n, 1),
            operation: c.one(n, 2),
        }
    }
}

impl Feature {
    /// A feature.
    #[tactic(auto, unfolding(crate::specs::Entities::feature_of))]
    pub fn read(c: &Checked, n: u32) -> Feature
        requires { IsTarget c.now Group.Feat n }
        ensures value { result ≡ feature_of c.now n }
        ensures placement { IsTarget c.now (Group.One RowId.Axis2Placement3d) result.placement }
        ensures depth { IsTarget c.now Group.Surf result.depth }
        ensures form { LeadsForm c.now result.form }
    {
        Feature {
            placement: c.one(n, 0),
            depth: c.one(n, 1),
            form: Form::read(c, n),
        }
    }
}

impl Form {
    #[tactic(auto, unfolding(crate::specs::Entities::form_of))]
    pub fn read(c: &Checked, n: u32) -> Form
        requires { IsTarget c.now Group.Feat n }
        ensures value { result ≡ form_of c.now n }
        ensures leads { LeadsForm c.now result }
    {
        match c.fields(n).row {
            RowId::PlanarFace => Form::Face(Face::read(c, n)),
            RowId::ClosedPocket => Form::Pocket(Pocket::read(c, n)),
            RowId::Slot => Form::Slot(Slot::read(c, n)),
            RowId::RoundHole => Form::Hole(Hole::read(c, n)),
            _ => unreachable!(),
        }
    }
}

impl Face {
    #[tactic(auto, unfolding(crate::specs::Entities::face_of))]
    pub fn read(c: &Checked, n: u32) -> Face
        requires { IsTarget c.now (Group.One RowId.PlanarFace) n }
        ensures value { result ≡ face_of c.now n }
        ensures leads { LeadsFace c.now result }
    {
        Face {
            course: c.one(n, 2),
            boundary: c.one(n, 3),
        }
    }
}

impl Pocket {
    #[tactic(auto, unfolding(crate::specs::Entities::pocket_of))]
    pub fn read(c: &Checked, n: u32) -> Pocket
        requires { IsTarget c.now (Group.One RowId.ClosedPocket) n }
        ensures value { result ≡ pocket_of c.now n }
        ensures leads { LeadsPocket c.now result }
    {
        Pocket {
            bottom: c.one(n, 4),
            planar_radius: c.maybe_one(n, 5),
            orthogonal_radius: c.maybe_one(n, 6),
            boundary: c.one(n, 7),
        }
    }
}

impl Slot {
    #[tactic(auto, unfolding(crate::specs::Entities::slot_of))]
    pub fn read(c: &Checked, n: u32) -> Slot
        requires { IsTarget c.now (Group.One RowId.Slot) n }
        ensures value { result ≡ slot_of c.now n }
        ensures leads { LeadsSlot c.now result }
    {
        Slot {
            course: c.one(n, 2),
            swept: c.one(n, 3),
        }
    }
}

impl Hole {
    #[tactic(auto, unfolding(crate::specs::Entities::hole_of))]
    pub fn read(c: &Checked, n: u32) -> Hole
        requires { IsTarget c.now (Group.One RowId.RoundHole) n }
        ensures value { result ≡ hole_of c.now n }
        ensures leads { LeadsHole c.now result }
    {
        Hole {
            diameter: c.one(n, 2),
            bottom: c.one(n, 4),
        }
    }
}

impl Course {
    /// A path.
    #[tactic(auto, unfolding(crate::specs::Entities::course_of))]
    pub fn read(c: &Checked, n: u32) -> Course
        requires { IsTarget c.now Group.Path n }
        ensures value { result ≡ course_of c.now n }
        ensures leads { LeadsCourse c.now result }
    {
        match c.fields(n).row {
            RowId::LinearPath => Course::Linear(LinearCourse::read(c, n)),
            RowId::GeneralPath => Course::General(polyline(c, n)),
            _ => unreachable!(),
        }
    }
}

impl LinearCourse {
    #[tactic(auto, unfolding(crate::specs::Entities::linear_course_of))]
    pub fn read(c: &Checked, n: u32) -> LinearCourse
        requires { IsTarget c.now (Group.One RowId.LinearPath) n }
        ensures value { result ≡ linear_course_of c.now n }
        ensures leads { LeadsLinearCourse c.now result }
    {
        LinearCourse {
            distance: c.one(n, 1),
            direction: c.one(n, 2),
        }
    }
}

/// The polyline of a path.
fn polyline(c: &Checked, n: u32) -> u32
    requires { IsTarget c.now (Group.One RowId.GeneralPath) n }
    ensures value { result ≡ named c.now n 1 }
    ensures leads { IsTarget c.now (Group.One RowId.Polyline) result }
{
    c.one(n, 1)
}

impl Profile {
    /// A closed profile.
    #[tactic(auto, unfolding(crate::specs::Entities::profile_of))]
    pub fn read(c: &Checked, n: u32) -> Profile
        requires { IsTarget c.now Group.Prof n }
        ensures value { result ≡ profile_of c.now n }
        ensures placement { IfSome result.placement (IsTarget c.now (Group.One RowId.Axis2Placement3d)) }
        ensures boundary { LeadsBoundary c.now result.boundary }
    {
        Profile {
            placement: c.maybe_one(n, 0),
            boundary: Boundary::read(c, n),
        }
    }
}

impl Boundary {
    #[tactic(auto, unfolding(crate::specs::Entities::boundary_of))]
    pub fn read(c: &Checked, n: u32) -> Boundary
        requires { IsTarget c.now Group.Prof n }
        ensures value { result ≡ boundary_of c.now n }
        ensures leads { LeadsBoundary c.now result }
    {
        match c.fields(n).row {
            RowId::GeneralClosedProfile => Boundary::General(curve(c, n)),
            RowId::RectangularClosedProfile => Boundary::Rectangular(Rectangular::read(c, n)),
            RowId::CircularClosedProfile => Boundary::Circular(diameter(c, n)),
            _ => unreachable!(),
        }
    }
}

/// The polyline of a closed profile.
fn curve(c: &Checked, n: u32) -> u32
    requires { IsTarget c.now (Group.One RowId.GeneralClosedProfile) n }
    ensures value { result ≡ named c.now n 1 }
    ensures leads { IsTarget c.now (Group.One RowId.Polyline) result }
{
    c.one(n, 1)
}

impl Rectangular {
    #[tactic(auto, unfolding(crate::specs::Entities::rectangular_of))]
    pub fn read(c: &Checked, n: u32) -> Rectangular
        requires { IsTarget c.now (Group.One RowId.RectangularClosedProfile) n }
        ensures value { result ≡ rectangular_of c.now n }
        ensures leads { LeadsRectangular c.now result }
    {
        Rectangular {
            width: c.one(n, 1),
            length: c.one(n, 2),
        }
    }
}

/// The diameter of a circular profile.
fn diameter(c: &Checked, n: u32) -> u32
    requires { IsTarget c.now (Group.One RowId.CircularClosedProfile) n }
    ensures value { result ≡ named c.now n 1 }
    ensures leads { IsTarget c.now Group.Len result }
{
    c.one(n, 1)
}

/// The length that a TOLERANCED_LENGTH_MEASURE or a NUMERIC_PARAMETER gives, in tenths of a micrometre.
#[tactic(auto, unfolding(crate::specs::Entities::length_of))]
pub fn length(c: &Checked, n: u32) -> u32
    requires { IsTarget c.now Group.Len n }
    ensures value { result ≡ length_of c.now n }
    ensures limit { result ≤ REACH }
{
    c.num(n, 0).unsigned_abs()
}

/// The length of a LINEAR_PROFILE or the width of a SQUARE_U_PROFILE, in tenths of a micrometre.
#[tactic(auto, unfolding(crate::specs::Entities::profile_length_of))]
pub fn profile_length(c: &Checked, n: u32) -> u32
    requires { IsLinearProfile c.now n }
    ensures value { result ≡ profile_length_of c.now n }
    ensures limit { result ≤ REACH }
{
    length(c, c.one(n, 1))
}

impl Operation {
    /// An operation.
    #[tactic(auto, unfolding(crate::specs::Entities::operation_of))]
    pub fn read(c: &Checked, n: u32) -> Operation
        requires { IsTarget c.now Group.Op n }
        ensures value { result ≡ operation_of c.now n }
        ensures leads { LeadsOperation c.now result }
    {
        match c.fields(n).row {
            RowId::PlaneRoughMilling => Operation::plane(c, n),
            RowId::PlaneFinishMilling => Operation::plane(c, n),
            RowId::BottomAndSideRoughMilling => Operation::bottom_and_side(c, n),
            RowId::BottomAndSideFinishMilling => Operation::bottom_and_side(c, n),
            RowId::Drilling => Operation::drilling(c, n),
            _ => unreachable!(),
        }
    }

    #[tactic(auto, unfolding(crate::specs::Entities::plane_milling))]
    fn plane(c: &Checked, n: u32) -> Operation
        requires { IsPlaneMilling c.now n }
        ensures value { result ≡ plane_milling c.now n }
        ensures leads { LeadsOperation c.now result }
    {
        Operation {
            cutting: Cutting::Plane,
            tool: c.one(n, 0),
            technology: c.one(n, 1),
            axial: maybe_length(c, n, 2),
            radial: None,
            side: 0,
            under: allowance(c, n, 3),
        }
    }

    #[tactic(auto, unfolding(crate::specs::Entities::side_milling))]
    fn bottom_and_side(c: &Checked, n: u32) -> Operation
        requires { IsSideMilling c.now n }
        ensures value { result ≡ side_milling c.now n }
        ensures leads { LeadsOperation c.now result }
    {
        Operation {
            cutting: Cutting::BottomAndSide,
            tool: c.one(n, 0),
            technology: c.one(n, 1),
            axial: maybe_length(c, n, 2),
            radial: maybe_length(c, n, 3),
            side: allowance(c, n, 4),
            under: allowance(c, n, 5),
        }
    }

    #[tactic(auto, unfolding(crate::specs::Entities::drilling))]
    fn drilling(c: &Checked, n: u32) -> Operation
        requires { IsTarget c.now (Group.One RowId.Drilling) n }
        ensures value { result ≡ drilling c.now n }
        ensures leads { LeadsOperation c.now result }
    {
        Operation {
            cutting: Cutting::Drilling,
            tool: c.one(n, 0),
            technology: c.one(n, 1),
            axial: None,
            radial: None,
            side: 0,
            under: 0,
        }
    }
}

/// The length at a place, if one is given.
fn maybe_length(c: &Checked, n: u32, k: usize) -> Option<u32>
    requires { IsReached c.now n }
    ensures value { result ≡ amount_if c.now n k }
    ensures limits { IfSome result (λ z. IsWithinRead (read_at (row_of_number n c.now) k) (pos z)) }
{
    c.maybe_num(n, k).map(|z| z.unsigned_abs())
}

/// The allowance at a place, 0 where none is given.
fn allowance(c: &Checked, n: u32, k: usize) -> u32
    requires reached { IsReached c.now n }
    requires kind { IsAllowance (read_at (row_of_number n c.now) k) }
    ensures value { result ≡ amount c.now n k }
    ensures limit { result ≤ REACH }
{
    maybe_length(c, n, k).unwrap_or(0)
}

impl Tool {
    /// A tool with its body and its dimension.
    #[tactic(auto, unfolding(crate::specs::Entities::tool_of))]
    pub fn read(c: &Checked, n: u32) -> Tool
        requires { IsTarget c.now Group.Tool n }
        ensures value { result ≡ tool_of c.now n }
        ensures diameter { HasDiameter result }
    {
        let body = c.one(n, 0);
        let dimension = c.one(body, 0);
        Tool {
            cutter: Cutter::read(c, body),
            diameter: c.num(dimension, 0).unsigned_abs(),
            edge: maybe_length(c, dimension, 1).unwrap_or(0),
            length: maybe_length(c, n, 1),
        }
    }
}

impl Cutter {
    fn read(c: &Checked, n: u32) -> Cutter
        requires { IsTarget c.now Group.Body n }
        ensures value { result ≡ cutter_from (row_of_number n c.now) }
    {
        match c.fields(n).row {
            RowId::TwistDrill => Cutter::TwistDrill,
            RowId::Endmill => Cutter::Endmill,
            _ => unreachable!(),
        }
    }
}

/// The feed of a technology, in mm/min.
#[tactic(auto, unfolding(crate::specs::Entities::feed_of))]
pub fn feed(c: &Checked, n: u32) -> u32
    requires { IsTarget c.now (Group.One RowId.MillingTechnology) n }
    ensures value { result ≡ feed_of c.now n }
    ensures rate { IsRate result }
{
    c.num(n, 0).unsigned_abs()
}

/// The speed of a technology, in rev/min.
#[tactic(auto, unfolding(crate::specs::Entities::speed_of))]
pub fn speed(c: &Checked, n: u32) -> u32
    requires { IsTarget c.now (Group.One RowId.MillingTechnology) n }
    ensures value { result ≡ speed_of c.now n }
    ensures rate { IsRate result }
{
    c.num(n, 1).unsigned_abs()
}

/// The bottom of a hole or of a pocket.
pub fn bottom(c: &Checked, n: u32) -> Bottom
    requires { IsReached c.now n }
    ensures value { result ≡ bottom_from (row_of_number n c.now) }
{
    match c.fields(n).row {
        RowId::ConicalHoleBottom => Bottom::Conical,
        RowId::ThroughBottomCondition => Bottom::Through,
        RowId::ThroughPocketBottomCondition => Bottom::Through,
        _ => Bottom::Flat,
    }
}

/// What a workingstep leads to.
#[derive(Clone, Copy)]
pub struct Task {
    /// The number of the workingstep.
    pub ws: u32,
    pub names: Workingstep,
    pub feature: Feature,
    pub operation: Operation,
    pub tool: Tool,
}

impl Task {
    #[tactic(auto, unfolding(crate::specs::Entities::task_of))]
    pub fn read(c: &Checked, ws: u32) -> Task
        requires { IsTarget c.now (Group.One RowId.MachiningWorkingstep) ws }
        ensures value { result ≡ task_of c.now ws }
        ensures leads { LeadsTask c.now result }
    {
        c.rule();
        rows_have_numbers();
        let names = Workingstep::read(c, ws);
        let operation = Operation::read(c, names.operation);
        Task {
            ws,
            names,
            feature: Feature::read(c, names.feature),
            operation,
            tool: Tool::read(c, operation.tool),
        }
    }
}
