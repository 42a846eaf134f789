//! The table: each row with what it reads.
ghost use Rattle.std.specs.Prelude.{◌≡◌, ◌≤◌, ◌++◌, length};
ghost use Rattle.sn_entity.specs.Parts.{second_rows, third_rows};
ghost use Rattle.sn_entity.specs.Table.{IsAmong, reads_of as all_reads};

use crate::row::Group::{
    Body, Cond, Exec, Feat, Hbot, Island, Len, One, Op, Path, Pbot, Prof, Surf, Tool, Val,
};
use crate::row::Kind::{B, Dia, Edge, Feed, L0, L1, N, P, R, RL, Speed, T, V, Z, Z0};
use crate::row::RowId::{
    Axis2Placement3d, CartesianPoint, Direction, LinearPath, LinearProfile, MillingTechnology,
    MillingToolDimension, Polyline, RadiusedSlotEndType, Setup, SquareUProfile,
    TolerancedLengthMeasure, Workpiece, WorkpieceSetup, Workplan,
};
use crate::row::{Read, Row, RowId};
use smallvec::SmallVec;
use std::alloc::Global;

/// The reads of a row, in rising order of their places. No row reads more than eight parameters, so they take no memory.
pub type Reads = SmallVec<Read, 8>;

/// Whether `$` or `*` may stand at a place.
macro_rules! may_lack {
    (at) => {
        false
    };
    (may) => {
        true
    };
}

/// A row: `at` a place a kind, or `may` where nothing may stand there too.
macro_rules! row {
    ($id:ident: $($how:ident $place:literal $kind:expr),*) => {
        Row {
            id: RowId::$id,
            reads: [$(Read {
                place: $place,
                kind: $kind,
                may_lack: may_lack!($how),
            }),*],
        }
    };
}

const PROJECT: Row<2> = row!(Project: at 2 R(One(Workplan)), at 3 RL(One(Workpiece)));

const WORKPLAN: Row<2> = row!(Workplan: at 2 RL(Exec), may 4 R(One(Setup)));

const IF_STATEMENT: Row<3> = row!(IfStatement: at 2 R(Cond), at 3 R(Exec), may 4 R(Exec));

const NON_SEQUENTIAL: Row<1> = row!(NonSequential: at 2 RL(Exec));

const MACHINING_WORKINGSTEP: Row<3> =
    row!(MachiningWorkingstep: at 2 R(Surf), at 3 R(Feat), at 4 R(Op));

const SETUP: Row<2> = row!(Setup: may 3 R(Surf), at 4 RL(One(WorkpieceSetup)));

const WORKPIECE_SETUP: Row<2> =
    row!(WorkpieceSetup: at 1 R(One(Workpiece)), at 2 R(One(Axis2Placement3d)));

const WORKPIECE: Row<2> = row!(Workpiece: may 4 R(One(Workpiece)), at 6 B);

const BLOCK: Row<4> = row!(Block: at 2 R(One(Axis2Placement3d)), at 3 L1, at 4 L1, at 5 L1);

const PLANAR_FACE: Row<6> =
    row!(PlanarFace: at 4 R(One(Axis2Placement3d)), at 5 R(Surf), at 6 R(One(LinearPath)), at 7 R(One(LinearProfile)), at 8 Z, at 9 RL(Island));

const CLOSED_POCKET: Row<8> =
    row!(ClosedPocket: at 4 R(One(Axis2Placement3d)), at 5 R(Surf), at 6 RL(Island), at 7 Z0, at 8 R(Pbot), may 9 R(One(TolerancedLengthMeasure)), may 10 R(One(TolerancedLengthMeasure)), at 11 R(Prof));

const SLOT: Row<5> =
    row!(Slot: at 4 R(One(Axis2Placement3d)), at 5 R(Surf), at 6 R(Path), at 7 R(One(SquareUProfile)), at 8 RL(One(RadiusedSlotEndType)));

const ROUND_HOLE: Row<5> =
    row!(RoundHole: at 4 R(One(Axis2Placement3d)), at 5 R(Surf), at 6 R(Len), at 7 Z, at 8 R(Hbot));

const BOSS: Row<4> = row!(Boss: at 4 R(One(Axis2Placement3d)), at 5 R(Surf), at 6 R(Prof), at 7 Z0);

const PLANE_ROUGH_MILLING: Row<4> =
    row!(PlaneRoughMilling: at 6 R(Tool), at 7 R(One(MillingTechnology)), may 13 L1, may 14 L0);

const PLANE_FINISH_MILLING: Row<4> =
    row!(PlaneFinishMilling: at 6 R(Tool), at 7 R(One(MillingTechnology)), may 13 L1, may 14 L0);

const BOTTOM_AND_SIDE_ROUGH_MILLING: Row<6> =
    row!(BottomAndSideRoughMilling: at 6 R(Tool), at 7 R(One(MillingTechnology)), may 13 L1, may 14 L1, may 15 L0, may 16 L0);

const BOTTOM_AND_SIDE_FINISH_MILLING: Row<6> =
    row!(BottomAndSideFinishMilling: at 6 R(Tool), at 7 R(One(MillingTechnology)), may 13 L1, may 14 L1, may 15 L0, may 16 L0);

const DRILLING: Row<2> = row!(Drilling: at 6 R(Tool), at 7 R(One(MillingTechnology)));

const CUTTING_TOOL: Row<2> = row!(CuttingTool: at 2 R(Body), may 4 L1);

const MILLING_CUTTING_TOOL: Row<2> = row!(MillingCuttingTool: at 2 R(Body), may 4 L1);

const ENDMILL: Row<1> = row!(Endmill: at 1 R(One(MillingToolDimension)));

const TWIST_DRILL: Row<1> = row!(TwistDrill: at 1 R(One(MillingToolDimension)));

const MILLING_TOOL_DIMENSION: Row<2> = row!(MillingToolDimension: at 1 Dia, may 5 Edge);

const MILLING_TECHNOLOGY: Row<2> = row!(MillingTechnology: at 1 Feed, at 4 Speed);

const AXIS2_PLACEMENT_3D: Row<3> =
    row!(Axis2Placement3d: at 2 R(One(CartesianPoint)), may 3 R(One(Direction)), may 4 R(One(Direction)));

const CARTESIAN_POINT: Row<1> = row!(CartesianPoint: at 2 P);

const DIRECTION: Row<1> = row!(Direction: at 2 V);

const PLANE: Row<1> = row!(Plane: at 2 R(One(Axis2Placement3d)));

const ELEMENTARY_SURFACE: Row<1> = row!(ElementarySurface: at 2 R(One(Axis2Placement3d)));

const TOLERANCED_LENGTH_MEASURE: Row<1> = row!(TolerancedLengthMeasure: at 1 L0);

const NUMERIC_PARAMETER: Row<1> = row!(NumericParameter: at 2 L0);

const LINEAR_PATH: Row<3> = row!(LinearPath: at 1 Z, at 2 R(Len), at 3 R(One(Direction)));

const GENERAL_PATH: Row<2> = row!(GeneralPath: at 1 Z, at 2 R(One(Polyline)));

const POLYLINE: Row<1> = row!(Polyline: at 2 RL(One(CartesianPoint)));

const LINEAR_PROFILE: Row<2> = row!(LinearProfile: at 1 Z, at 2 R(Len));

const SQUARE_U_PROFILE: Row<4> = row!(SquareUProfile: at 1 Z, at 2 R(Len), at 4 Z0, at 6 Z0);

const GENERAL_CLOSED_PROFILE: Row<2> =
    row!(GeneralClosedProfile: may 1 R(One(Axis2Placement3d)), at 2 R(One(Polyline)));

const RECTANGULAR_CLOSED_PROFILE: Row<3> =
    row!(RectangularClosedProfile: may 1 R(One(Axis2Placement3d)), at 2 R(Len), at 3 R(Len));

const CIRCULAR_CLOSED_PROFILE: Row<2> =
    row!(CircularClosedProfile: may 1 R(One(Axis2Placement3d)), at 2 R(Len));

const RADIUSED_SLOT_END_TYPE: Row<0> = row!(RadiusedSlotEndType:);

const THROUGH_BOTTOM_CONDITION: Row<0> = row!(ThroughBottomCondition:);

const FLAT_HOLE_BOTTOM: Row<0> = row!(FlatHoleBottom:);

const CONICAL_HOLE_BOTTOM: Row<0> = row!(ConicalHoleBottom:);

const PLANAR_POCKET_BOTTOM_CONDITION: Row<0> = row!(PlanarPocketBottomCondition:);

const THROUGH_POCKET_BOTTOM_CONDITION: Row<0> = row!(ThroughPocketBottomCondition:);

const AND_EXPRESSION: Row<1> = row!(AndExpression: at 1 RL(Cond));

const OR_EXPRESSION: Row<1> = row!(OrExpression: at 1 RL(Cond));

const XOR_EXPRESSION: Row<2> = row!(XorExpression: at 1 R(Cond), at 2 R(Cond));

const NOT_EXPRESSION: Row<1> = row!(NotExpression: at 1 R(Cond));

const COMPARISON_EQUAL: Row<2> = row!(ComparisonEqual: at 1 R(Val), at 2 R(Val));

const COMPARISON_NOT_EQUAL: Row<2> = row!(ComparisonNotEqual: at 1 R(Val), at 2 R(Val));

const COMPARISON_LESS: Row<2> = row!(ComparisonLess: at 1 R(Val), at 2 R(Val));

const COMPARISON_LESS_EQUAL: Row<2> = row!(ComparisonLessEqual: at 1 R(Val), at 2 R(Val));

const COMPARISON_GREATER: Row<2> = row!(ComparisonGreater: at 1 R(Val), at 2 R(Val));

const COMPARISON_GREATER_EQUAL: Row<2> = row!(ComparisonGreaterEqual: at 1 R(Val), at 2 R(Val));

const NC_VARIABLE: Row<2> = row!(NcVariable: at 1 T, may 2 N);

const NC_CONSTANT: Row<1> = row!(NcConstant: at 2 N);

/// The reads as a list of their own.
fn listed(alloc: Global, reads: &[Read]) -> Reads
    requires { length reads.now ≤ 8 }
    ensures { result.items ≡ reads.now }
{
    match SmallVec::from_slice(alloc, reads) {
        Ok(list) => list,
        Err(_) => unreachable!(),
    }
}

/// The reads of a row, an arm for each.
macro_rules! reads_by_row {
    ($alloc:ident, $id:ident: $($row:ident $constant:ident,)* _ => $rest:expr) => {
        match $id {
            $(RowId::$row => {
                let row = $constant;
                listed($alloc, &row.reads)
            })*
            _ => $rest,
        }
    };
}

/// What a row reads.
pub fn reads_of(alloc: Global, id: RowId) -> Reads
    ensures { result.items ≡ all_reads id }
{
    reads_by_row! { alloc, id:
        Project PROJECT,
        Workplan WORKPLAN,
        IfStatement IF_STATEMENT,
        NonSequential NON_SEQUENTIAL,
        MachiningWorkingstep MACHINING_WORKINGSTEP,
        Setup SETUP,
        WorkpieceSetup WORKPIECE_SETUP,
        Workpiece WORKPIECE,
        Block BLOCK,
        PlanarFace PLANAR_FACE,
        ClosedPocket CLOSED_POCKET,
        Slot SLOT,
        RoundHole ROUND_HOLE,
        Boss BOSS,
        PlaneRoughMilling PLANE_ROUGH_MILLING,
        PlaneFinishMilling PLANE_FINISH_MILLING,
        BottomAndSideRoughMilling BOTTOM_AND_SIDE_ROUGH_MILLING,
        BottomAndSideFinishMilling BOTTOM_AND_SIDE_FINISH_MILLING,
        Drilling DRILLING,
        CuttingTool CUTTING_TOOL,
        _ => reads_of_later(alloc, id)
    }
}

/// What one of the rows after the first twenty reads.
fn reads_of_later(alloc: Global, id: RowId) -> Reads
    requires { IsAmong id (second_rows ++ third_rows) }
    ensures { result.items ≡ all_reads id }
{
    reads_by_row! { alloc, id:
        MillingCuttingTool MILLING_CUTTING_TOOL,
        Endmill ENDMILL,
        TwistDrill TWIST_DRILL,
        MillingToolDimension MILLING_TOOL_DIMENSION,
        MillingTechnology MILLING_TECHNOLOGY,
        Axis2Placement3d AXIS2_PLACEMENT_3D,
        CartesianPoint CARTESIAN_POINT,
        Direction DIRECTION,
        Plane PLANE,
        ElementarySurface ELEMENTARY_SURFACE,
        TolerancedLengthMeasure TOLERANCED_LENGTH_MEASURE,
        NumericParameter NUMERIC_PARAMETER,
        LinearPath LINEAR_PATH,
        GeneralPath GENERAL_PATH,
        Polyline POLYLINE,
        LinearProfile LINEAR_PROFILE,
        SquareUProfile SQUARE_U_PROFILE,
        GeneralClosedProfile GENERAL_CLOSED_PROFILE,
        RectangularClosedProfile RECTANGULAR_CLOSED_PROFILE,
        CircularClosedProfile CIRCULAR_CLOSED_PROFILE,
        _ => reads_of_last(alloc, id)
    }
}

/// What one of the last rows reads.
fn reads_of_last(alloc: Global, id: RowId) -> Reads
    requires { IsAmong id third_rows }
    ensures { result.items ≡ all_reads id }
{
    reads_by_row! { alloc, id:
        RadiusedSlotEndType RADIUSED_SLOT_END_TYPE,
        ThroughBottomCondition THROUGH_BOTTOM_CONDITION,
        FlatHoleBottom FLAT_HOLE_BOTTOM,
        ConicalHoleBottom CONICAL_HOLE_BOTTOM,
        PlanarPocketBottomCondition PLANAR_POCKET_BOTTOM_CONDITION,
        ThroughPocketBottomCondition THROUGH_POCKET_BOTTOM_CONDITION,
        AndExpression AND_EXPRESSION,
        OrExpression OR_EXPRESSION,
        XorExpression XOR_EXPRESSION,
        NotExpression NOT_EXPRESSION,
        ComparisonEqual COMPARISON_EQUAL,
        ComparisonNotEqual COMPARISON_NOT_EQUAL,
        ComparisonLess COMPARISON_LESS,
        ComparisonLessEqual COMPARISON_LESS_EQUAL,
        ComparisonGreater COMPARISON_GREATER,
        ComparisonGreaterEqual COMPARISON_GREATER_EQUAL,
        NcVariable NC_VARIABLE,
        NcConstant NC_CONSTANT,
        _ => unreachable!()
    }
}
