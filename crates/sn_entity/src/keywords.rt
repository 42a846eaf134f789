//! The keywords of the rows.
ghost use Rattle.std.specs.Prelude.{◌≡◌, ◌↔◌, IsTrue, IfSome, IfNone};
ghost use Rattle.sn_entity.specs.Table.{name_of};
ghost use Rattle.sn_entity.specs.Parts.{IsNoneOf, first_rows, second_rows, third_rows};

use crate::row::RowId;

/// Whether a keyword is this word.
fn is_word(name: &[u8], word: &[u8]) -> bool
    ensures { IsTrue result ↔ (name.now ≡ word.now) }
{
    name == word
}

/// The row of a keyword, a line for each row.
macro_rules! row_named {
    ($name:ident: $($word:literal $row:ident,)*) => {{
        $(if is_word($name, $word) {
            return Some(RowId::$row);
        })*
        None
    }};
}

/// The row of a keyword, among the first twenty.
pub fn in_first_rows(name: &[u8]) -> Option<RowId>
    ensures found { IfSome result (λ id. name_of id ≡ name.now) }
    ensures none { IfNone result (IsNoneOf name.now first_rows) }
{
    row_named! { name:
        b"PROJECT" Project,
        b"WORKPLAN" Workplan,
        b"IF_STATEMENT" IfStatement,
        b"NON_SEQUENTIAL" NonSequential,
        b"MACHINING_WORKINGSTEP" MachiningWorkingstep,
        b"SETUP" Setup,
        b"WORKPIECE_SETUP" WorkpieceSetup,
        b"WORKPIECE" Workpiece,
        b"BLOCK" Block,
        b"PLANAR_FACE" PlanarFace,
        b"CLOSED_POCKET" ClosedPocket,
        b"SLOT" Slot,
        b"ROUND_HOLE" RoundHole,
        b"BOSS" Boss,
        b"PLANE_ROUGH_MILLING" PlaneRoughMilling,
        b"PLANE_FINISH_MILLING" PlaneFinishMilling,
        b"BOTTOM_AND_SIDE_ROUGH_MILLING" BottomAndSideRoughMilling,
        b"BOTTOM_AND_SIDE_FINISH_MILLING" BottomAndSideFinishMilling,
        b"DRILLING" Drilling,
        b"CUTTING_TOOL" CuttingTool,
    }
}

/// The row of a keyword, among the next twenty.
pub fn in_second_rows(name: &[u8]) -> Option<RowId>
    ensures found { IfSome result (λ id. name_of id ≡ name.now) }
    ensures none { IfNone result (IsNoneOf name.now second_rows) }
{
    row_named! { name:
        b"MILLING_CUTTING_TOOL" MillingCuttingTool,
        b"ENDMILL" Endmill,
        b"TWIST_DRILL" TwistDrill,
        b"MILLING_TOOL_DIMENSION" MillingToolDimension,
        b"MILLING_TECHNOLOGY" MillingTechnology,
        b"AXIS2_PLACEMENT_3D" Axis2Placement3d,
        b"CARTESIAN_POINT" CartesianPoint,
        b"DIRECTION" Direction,
        b"PLANE" Plane,
        b"ELEMENTARY_SURFACE" ElementarySurface,
        b"TOLERANCED_LENGTH_MEASURE" TolerancedLengthMeasure,
        b"NUMERIC_PARAMETER" NumericParameter,
        b"LINEAR_PATH" LinearPath,
        b"GENERAL_PATH" GeneralPath,
        b"POLYLINE" Polyline,
        b"LINEAR_PROFILE" LinearProfile,
        b"SQUARE_U_PROFILE" SquareUProfile,
        b"GENERAL_CLOSED_PROFILE" GeneralClosedProfile,
        b"RECTANGULAR_CLOSED_PROFILE" RectangularClosedProfile,
        b"CIRCULAR_CLOSED_PROFILE" CircularClosedProfile,
    }
}

/// The row of a keyword, among the last ones.
pub fn in_third_rows(name: &[u8]) -> Option<RowId>
    ensures found { IfSome result (λ id. name_of id ≡ name.now) }
    ensures none { IfNone result (IsNoneOf name.now third_rows) }
{
    row_named! { name:
        b"RADIUSED_SLOT_END_TYPE" RadiusedSlotEndType,
        b"THROUGH_BOTTOM_CONDITION" ThroughBottomCondition,
        b"FLAT_HOLE_BOTTOM" FlatHoleBottom,
        b"CONICAL_HOLE_BOTTOM" ConicalHoleBottom,
        b"PLANAR_POCKET_BOTTOM_CONDITION" PlanarPocketBottomCondition,
        b"THROUGH_POCKET_BOTTOM_CONDITION" ThroughPocketBottomCondition,
        b"AND_EXPRESSION" AndExpression,
        b"OR_EXPRESSION" OrExpression,
        b"XOR_EXPRESSION" XorExpression,
        b"NOT_EXPRESSION" NotExpression,
        b"COMPARISON_EQUAL" ComparisonEqual,
        b"COMPARISON_NOT_EQUAL" ComparisonNotEqual,
        b"COMPARISON_LESS" ComparisonLess,
        b"COMPARISON_LESS_EQUAL" ComparisonLessEqual,
        b"COMPARISON_GREATER" ComparisonGreater,
        b"COMPARISON_GREATER_EQUAL" ComparisonGreaterEqual,
        b"NC_VARIABLE" NcVariable,
        b"NC_CONSTANT" NcConstant,
    }
}
