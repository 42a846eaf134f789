//! The rows of the table, and what they read.
ghost use Rattle.std.specs.Prelude.{◌≡◌, ◌↔◌, IsTrue, false};
ghost use Rattle.sn_entity.specs.Table.{IsInGroup, at};
ghost use Rattle.sn_entity.specs.declared.row.Kind.TheVariants.{B};

/// A row of the table, in the order of the table.
#[derive(Clone, Copy, Debug, PartialEq, Eq)]
pub enum RowId {
    Project,
    Workplan,
    IfStatement,
    NonSequential,
    MachiningWorkingstep,
    Setup,
    WorkpieceSetup,
    Workpiece,
    Block,
    PlanarFace,
    ClosedPocket,
    Slot,
    RoundHole,
    Boss,
    PlaneRoughMilling,
    PlaneFinishMilling,
    BottomAndSideRoughMilling,
    BottomAndSideFinishMilling,
    Drilling,
    CuttingTool,
    MillingCuttingTool,
    Endmill,
    TwistDrill,
    MillingToolDimension,
    MillingTechnology,
    Axis2Placement3d,
    CartesianPoint,
    Direction,
    Plane,
    ElementarySurface,
    TolerancedLengthMeasure,
    NumericParameter,
    LinearPath,
    GeneralPath,
    Polyline,
    LinearProfile,
    SquareUProfile,
    GeneralClosedProfile,
    RectangularClosedProfile,
    CircularClosedProfile,
    RadiusedSlotEndType,
    ThroughBottomCondition,
    FlatHoleBottom,
    ConicalHoleBottom,
    PlanarPocketBottomCondition,
    ThroughPocketBottomCondition,
    AndExpression,
    OrExpression,
    XorExpression,
    NotExpression,
    ComparisonEqual,
    ComparisonNotEqual,
    ComparisonLess,
    ComparisonLessEqual,
    ComparisonGreater,
    ComparisonGreaterEqual,
    NcVariable,
    NcConstant,
}

/// The rows that an instance which is named may have.
#[derive(Clone, Copy, Debug, PartialEq, Eq)]
pub enum Group {
    /// One row alone.
    One(RowId),
    /// What a workplan executes.
    Exec,
    /// Features.
    Feat,
    /// Operations.
    Op,
    /// Tools.
    Tool,
    /// Bodies of tools.
    Body,
    /// Planes.
    Surf,
    /// Lengths.
    Len,
    /// Paths.
    Path,
    /// Closed profiles.
    Prof,
    /// Bottoms of holes.
    Hbot,
    /// Bottoms of pockets.
    Pbot,
    /// Conditions.
    Cond,
    /// Values of a comparison.
    Val,
    /// Islands of a face or a pocket: none yet.
    Island,
}

impl Group {
    /// Whether an instance of this row may stand where the group is wanted.
    pub fn has(self, row: RowId) -> bool
        ensures { IsTrue result ↔ IsInGroup self row }
    {
        use RowId::*;
        match self {
            Group::One(id) => row == id,
            Group::Exec => matches!(row, Workplan | IfStatement | MachiningWorkingstep),
            Group::Feat => matches!(row, PlanarFace | ClosedPocket | Slot | RoundHole),
            Group::Op => matches!(
                row,
                PlaneRoughMilling
                    | PlaneFinishMilling
                    | BottomAndSideRoughMilling
                    | BottomAndSideFinishMilling
                    | Drilling
            ),
            Group::Tool => matches!(row, CuttingTool | MillingCuttingTool),
            Group::Body => matches!(row, Endmill | TwistDrill),
            Group::Surf => matches!(row, Plane | ElementarySurface),
            Group::Len => matches!(row, TolerancedLengthMeasure | NumericParameter),
            Group::Path => matches!(row, LinearPath | GeneralPath),
            Group::Prof => matches!(
                row,
                GeneralClosedProfile | RectangularClosedProfile | CircularClosedProfile
            ),
            Group::Hbot => matches!(
                row,
                ThroughBottomCondition | FlatHoleBottom | ConicalHoleBottom
            ),
            Group::Pbot => matches!(
                row,
                PlanarPocketBottomCondition | ThroughPocketBottomCondition
            ),
            Group::Cond => matches!(
                row,
                AndExpression
                    | OrExpression
                    | XorExpression
                    | NotExpression
                    | ComparisonEqual
                    | ComparisonNotEqual
                    | ComparisonLess
                    | ComparisonLessEqual
                    | ComparisonGreater
                    | ComparisonGreaterEqual
            ),
            Group::Val => matches!(row, NcVariable | NcConstant),
            Group::Island => false,
        }
    }
}

/// What a parameter has to be, and what it gives.
#[derive(Clone, Copy, Debug, PartialEq, Eq)]
pub enum Kind {
    /// A length, in units of length.
    L,
    /// A length from 0.
    L0,
    /// A length from 1 unit.
    L1,
    /// The diameter of a tool, in units of length.
    Dia,
    /// The edge radius of a tool, in units of length.
    Edge,
    /// A feed, in mm/min.
    Feed,
    /// The speed of the spindle, in rev/min; its sign is dropped.
    Speed,
    /// A number, in thousandths.
    N,
    /// A point: a list of two or three lengths.
    P,
    /// A direction: a list of three ratios, in thousandths.
    V,
    /// A string.
    T,
    /// No value: `$` or `*`.
    Z,
    /// No value, or a number that is 0.
    Z0,
    /// A reference to an instance of the group.
    R(Group),
    /// A list of references to instances of the group.
    RL(Group),
    /// Anything; a reference counts as given where it names a live block.
    B,
}

/// A parameter that a row reads.
#[derive(Clone, Copy, Debug, PartialEq, Eq)]
pub struct Read {
    /// Its place among the parameters of the instance, counted from 1.
    pub place: u32,
    pub kind: Kind,
    /// Whether `$` or `*` may stand in its place.
    pub may_lack: bool,
}

/// The blank with which a list of a fixed room is filled.
impl Default for Read {
    fn default() -> Read
        ensures { result ≡ at 0 B }
    {
        Read {
            place: 0,
            kind: Kind::B,
            may_lack: false,
        }
    }
}

/// A row: its reads in rising order of their places.
#[derive(Clone, Copy, Debug)]
pub struct Row<const N: usize> {
    pub id: RowId,
    pub reads: [Read; N],
}
