//! Laws of the table.
ghost use Rattle.sn_entity.specs.Given.{GivenWhereWanted};
ghost use Rattle.sn_entity.specs.OneRow.{OneRow};
ghost use Rattle.sn_entity.specs.Shape.{ShapesTell, ShowsShape};
ghost use Rattle.sn_entity.specs.TableLaws.{InGroupOrNot};

/// An instance has one row at most.
pub fn one_row()
    ensures { OneRow }
{}

/// What an instance shows has the shape that its row wants, and want of memory is no fault of an instance.
pub fn shows_shape()
    ensures shows { ShowsShape }
    ensures tell { ShapesTell }
{}

/// A row is in a group or not.
pub fn in_group_or_not()
    ensures { InGroupOrNot }
{}

/// What a row wants and may not lack is given at its place.
pub fn given_where_wanted()
    ensures { GivenWhereWanted }
{}
