//! Laws of the text of lines. Each function's contract states laws, and the function does nothing.
ghost use Rattle.sn_geom.specs.LineTextLaws.{HasOneBlock, HasOneFault, HasNotBoth, HasBlockWhereNoFault, SaysItemsWhereNoFault, IsSignAndDigits, FineIsWholeCount, MarkIsNumber};

/// A line has one block or one first fault, and a block exactly where it has no fault.
pub fn line_readings()
    ensures one_block { HasOneBlock }
    ensures one_fault { HasOneFault }
    ensures not_both { HasNotBoth }
    ensures no_fault { HasBlockWhereNoFault }
    ensures items { SaysItemsWhereNoFault }
{}

/// A word's number is an optional sign, and digits with at most one point and at least one digit. It is fine where its
/// value is a whole count of the unit.
pub fn word_numbers()
    ensures text { IsSignAndDigits }
    ensures value { FineIsWholeCount }
{}

/// A mark is a comment of `WS #` and a number without leading zeros.
pub fn marks()
    ensures { MarkIsNumber }
{}
