//! Lists of parameters that are open.

ghost use Rattle.std.specs.Prelude.{◌≡◌};
ghost use Rattle.sn_p21.specs.Reader.{empty_list, list_param, first_place, is_typed};

use crate::file::{Bytes, Param, Params};
use crate::grammar::place::Place;
use sqlite_items::Items;
use std::alloc::Global;

/// What a list of parameters belongs to.
#[derive(Drop)]
pub enum Opening {
    /// To itself, or to an entity.
    Plain,
    /// To a typed parameter of this keyword.
    Typed(Bytes),
}

/// A list of parameters that is open, with those that it has so far.
#[derive(Drop)]
pub struct OpenList {
    pub opening: Opening,
    pub params: Params,
}

/// A list that has no parameter yet.
pub(crate) fn empty_list(alloc: Global, opening: Opening) -> OpenList
    ensures { result ≡ empty_list opening }
{
    OpenList {
        opening,
        params: Items::new(alloc),
    }
}

/// The list as a parameter.
pub(crate) fn list_param(list: OpenList) -> Param
    ensures { result ≡ list_param list }
{
    let OpenList { opening, params } = list;
    match opening {
        Opening::Plain => Param::List(params),
        Opening::Typed(keyword) => Param::Typed(keyword, params),
    }
}

/// The place behind the opening of a list: that of a typed parameter is not empty.
pub(crate) fn first_place(opening: &Opening) -> Place
    ensures { result ≡ first_place opening.now }
{
    match opening {
        Opening::Plain => Place::FirstParam,
        Opening::Typed(_) => Place::NextParam,
    }
}

/// Whether the list is that of a typed parameter.
pub(crate) fn is_typed(list: &OpenList) -> bool
    ensures { result ≡ is_typed list.now }
{
    matches!(list.opening, Opening::Typed(_))
}
