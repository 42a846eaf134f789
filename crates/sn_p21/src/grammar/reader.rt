//! The reader of a part text: what was read, and what may stand next.

ghost use Rattle.std.specs.Prelude.{◌≡◌, ◌↔◌, [], IsTrue};
ghost use Rattle.sn_p21.specs.Reader as spec;
ghost use Rattle.sn_p21.specs.Reader.{Steps, Gives, value_of};
ghost use Rattle.sn_p21.specs.declared.limits.TheConstants.{MAX_OPEN_LISTS};

use crate::fault::P21Fault;
use crate::file::{Bytes, Entities, Entity, Instance, Param, Params, Section, Sections};
use crate::grammar::fixed::{
    accepts, ends_header, is_keyword_named, names_header_entity, place_after,
};
use crate::grammar::list::{OpenList, Opening, empty_list, first_place, is_typed, list_param};
use crate::grammar::place::{Fixed, Owner, Place};
use crate::grammar::value::value_param;
use crate::instances::Instances;
use crate::limits::MAX_OPEN_LISTS;
use sn_lex::Token;
use sqlite_items::Items;
use std::alloc::Global;
use std::mem;

#[derive(Drop)]
pub struct Reader {
    pub place: Place,
    pub header: Entities,
    /// The sections that are read, and the one that is being read.
    pub sections: Sections,
    pub section: Section,
    pub instances: Instances,
    /// The number of the instance that is being read, and its parts so far.
    pub number: u32,
    pub parts: Entities,
    /// Where the entity that is being read will stand, and its keyword.
    pub owner: Owner,
    pub keyword: Bytes,
    /// The keyword of the typed parameter that comes next.
    pub typed: Bytes,
    /// The innermost list that is open, and those around it, the own list of the entity first.
    pub list: OpenList,
    pub outer: Items<OpenList>,
}

impl Reader {
    /// Before the first token.
    pub fn new(alloc: Global) -> Reader
        ensures { result ≡ spec.start }
    {
        Reader {
            place: Place::Fixed(Fixed::FileStart),
            header: Items::new(alloc),
            sections: Items::new(alloc),
            section: empty_section(),
            instances: Instances::new(alloc),
            number: 0,
            parts: Items::new(alloc),
            owner: Owner::Header,
            keyword: Items::new(alloc),
            typed: Items::new(alloc),
            list: empty_list(alloc, Opening::Plain),
            outer: Items::new(alloc),
        }
    }

    /// Whether the whole file was read.
    pub fn is_done(&self) -> bool
        ensures { IsTrue result ↔ spec.is_done self.now }
    {
        matches!(self.place, Place::Done)
    }

    /// Reads a token, whose text begins at that offset.
    pub fn take(
        &mut self,
        alloc: Global,
        token: Token,
        text: &[u8],
        at: usize,
    ) -> Result<(), P21Fault>
        ensures { Steps (spec.step MAX_OPEN_LISTS self.old token (value_of token text.now)) at result self.new }
    {
        match self.place {
            Place::Fixed(fixed) => self.fixed(fixed, token, text, at),
            Place::HeaderEntity => self.header_entity(alloc, token, text, at),
            Place::OwnList => self.own_list(alloc, token, at),
            Place::FirstParam => self.first_param(alloc, token, text, at),
            Place::NextParam => self.param(alloc, token, text, at),
            Place::AfterParam => self.after_param(alloc, token, at),
            Place::TypedList => self.typed_list(alloc, token, at),
            Place::Section => self.section(alloc, token, text, at),
            Place::NextSection => self.next_section(alloc, token, text, at),
            Place::SectionParams => self.section_params(alloc, token, at),
            Place::Instance => self.instance(token, text, at),
            Place::Body => self.body(alloc, token, text, at),
            Place::FirstPart => self.first_part(alloc, token, text, at),
            Place::NextPart => self.next_part(alloc, token, text, at),
            Place::Done => Err(P21Fault::Unexpected(at)),
        }
    }

    fn fixed(&mut self, fixed: Fixed, token: Token, text: &[u8], at: usize) -> Result<(), P21Fault>
        ensures { Steps (spec.step_fixed fixed self.old token (value_of token text.now)) at result self.new }
    {
        if !accepts(fixed, token, text) {
            return Err(P21Fault::Unexpected(at));
        }
        self.place = place_after(fixed);
        Ok(())
    }

    fn header_entity(
        &mut self,
        alloc: Global,
        token: Token,
        text: &[u8],
        at: usize,
    ) -> Result<(), P21Fault>
        ensures { Steps (spec.step_header_entity self.old token (value_of token text.now)) at result self.new }
    {
        let count = self.header.len();
        if ends_header(count, token, text) {
            self.place = Place::Fixed(Fixed::HeaderSectionEnd);
            return Ok(());
        }
        if !names_header_entity(count, token, text) {
            return Err(P21Fault::Unexpected(at));
        }
        self.start_entity(alloc, Owner::Header, text)
    }

    /// Keeps the keyword of an entity.
    fn start_entity(&mut self, alloc: Global, owner: Owner, name: &[u8]) -> Result<(), P21Fault>
        ensures { Gives result (self.new ≡ spec.starts_entity owner self.old name.now) }
    {
        self.keyword = Items::from_slice(alloc, name)?;
        self.owner = owner;
        self.place = Place::OwnList;
        Ok(())
    }

    fn own_list(&mut self, alloc: Global, token: Token, at: usize) -> Result<(), P21Fault>
        ensures { Steps (spec.step_own_list self.old token) at result self.new }
    {
        match token {
            Token::LeftParen => {
                self.list = empty_list(alloc, Opening::Plain);
                self.place = Place::FirstParam;
                Ok(())
            }
            _ => Err(P21Fault::Unexpected(at)),
        }
    }

    fn first_param(
        &mut self,
        alloc: Global,
        token: Token,
        text: &[u8],
        at: usize,
    ) -> Result<(), P21Fault>
        ensures { Steps (spec.step_first_param MAX_OPEN_LISTS self.old token (value_of token text.now)) at result self.new }
    {
        match token {
            Token::RightParen => self.close(alloc, at),
            _ => self.param(alloc, token, text, at),
        }
    }

    fn param(&mut self, alloc: Global, token: Token, text: &[u8], at: usize) -> Result<(), P21Fault>
        ensures { Steps (spec.step_param MAX_OPEN_LISTS self.old token (value_of token text.now)) at result self.new }
    {
        match token {
            Token::Keyword => {
                self.typed = Items::from_slice(alloc, text)?;
                self.place = Place::TypedList;
                Ok(())
            }
            Token::LeftParen => self.open(alloc, Opening::Plain, at),
            _ => match value_param(alloc, token, text)? {
                Some(param) => self.take_param(param),
                None => Err(P21Fault::Unexpected(at)),
            },
        }
    }

    /// Adds a parameter to the innermost list.
    fn take_param(&mut self, param: Param) -> Result<(), P21Fault>
        ensures { Gives result (self.new ≡ spec.takes_param self.old param) }
    {
        self.list.params.push(param)?;
        self.place = Place::AfterParam;
        Ok(())
    }

    /// Opens a list within the innermost one.
    fn open(&mut self, alloc: Global, opening: Opening, at: usize) -> Result<(), P21Fault>
        ensures { Steps (spec.opens MAX_OPEN_LISTS opening self.old) at result self.new }
    {
        if self.outer.len() >= MAX_OPEN_LISTS - 1 {
            return Err(P21Fault::TooDeep(at));
        }
        self.place = first_place(&opening);
        let around = mem::replace(&mut self.list, empty_list(alloc, opening));
        self.outer.push(around)?;
        Ok(())
    }

    fn typed_list(&mut self, alloc: Global, token: Token, at: usize) -> Result<(), P21Fault>
        ensures { Steps (spec.step_typed_list MAX_OPEN_LISTS self.old token) at result self.new }
    {
        match token {
            Token::LeftParen => {
                let keyword = mem::replace(&mut self.typed, Items::new(alloc));
                self.open(alloc, Opening::Typed(keyword), at)
            }
            _ => Err(P21Fault::Unexpected(at)),
        }
    }

    fn after_param(&mut self, alloc: Global, token: Token, at: usize) -> Result<(), P21Fault>
        ensures { Steps (spec.step_after_param self.old token) at result self.new }
    {
        match token {
            Token::Comma => {
                if is_typed(&self.list) {
                    return Err(P21Fault::Unexpected(at));
                }
                self.place = Place::NextParam;
                Ok(())
            }
            Token::RightParen => self.close(alloc, at),
            _ => Err(P21Fault::Unexpected(at)),
        }
    }

    /// Closes the innermost list.
    fn close(&mut self, alloc: Global, at: usize) -> Result<(), P21Fault>
        ensures { Steps (spec.closes self.old) at result self.new }
    {
        let list = mem::replace(&mut self.list, empty_list(alloc, Opening::Plain));
        match self.outer.pop() {
            Some(around) => {
                self.list = around;
                self.take_param(list_param(list))
            }
            None => self.take_entity(alloc, list.params, at),
        }
    }

    /// Ends the entity with this list.
    fn take_entity(&mut self, alloc: Global, params: Params, at: usize) -> Result<(), P21Fault>
        ensures { Steps (spec.takes_entity self.old.owner (record self.old { keyword = [] }) (record { keyword = self.old.keyword; params = params })) at result self.new }
    {
        let keyword = mem::replace(&mut self.keyword, Items::new(alloc));
        match self.owner {
            Owner::Header => {
                self.header.push(Entity { keyword, params })?;
                self.place = Place::Fixed(Fixed::HeaderEntityEnd);
                Ok(())
            }
            Owner::Section => {
                self.begin_section(Some(params), Place::Fixed(Fixed::SectionParamsEnd));
                Ok(())
            }
            Owner::Simple => {
                let mut parts = Items::from_vec(Vec::with_capacity(alloc, 1)?);
                parts.push(Entity { keyword, params })?;
                self.take_instance(parts, at)
            }
            Owner::Complex => {
                self.parts.push(Entity { keyword, params })?;
                self.place = Place::NextPart;
                Ok(())
            }
        }
    }

    /// Adds the instance that has these parts.
    fn take_instance(&mut self, parts: Entities, at: usize) -> Result<(), P21Fault>
        ensures { Steps (spec.takes_instance self.old parts) at result self.new }
    {
        let number = self.number;
        if !self.instances.push(Instance { number, parts })? {
            return Err(P21Fault::Twice(number, at));
        }
        // There are fewer numbers of instances than a count can hold, so this is never the fault.
        self.section.count = self.section.count.checked_add(1).ok_or(P21Fault::Memory)?;
        self.place = Place::Fixed(Fixed::InstanceEnd);
        Ok(())
    }

    fn section(
        &mut self,
        alloc: Global,
        token: Token,
        text: &[u8],
        at: usize,
    ) -> Result<(), P21Fault>
        ensures { Steps (spec.step_section self.old token (value_of token text.now)) at result self.new }
    {
        if !is_keyword_named(token, text, b"DATA") {
            return Err(P21Fault::Unexpected(at));
        }
        self.start_entity(alloc, Owner::Section, text)?;
        self.place = Place::SectionParams;
        Ok(())
    }

    fn next_section(
        &mut self,
        alloc: Global,
        token: Token,
        text: &[u8],
        at: usize,
    ) -> Result<(), P21Fault>
        ensures { Steps (spec.step_next_section self.old token (value_of token text.now)) at result self.new }
    {
        match token {
            Token::FileEnd => {
                self.place = Place::Fixed(Fixed::FileEndEnd);
                Ok(())
            }
            _ => self.section(alloc, token, text, at),
        }
    }

    fn section_params(&mut self, alloc: Global, token: Token, at: usize) -> Result<(), P21Fault>
        ensures { Steps (spec.step_section_params self.old token) at result self.new }
    {
        match token {
            Token::Semicolon => {
                self.keyword = Items::new(alloc);
                self.begin_section(None, Place::Instance);
                Ok(())
            }
            _ => self.own_list(alloc, token, at),
        }
    }

    /// A section of these parameters that has no instance yet.
    fn begin_section(&mut self, params: Option<Params>, place: Place)
        ensures { self.new ≡ spec.begins_section place params self.old }
    {
        self.section = Section { params, count: 0 };
        self.place = place;
    }

    fn instance(&mut self, token: Token, text: &[u8], at: usize) -> Result<(), P21Fault>
        ensures { Steps (spec.step_instance self.old token (value_of token text.now)) at result self.new }
    {
        match token {
            Token::Number(number) => {
                if self.instances.has(number) {
                    return Err(P21Fault::Twice(number, at));
                }
                self.number = number;
                self.place = Place::Fixed(Fixed::Equals);
                Ok(())
            }
            _ => {
                if !is_keyword_named(token, text, b"ENDSEC") {
                    return Err(P21Fault::Unexpected(at));
                }
                let section = mem::replace(&mut self.section, empty_section());
                self.sections.push(section)?;
                self.place = Place::Fixed(Fixed::DataSectionEnd);
                Ok(())
            }
        }
    }

    fn body(&mut self, alloc: Global, token: Token, text: &[u8], at: usize) -> Result<(), P21Fault>
        ensures { Steps (spec.step_body self.old token (value_of token text.now)) at result self.new }
    {
        match token {
            Token::Keyword => self.start_entity(alloc, Owner::Simple, text),
            Token::LeftParen => {
                self.place = Place::FirstPart;
                Ok(())
            }
            _ => Err(P21Fault::Unexpected(at)),
        }
    }

    fn first_part(
        &mut self,
        alloc: Global,
        token: Token,
        text: &[u8],
        at: usize,
    ) -> Result<(), P21Fault>
        ensures { Steps (spec.step_first_part self.old token (value_of token text.now)) at result self.new }
    {
        match token {
            Token::Keyword => self.start_entity(alloc, Owner::Complex, text),
            _ => Err(P21Fault::Unexpected(at)),
        }
    }

    fn next_part(
        &mut self,
        alloc: Global,
        token: Token,
        text: &[u8],
        at: usize,
    ) -> Result<(), P21Fault>
        ensures { Steps (spec.step_next_part self.old token (value_of token text.now)) at result self.new }
    {
        match token {
            Token::RightParen => {
                let parts = mem::replace(&mut self.parts, Items::new(alloc));
                self.take_instance(parts, at)
            }
            _ => self.first_part(alloc, token, text, at),
        }
    }
}

fn empty_section() -> Section
    ensures { result ≡ spec.empty_section }
{
    Section {
        params: None,
        count: 0,
    }
}
