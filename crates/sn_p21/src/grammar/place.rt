//! The places between the tokens of a part text.

/// What may stand next.
#[derive(Clone, Copy, Debug)]
pub enum Place {
    /// One word alone.
    Fixed(Fixed),
    /// The keyword of a header entity or, behind the three named ones, the end of the header.
    HeaderEntity,
    /// The list of an entity, behind its keyword.
    OwnList,
    /// The first parameter of a list, or the end of the list.
    FirstParam,
    /// A parameter.
    NextParam,
    /// Behind a parameter: a comma, or the end of the list.
    AfterParam,
    /// The list of a typed parameter, behind its keyword.
    TypedList,
    /// The DATA of the first section.
    Section,
    /// Behind a section: the DATA of one more, or the end of the file.
    NextSection,
    /// Behind DATA: the list of the section, or the semicolon.
    SectionParams,
    /// The number of an instance, or the end of the section.
    Instance,
    /// Behind the equals sign of an instance: its one part, or several between parentheses.
    Body,
    /// The first part between parentheses.
    FirstPart,
    /// A further part, or the closing parenthesis.
    NextPart,
    /// Nothing.
    Done,
}

/// A place at which one word alone may stand, by that word.
#[derive(Clone, Copy, Debug)]
pub enum Fixed {
    FileStart,
    FileStartEnd,
    Header,
    HeaderEnd,
    HeaderEntityEnd,
    HeaderSectionEnd,
    SectionParamsEnd,
    Equals,
    InstanceEnd,
    DataSectionEnd,
    FileEndEnd,
}

/// Where the entity that is being read will stand. The DATA of a section and its list are read as an entity.
#[derive(Clone, Copy, Debug)]
pub enum Owner {
    Header,
    Section,
    Simple,
    Complex,
}
