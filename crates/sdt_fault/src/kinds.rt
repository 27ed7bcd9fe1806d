//! The kinds of defects, each with the word that a report shows for it.

ghost use Rattle.std.specs.Prelude.{◌≡◌};
ghost use Rattle.sdt_fault.specs.Kinds.{line_word, file_word, scatter_word, quantity_word, command_word, record_word};

/// What is wrong with a line of a source, in the order in which the kinds of one line are told.
#[derive(Clone, Copy)]
pub enum LineKind {
    /// The line has no form of the language.
    Syntax,
    /// An operation, a `$name` or a name that nothing defines.
    UnknownWord,
    /// A floating-point operation or directive.
    FloatingPoint,
    /// The form is right, but an operand, attribute, state or place is not allowed there.
    BadOperand,
    /// A number above 2^32 - 1, or an immediate operand that can't be encoded.
    Constant,
    /// A value that is not known yet where it is needed.
    Forward,
    /// A name that an earlier line defines, or a second ENTRY.
    DuplicateName,
    /// A value of a type that its place does not take.
    WrongType,
    /// A number, offset or distance outside its range.
    OutOfRange,
    /// An unpaired word of expansion.
    Nesting,
    /// A false ASSERT.
    Assert,
    /// A statement before the first AREA, or a source without one.
    NoArea,
    DivideByZero,
    /// Constructs open beyond the limit.
    TooDeep,
    /// More lines, bytes or visits than the limit.
    TooMany,
}

/// What is wrong with a file, at the offset that is told with it.
#[derive(Clone, Copy)]
pub enum FileKind {
    Truncated,
    Magic,
    Count,
    Offset,
    Size,
    Chunks,
    Short,
    Version,
    Strings,
    Name,
    Repeated,
    Attribute,
    Alignment,
    Type1,
    Index,
    Area,
    Value,
    Entry,
    Length,
    Compressed,
    Header,
    NotExecutable,
    Sizes,
    Mode,
    Map,
    FixedBase,
    Class,
    ElfType,
    Machine,
    Headers,
    Segment,
    Overlap,
}

/// What is wrong with a scatter description.
#[derive(Clone, Copy)]
pub enum ScatterKind {
    Syntax,
    Number,
    DuplicateName,
    Unaligned,
    Empty,
    TooMany,
}

/// A quantity with a limit.
#[derive(Clone, Copy)]
pub enum Quantity {
    SourceBytes,
    FileBytes,
    ImageBytes,
    AifBytes,
    Areas,
    Symbols,
    MemoryBytes,
}

/// What is wrong with a line of a debugger's script.
#[derive(Clone, Copy)]
pub enum CommandKind {
    Syntax,
    Number,
    NoDevice,
}

/// What is wrong with a record of an Intel HEX or S-record text.
#[derive(Clone, Copy)]
pub enum RecordKind {
    Syntax,
    Length,
    Sum,
    RecordType,
    Address,
    Repeated,
    Order,
}

impl LineKind {
    /// The word that a report shows.
    pub fn word(self) -> &'static str
        ensures { result.now ≡ line_word self }
    {
        match self {
            LineKind::Syntax => "Syntax",
            LineKind::UnknownWord => "UnknownWord",
            LineKind::FloatingPoint => "FloatingPoint",
            LineKind::BadOperand => "BadOperand",
            LineKind::Constant => "Constant",
            LineKind::Forward => "Forward",
            LineKind::DuplicateName => "DuplicateName",
            LineKind::WrongType => "WrongType",
            LineKind::OutOfRange => "OutOfRange",
            LineKind::Nesting => "Nesting",
            LineKind::Assert => "Assert",
            LineKind::NoArea => "NoArea",
            LineKind::DivideByZero => "DivideByZero",
            LineKind::TooDeep => "TooDeep",
            LineKind::TooMany => "TooMany",
        }
    }
}

impl FileKind {
    /// The word that a report shows.
    pub fn word(self) -> &'static str
        ensures { result.now ≡ file_word self }
    {
        match self {
            FileKind::Truncated => "Truncated",
            FileKind::Magic => "Magic",
            FileKind::Count => "Count",
            FileKind::Offset => "Offset",
            FileKind::Size => "Size",
            FileKind::Chunks => "Chunks",
            FileKind::Short => "Short",
            FileKind::Version => "Version",
            FileKind::Strings => "Strings",
            FileKind::Name => "Name",
            FileKind::Repeated => "Repeated",
            FileKind::Attribute => "Attribute",
            FileKind::Alignment => "Alignment",
            FileKind::Type1 => "Type1",
            FileKind::Index => "Index",
            FileKind::Area => "Area",
            FileKind::Value => "Value",
            FileKind::Entry => "Entry",
            FileKind::Length => "Length",
            FileKind::Compressed => "Compressed",
            FileKind::Header => "Header",
            FileKind::NotExecutable => "NotExecutable",
            FileKind::Sizes => "Sizes",
            FileKind::Mode => "Mode",
            FileKind::Map => "Map",
            FileKind::FixedBase => "FixedBase",
            FileKind::Class => "Class",
            FileKind::ElfType => "ElfType",
            FileKind::Machine => "Machine",
            FileKind::Headers => "Headers",
            FileKind::Segment => "Segment",
            FileKind::Overlap => "Overlap",
        }
    }
}

impl ScatterKind {
    /// The word that a report shows.
    pub fn word(self) -> &'static str
        ensures { result.now ≡ scatter_word self }
    {
        match self {
            ScatterKind::Syntax => "Syntax",
            ScatterKind::Number => "Number",
            ScatterKind::DuplicateName => "DuplicateName",
            ScatterKind::Unaligned => "Unaligned",
            ScatterKind::Empty => "Empty",
            ScatterKind::TooMany => "TooMany",
        }
    }
}

impl Quantity {
    /// The word that a report shows.
    pub fn word(self) -> &'static str
        ensures { result.now ≡ quantity_word self }
    {
        match self {
            Quantity::SourceBytes => "SourceBytes",
            Quantity::FileBytes => "FileBytes",
            Quantity::ImageBytes => "ImageBytes",
            Quantity::AifBytes => "AifBytes",
            Quantity::Areas => "Areas",
            Quantity::Symbols => "Symbols",
            Quantity::MemoryBytes => "MemoryBytes",
        }
    }
}

impl CommandKind {
    /// The word that a report shows.
    pub fn word(self) -> &'static str
        ensures { result.now ≡ command_word self }
    {
        match self {
            CommandKind::Syntax => "Syntax",
            CommandKind::Number => "Number",
            CommandKind::NoDevice => "NoDevice",
        }
    }
}

impl RecordKind {
    /// The word that a report shows.
    pub fn word(self) -> &'static str
        ensures { result.now ≡ record_word self }
    {
        match self {
            RecordKind::Syntax => "Syntax",
            RecordKind::Length => "Length",
            RecordKind::Sum => "Sum",
            RecordKind::RecordType => "RecordType",
            RecordKind::Address => "Address",
            RecordKind::Repeated => "Repeated",
            RecordKind::Order => "Order",
        }
    }
}
