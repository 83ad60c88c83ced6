// What the lines tell.
use qs_base::{Name, Pos};
use qs_entail::Limit;
use qs_image::ImageFault;
use qs_lexer::FaultKind;
use qs_machine::Cause;
use qs_types::{LimitKind, Rule};

/// A bound, on the stack in bytes or on the number of calls.
#[derive(Clone, Copy)]
pub enum Shown {
    /// So much.
    Number(u128),
    /// No number.
    Infinite,
    /// A number that is too large to be computed.
    Wide,
}

/// How much was done.
#[derive(Clone, Copy)]
pub enum Count {
    /// Functions with an entry in the proof file, and functions whose entry was filled in.
    Checked(usize, usize),
    /// Functions whose entry was filled in.
    Derived(usize),
    /// Functions of a sample.
    Functions(u32),
    /// Bytes that a sample put.
    Output(u64),
}

/// The way from a root to a node: the numbers of the parts, from 0.
#[derive(Debug, Drop)]
pub struct Path {
    pub steps: Vec<usize>,
}

/// A place in a derivation.
#[derive(Debug, Drop)]
pub enum Spot {
    /// The precondition.
    Pre,
    /// The postcondition.
    Post,
    /// A node of the certificate at the entry.
    Entry(Path),
    /// A node of the body.
    Body(Path),
    /// A node of the certificate at a node of the body: the path of that node, then that within the
    /// certificate.
    BodyCert(Path, Path),
}

/// What is wrong at a place of a derivation.
#[derive(Debug, Drop)]
pub enum ProofText {
    /// The node doesn't fit its statement.
    Shape,
    /// This variable, as a proof file writes it, can't be mentioned there.
    Mentions(Name),
    /// The side condition of this rule fails.
    Step(qs_entail::Rule),
    /// A polynomial passes this limit.
    Limit(Limit),
}

/// What is wrong with the text of a proof file.
#[derive(Clone, Copy)]
pub enum ProofFileText {
    /// A byte begins nothing, or does not fit its symbol.
    BadByte,
    /// A `)` closes no list, or the text ends in a list.
    Unbalanced,
    /// A list or atom has no meaning in its place.
    UnknownForm,
    /// An atom is no number from -2^63 to 2^63 - 1.
    BadNumber,
    /// A list stands in too many lists.
    TooDeep,
    /// A name is defined twice or is that of an open function, or a function has two lists.
    Duplicate,
    /// A function that is named has no body.
    NoSuchFunction,
}

/// What is wrong with the bytes of an executable.
#[derive(Clone, Copy)]
pub enum ElfText {
    /// They are too few.
    Short,
    /// They aren't as many as this.
    Length(u64),
    /// The byte at this offset isn't the one that has to stand there.
    Field(u64),
    /// What they carry is no image.
    Image(ImageFault),
    /// The word of this number, among those that the image says too, isn't the image's.
    Differs(u32),
}

/// A fault, as its line tells it.
#[derive(Drop)]
pub enum FaultText {
    /// The words mean no command.
    Usage,
    /// The file to write is a file to read.
    SameName,
    /// There is no such file.
    Missing,
    /// A call on the file failed.
    Failed,
    /// The file has more bytes than its limit.
    TooLong,
    /// The bytes of the source are wrong here.
    Lex(Pos, FaultKind),
    /// A token can't stand here.
    UnexpectedToken(Pos),
    /// The source can't end here.
    UnexpectedEnd(Pos),
    /// The source is too high here.
    TooDeep(Pos),
    /// This typing rule is violated.
    Rule(Pos, Rule),
    /// A count passes its limit here.
    Limit(Pos, LimitKind),
    /// No function `main` has a body.
    NoMain,
    /// A function that is called has no body.
    NoBody(Pos),
    /// The text of the proof file is wrong here.
    ProofFile(Pos, ProofFileText),
    /// These functions without a derivation call each other in this order, the last one the first.
    Cycle(Vec<Name>),
    /// A derivation is wrong at this place.
    Proof(Spot, ProofText),
    /// A function has no entry in the proof file.
    NoEntry,
    /// A definition mentions a name that isn't defined earlier.
    Order,
    /// The arguments that `main` expects, and those that were given.
    ArgCount(u32, u32),
    /// The argument of this number, from 0, is no value of its type.
    ArgRange(u32),
    /// The bytes of the image are wrong.
    Image(ImageFault),
    /// The bytes of the executable are wrong.
    Elf(ElfText),
    /// A step was not taken, for this cause; the pc is that of the instruction.
    Trapped(Cause, u32),
    /// The program goes on after so many steps.
    StepLimit(u64),
    /// There is no stack for this bound.
    NoBound(Shown),
    /// A stack of so many bytes is too large.
    StackTooLarge(u64),
    /// No memory was found.
    NoMemory,
}
