// The typing rules.
ghost use Rattle.std.specs.Prelude.{◌≡◌};
ghost use Rattle.qs_types.specs.Rules.{rule_number};

/// A rule that a program keeps, in the order of their numbers.
#[derive(Clone, Copy, Debug)]
pub enum Rule {
    /// In one scope a name is declared once, a type name again only by `typedef` (C11 6.7p3).
    DeclaredTwice,
    /// A name that is used is a variable or parameter that was declared before and is in scope
    /// (6.5.1).
    UnknownVariable,
    /// A called name is a function that was declared before and that no variable hides (6.5.2.2).
    UnknownFunction,
    /// A call has as many arguments as the function has parameters (6.5.2.2p2).
    ArgumentCount,
    /// Each argument is assignable to its parameter (6.5.2.2p2).
    ArgumentType,
    /// A struct tag was declared before, is being defined, or is first named in a `typedef`, and it
    /// is defined once (6.7.2.3).
    UnknownTag,
    /// `void` is only a result without stars; objects have complete types (6.7p7, 6.7.2.1p3,
    /// 6.5.3.4p1).
    IncompleteType,
    /// The members of a struct have different names (6.7.2.1).
    MemberTwice,
    /// An array length is a constant expression of value 1 or more (6.7.6.2).
    ArrayLength,
    /// No type is larger than 16,777,216 bytes.
    LargeType,
    /// Parameters are scalars, and have names where there is a body; a result is a scalar or void
    /// (6.9.1p5).
    SignatureType,
    /// `main` returns `int` and takes only `int` and `unsigned` (5.1.2.2.1).
    MainType,
    /// Operands of unary `+ - ~` are integers, that of `!` is a scalar (6.5.3.3p1).
    ArithmeticOperand,
    /// The operand of unary `*` is a pointer to an object (6.5.3.2p2).
    IndirectOperand,
    /// The operand of `&` is an lvalue (6.5.3.2p1).
    AddressOperand,
    /// The operand of `++` and `--` is an lvalue, an integer or a pointer to an object (6.5.2.4,
    /// 6.5.3.1).
    StepOperand,
    /// Operands of `* / % & ^ | << >>` are integers (6.5.5, 6.5.7, 6.5.10 to 6.5.12).
    IntegerOperands,
    /// Operands of `+` and `-` are integers, or pointers to objects where they may be (6.5.6p2,
    /// p3).
    SumOperands,
    /// Operands of `< <= > >=` are two integers or two pointers of one type (6.5.8p2).
    OrderOperands,
    /// Operands of `== !=` are two integers, two pointers of one type, or a pointer and a null
    /// constant (6.5.9p2).
    EqualityOperands,
    /// Operands of `&&` and `||`, and conditions of statements, are scalars (6.5.13, 6.5.14,
    /// 6.8.4.1, 6.8.5).
    TruthOperand,
    /// `?:` has a scalar before `?`, and branches of one kind (6.5.15).
    BranchTypes,
    /// Left of `=` stands an lvalue that is no array, right of it what is assignable to it
    /// (6.5.16.1).
    AssignedType,
    /// A compound assignment has an lvalue on its left and the operands of its operator (6.5.16.2).
    CompoundOperands,
    /// `.` has an lvalue of a struct type, `->` a pointer to a complete struct, each with that
    /// member (6.5.2.3).
    UnknownMember,
    /// A cast goes between integers, between pointers, or from a null constant to a pointer
    /// (6.5.4).
    CastType,
    /// `return` has an assignable expression where the result isn't void, and none where it is
    /// (6.8.6.4).
    ReturnedType,
    /// `break` stands in a loop or a switch, `continue` in a loop (6.8.6.2, 6.8.6.3).
    MisplacedJump,
    /// A void call and an assignment of a struct stand only where the value is discarded, another
    /// struct where it may.
    MisplacedValue,
    /// An initialiser fits (6.7.9).
    InitialiserType,
    /// A type name that is declared again gets the same type (6.7p3).
    RenamedType,
    /// The operand of `switch` is an integer, the expression of each `case` a constant expression
    /// of integer type (6.8.4.2p1, p3).
    SwitchType,
    /// The values of the `case`s of a switch, converted to the promoted type of its operand, differ,
    /// and it has at most one `default` (6.8.4.2p3).
    LabelTwice,
}

impl Rule {
    /// The number that the tool prints, from 1.
    pub fn number(self) -> u32
        ensures { result ≡ rule_number self }
    {
        match self {
            Rule::DeclaredTwice => 1,
            Rule::UnknownVariable => 2,
            Rule::UnknownFunction => 3,
            Rule::ArgumentCount => 4,
            Rule::ArgumentType => 5,
            Rule::UnknownTag => 6,
            Rule::IncompleteType => 7,
            Rule::MemberTwice => 8,
            Rule::ArrayLength => 9,
            Rule::LargeType => 10,
            Rule::SignatureType => 11,
            Rule::MainType => 12,
            Rule::ArithmeticOperand => 13,
            Rule::IndirectOperand => 14,
            Rule::AddressOperand => 15,
            Rule::StepOperand => 16,
            Rule::IntegerOperands => 17,
            Rule::SumOperands => 18,
            Rule::OrderOperands => 19,
            Rule::EqualityOperands => 20,
            Rule::TruthOperand => 21,
            Rule::BranchTypes => 22,
            Rule::AssignedType => 23,
            Rule::CompoundOperands => 24,
            Rule::UnknownMember => 25,
            Rule::CastType => 26,
            Rule::ReturnedType => 27,
            Rule::MisplacedJump => 28,
            Rule::MisplacedValue => 29,
            Rule::InitialiserType => 30,
            Rule::RenamedType => 31,
            Rule::SwitchType => 32,
            Rule::LabelTwice => 33,
        }
    }
}
