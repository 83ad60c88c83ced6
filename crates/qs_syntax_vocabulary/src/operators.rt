// Operators (C11 6.5.2 to 6.5.16).
ghost use Rattle.std.specs.Prelude.{◌≡◌, ◌≤◌};
ghost use Rattle.qs_syntax_vocabulary.specs.Operators.{access_of, assign_of, binary_of, binary_row};
ghost use Rattle.qs_syntax_vocabulary.specs.Operators.{precedence, punctuator_of_access, punctuator_of_assign};
ghost use Rattle.qs_syntax_vocabulary.specs.Operators.{punctuator_of_binary, punctuator_of_step};
ghost use Rattle.qs_syntax_vocabulary.specs.Operators.{punctuator_of_unary, stands_before, step_row};
ghost use Rattle.qs_syntax_vocabulary.specs.Operators.{unary_of, weakest};

use crate::punctuator::Punctuator;

/// A unary operator (C11 6.5.3).
#[derive(Clone, Copy)]
pub enum UnaryOperator {
    /// `&`
    Address,
    /// `*`
    Indirect,
    /// `+`
    Plus,
    /// `-`
    Minus,
    /// `~`
    Complement,
    /// `!`
    Not,
}

const UNARY_OPERATORS: [UnaryOperator; 6] = [
    UnaryOperator::Address,
    UnaryOperator::Indirect,
    UnaryOperator::Plus,
    UnaryOperator::Minus,
    UnaryOperator::Complement,
    UnaryOperator::Not,
];

impl UnaryOperator {
    /// Its punctuator.
    pub fn punctuator(self) -> Punctuator
        ensures { result ≡ punctuator_of_unary self }
    {
        match self {
            UnaryOperator::Address => Punctuator::Ampersand,
            UnaryOperator::Indirect => Punctuator::Star,
            UnaryOperator::Plus => Punctuator::Plus,
            UnaryOperator::Minus => Punctuator::Minus,
            UnaryOperator::Complement => Punctuator::Tilde,
            UnaryOperator::Not => Punctuator::Exclamation,
        }
    }

    /// The unary operator that the punctuator is, if any.
    pub fn of(punctuator: Punctuator) -> Option<UnaryOperator>
        ensures { result ≡ unary_of punctuator }
    {
        UNARY_OPERATORS
            .iter()
            .copied()
            .find(|operator| operator.punctuator() == punctuator)
    }
}

/// An operator that steps by one, and where it stands (C11 6.5.2.4, 6.5.3.1).
#[derive(Clone, Copy)]
pub enum StepOperator {
    /// `++a`
    IncrementBefore,
    /// `--a`
    DecrementBefore,
    /// `a++`
    IncrementAfter,
    /// `a--`
    DecrementAfter,
}

impl StepOperator {
    /// Its punctuator, and whether it stands before its operand.
    fn row(self) -> (Punctuator, bool)
        ensures { result ≡ step_row self }
    {
        match self {
            StepOperator::IncrementBefore => (Punctuator::Increment, true),
            StepOperator::DecrementBefore => (Punctuator::Decrement, true),
            StepOperator::IncrementAfter => (Punctuator::Increment, false),
            StepOperator::DecrementAfter => (Punctuator::Decrement, false),
        }
    }

    /// Its punctuator.
    pub fn punctuator(self) -> Punctuator
        ensures { result ≡ punctuator_of_step self }
    {
        self.row().0
    }

    /// Whether it stands before its operand.
    pub fn stands_before(self) -> bool
        ensures { result ≡ stands_before self }
    {
        self.row().1
    }
}

/// An operator between two operands that groups to the left (C11 6.5.5 to 6.5.14).
#[derive(Clone, Copy)]
pub enum BinaryOperator {
    /// `*`
    Multiply,
    /// `/`
    Divide,
    /// `%`
    Remainder,
    /// `+`
    Add,
    /// `-`
    Subtract,
    /// `<<`
    ShiftLeft,
    /// `>>`
    ShiftRight,
    /// `<`
    Less,
    /// `<=`
    LessEqual,
    /// `>`
    Greater,
    /// `>=`
    GreaterEqual,
    /// `==`
    Equal,
    /// `!=`
    NotEqual,
    /// `&`
    BitAnd,
    /// `^`
    BitXor,
    /// `|`
    BitOr,
    /// `&&`
    And,
    /// `||`
    Or,
}

const BINARY_OPERATORS: [BinaryOperator; 18] = [
    BinaryOperator::Multiply,
    BinaryOperator::Divide,
    BinaryOperator::Remainder,
    BinaryOperator::Add,
    BinaryOperator::Subtract,
    BinaryOperator::ShiftLeft,
    BinaryOperator::ShiftRight,
    BinaryOperator::Less,
    BinaryOperator::LessEqual,
    BinaryOperator::Greater,
    BinaryOperator::GreaterEqual,
    BinaryOperator::Equal,
    BinaryOperator::NotEqual,
    BinaryOperator::BitAnd,
    BinaryOperator::BitXor,
    BinaryOperator::BitOr,
    BinaryOperator::And,
    BinaryOperator::Or,
];

/// The precedence of `||`.
pub const WEAKEST: u32 = 10;

/// The precedence of a conditional expression (C11 6.5.15).
pub const CONDITIONAL_PRECEDENCE: u32 = 11;

/// The precedence of an assignment (C11 6.5.16).
pub const ASSIGNMENT_PRECEDENCE: u32 = 12;

/// The precedence of a comma (C11 6.5.17).
pub const COMMA_PRECEDENCE: u32 = 13;

impl BinaryOperator {
    /// Its punctuator and its precedence.
    fn row(self) -> (Punctuator, u32)
        ensures is { result ≡ binary_row self }
        ensures most { result.1 ≤ weakest }
    {
        match self {
            BinaryOperator::Multiply => (Punctuator::Star, 1),
            BinaryOperator::Divide => (Punctuator::Slash, 1),
            BinaryOperator::Remainder => (Punctuator::Percent, 1),
            BinaryOperator::Add => (Punctuator::Plus, 2),
            BinaryOperator::Subtract => (Punctuator::Minus, 2),
            BinaryOperator::ShiftLeft => (Punctuator::ShiftLeft, 3),
            BinaryOperator::ShiftRight => (Punctuator::ShiftRight, 3),
            BinaryOperator::Less => (Punctuator::Less, 4),
            BinaryOperator::LessEqual => (Punctuator::LessEqual, 4),
            BinaryOperator::Greater => (Punctuator::Greater, 4),
            BinaryOperator::GreaterEqual => (Punctuator::GreaterEqual, 4),
            BinaryOperator::Equal => (Punctuator::Equal, 5),
            BinaryOperator::NotEqual => (Punctuator::NotEqual, 5),
            BinaryOperator::BitAnd => (Punctuator::Ampersand, 6),
            BinaryOperator::BitXor => (Punctuator::Caret, 7),
            BinaryOperator::BitOr => (Punctuator::Bar, 8),
            BinaryOperator::And => (Punctuator::AndAnd, 9),
            BinaryOperator::Or => (Punctuator::OrOr, WEAKEST),
        }
    }

    /// Its punctuator.
    pub fn punctuator(self) -> Punctuator
        ensures { result ≡ punctuator_of_binary self }
    {
        self.row().0
    }

    /// Its precedence, from 1 for `* / %`, which bind most strongly, to the weakest for `||`.
    pub fn precedence(self) -> u32
        ensures is { result ≡ precedence self }
        ensures most { result ≤ weakest }
    {
        self.row().1
    }

    /// The operator between two operands that the punctuator is, if any.
    pub fn of(punctuator: Punctuator) -> Option<BinaryOperator>
        ensures { result ≡ binary_of punctuator }
    {
        BINARY_OPERATORS
            .iter()
            .copied()
            .find(|operator| operator.punctuator() == punctuator)
    }
}

/// An assignment operator (C11 6.5.16).
#[derive(Clone, Copy)]
pub enum AssignmentOperator {
    /// `=`
    Plain,
    /// `*=`
    Multiply,
    /// `/=`
    Divide,
    /// `%=`
    Remainder,
    /// `+=`
    Add,
    /// `-=`
    Subtract,
    /// `<<=`
    ShiftLeft,
    /// `>>=`
    ShiftRight,
    /// `&=`
    BitAnd,
    /// `^=`
    BitXor,
    /// `|=`
    BitOr,
}

const ASSIGNMENT_OPERATORS: [AssignmentOperator; 11] = [
    AssignmentOperator::Plain,
    AssignmentOperator::Multiply,
    AssignmentOperator::Divide,
    AssignmentOperator::Remainder,
    AssignmentOperator::Add,
    AssignmentOperator::Subtract,
    AssignmentOperator::ShiftLeft,
    AssignmentOperator::ShiftRight,
    AssignmentOperator::BitAnd,
    AssignmentOperator::BitXor,
    AssignmentOperator::BitOr,
];

impl AssignmentOperator {
    /// Its punctuator.
    pub fn punctuator(self) -> Punctuator
        ensures { result ≡ punctuator_of_assign self }
    {
        match self {
            AssignmentOperator::Plain => Punctuator::Assign,
            AssignmentOperator::Multiply => Punctuator::MultiplyAssign,
            AssignmentOperator::Divide => Punctuator::DivideAssign,
            AssignmentOperator::Remainder => Punctuator::RemainderAssign,
            AssignmentOperator::Add => Punctuator::AddAssign,
            AssignmentOperator::Subtract => Punctuator::SubtractAssign,
            AssignmentOperator::ShiftLeft => Punctuator::ShiftLeftAssign,
            AssignmentOperator::ShiftRight => Punctuator::ShiftRightAssign,
            AssignmentOperator::BitAnd => Punctuator::AndAssign,
            AssignmentOperator::BitXor => Punctuator::XorAssign,
            AssignmentOperator::BitOr => Punctuator::OrAssign,
        }
    }

    /// The assignment that the punctuator is, if any.
    pub fn of(punctuator: Punctuator) -> Option<AssignmentOperator>
        ensures { result ≡ assign_of punctuator }
    {
        ASSIGNMENT_OPERATORS
            .iter()
            .copied()
            .find(|operator| operator.punctuator() == punctuator)
    }
}

/// How a member is reached (C11 6.5.2.3).
#[derive(Clone, Copy)]
pub enum Access {
    /// `.`, in a struct
    Dot,
    /// `->`, in the struct that a pointer leads to
    Arrow,
}

const ACCESS_OPERATORS: [Access; 2] = [Access::Dot, Access::Arrow];

impl Access {
    /// The punctuator before the member.
    pub fn punctuator(self) -> Punctuator
        ensures { result ≡ punctuator_of_access self }
    {
        match self {
            Access::Dot => Punctuator::Dot,
            Access::Arrow => Punctuator::Arrow,
        }
    }

    /// How a member is reached by the punctuator, if at all.
    pub fn of(punctuator: Punctuator) -> Option<Access>
        ensures { result ≡ access_of punctuator }
    {
        ACCESS_OPERATORS
            .iter()
            .copied()
            .find(|access| access.punctuator() == punctuator)
    }
}
