// Expressions of the typed tree (C11 6.5), lvalues, and effects.

ghost use Rattle.std.specs.Prelude.{◌≡◌, IfOk, Some};
ghost use Rattle.qs_meaning.specs.Forms.{address_in, place_of, value_in};
ghost use Rattle.qs_types.specs.TypeOf.{type_tree};
ghost use Rattle.qs_typed_trees.specs.TreeOf.{expression_tree, lvalue_tree};

use crate::scalars::scalar_of;
use qs_base::NoMemory;
use qs_calls::Callee;
use qs_memory::{BinaryOperation, Blank, Scalar, UnaryOperation};
use qs_types::CType;

/// What happens to a value before it is used (C11 6.3.1, 6.3.2.3).
#[derive(Clone, Copy)]
pub enum Conversion {
    /// nothing
    Unchanged,
    /// a value of the first type becomes one of the second
    Converted(Scalar, Scalar),
}

/// Whether an operation takes its operands as they are written, or a pointer that stands on the
/// right first (C11 6.5.6p2).
#[derive(Clone, Copy)]
pub enum Order {
    /// the left operand is the first
    AsWritten,
    /// the right operand is the first; the left one is evaluated first all the same
    Exchanged,
}

/// The object that a name or a text stands for.
#[derive(Clone, Copy)]
pub enum Object {
    /// a placed local or parameter, by its place among those of the function
    Local(u32),
    /// a file-scope variable, by its place among those of the unit, or a text, behind these
    Static(u32),
}

/// An expression with a scalar value. An array or a struct in a value's place is a pointer to its
/// first byte (C11 6.3.2.1p3), and `&` leaves no trace.
#[cycle(expression)]
pub enum Expression {
    /// a literal or a size, as its 32 bits (C11 6.4.4, 6.5.3.4)
    Constant(Scalar, u32),
    /// the value of this type that an lvalue has (C11 6.3.2.1p2)
    Value(Scalar, Lvalue),
    /// the address of an object (C11 6.5.1, 6.5.3.2p3)
    PointerTo(Object),
    /// the address of the member at this offset, from that of the struct (C11 6.5.2.3)
    Member(u32, Box<Expression>),
    /// a call whose result, of this type, is used (C11 6.5.2.2p5)
    Called(Scalar, Callee, Vec<Argument>),
    /// a step by 1 behind its operand: the value before the step (C11 6.5.2.4)
    SteppedAfter {
        /// the lvalue's type
        scalar: Scalar,
        /// what is stepped
        lvalue: Lvalue,
        /// the operation that takes its value and 1
        operation: BinaryOperation,
        /// what happens to its value before
        operand: Conversion,
        /// what happens to the operation's value before it is written
        back: Conversion,
    },
    /// an operation on a value (C11 6.5.3.3)
    Unary(UnaryOperation, Conversion, Box<Expression>),
    /// a cast (C11 6.5.4)
    Cast(Conversion, Box<Expression>),
    /// an operation on two values (C11 6.5.5 to 6.5.12)
    Binary {
        /// the operation
        operation: BinaryOperation,
        /// which operand it takes first
        order: Order,
        /// what happens to the left operand before
        before_left: Conversion,
        /// what happens to the right operand before
        before_right: Conversion,
        /// the left operand, which is evaluated first
        left: Box<Expression>,
        /// the right operand
        right: Box<Expression>,
    },
    /// `&&` (C11 6.5.13)
    LogicalAnd(Box<Expression>, Box<Expression>),
    /// `||` (C11 6.5.14)
    LogicalOr(Box<Expression>, Box<Expression>),
    /// `?:` (C11 6.5.15)
    Conditional {
        /// the type of the result
        scalar: Scalar,
        /// the operand before `?`
        condition: Box<Expression>,
        /// what happens to the operand between `?` and `:`
        before_then: Conversion,
        /// what happens to the operand behind `:`
        before_otherwise: Conversion,
        /// the operand between `?` and `:`
        then: Box<Expression>,
        /// the operand behind `:`
        otherwise: Box<Expression>,
    },
    /// the value that was assigned (C11 6.5.16p3)
    Assigned(Box<Assignment>),
    /// an effect, and then a value (C11 6.5.17)
    Sequence(Box<Effect>, Box<Expression>),
}

/// An lvalue (C11 6.3.2.1p1).
#[cycle(expression)]
pub enum Lvalue {
    /// a plain variable, by its number among those of the function
    Variable(u32),
    /// an object in memory, by its address
    Object(Box<Expression>),
}

/// An argument, and what happens to it before the call (C11 6.5.2.2p4, p7).
#[cycle(expression)]
pub struct Argument {
    /// what happens to its value before
    pub conversion: Conversion,
    /// the expression
    pub value: Expression,
}

/// An assignment of a scalar (C11 6.5.16).
#[cycle(expression)]
pub enum Assignment {
    /// `=`: the value is converted to the type of the lvalue (C11 6.5.16.1p2)
    Set {
        /// the lvalue's type
        scalar: Scalar,
        /// what is assigned to
        lvalue: Lvalue,
        /// what happens to the value before
        conversion: Conversion,
        /// the value
        value: Expression,
    },
    /// a compound assignment, and a step before its operand (C11 6.5.16.2p3, 6.5.3.1p2)
    Update {
        /// the lvalue's type
        scalar: Scalar,
        /// what is assigned to
        lvalue: Lvalue,
        /// the operation that takes its value and the other
        operation: BinaryOperation,
        /// what happens to its value before
        before_left: Conversion,
        /// what happens to the other value before
        before_right: Conversion,
        /// what happens to the operation's value before it is written
        back: Conversion,
        /// the other value
        value: Expression,
    },
}

/// An expression whose value is discarded (C11 6.8.3p2, 6.5.17p2), or what a declaration does
/// (6.7.9).
#[cycle(expression)]
pub enum Effect {
    /// nothing
    Nothing,
    /// a value that is discarded
    Discard(Expression),
    /// an assignment
    Assign(Assignment),
    /// a call whose result, if any, is discarded
    Perform(Callee, Vec<Argument>),
    /// a struct is copied, or the bytes of a text (C11 6.5.16.1p2, 6.7.9p14)
    Copy {
        /// how many bytes
        size: u32,
        /// how they are aligned
        alignment: u32,
        /// the address to which
        to: Expression,
        /// the address from which
        from: Expression,
    },
    /// an object before the expressions of its list (C11 6.7.9p19, p21), by its address
    Fill(Blank, Expression),
    /// one, and then the other
    InOrder(Box<Effect>, Box<Effect>),
    /// each in order, and then nothing: the variables of a declaration, the expressions of a list
    Each(Vec<Effect>),
}

// ---- lvalues

impl Lvalue {
    /// The address where there is one.
    fn into_place(self, t: &CType) -> Expression
        ensures { expression_tree result ≡ place_of (type_tree t.now) (lvalue_tree self) }
    {
        match self {
            Lvalue::Variable(x) => Expression::Value(scalar_of(t), Lvalue::Variable(x)),
            Lvalue::Object(address) => Box::into_inner(address),
        }
    }

    /// An lvalue turns into the value that it has, one of an array into a pointer to its first
    /// element; a struct stands as its address (C11 6.3.2.1p2, p3).
    pub fn into_value(self, t: &CType) -> Expression
        ensures { expression_tree result ≡ value_in (type_tree t.now) (lvalue_tree self) }
    {
        match t {
            CType::Int => Expression::Value(scalar_of(t), self),
            CType::Unsigned => Expression::Value(scalar_of(t), self),
            CType::Char => Expression::Value(scalar_of(t), self),
            CType::Void => self.into_place(t),
            CType::Pointer(_) => Expression::Value(scalar_of(t), self),
            CType::Array(_, _) => self.into_place(t),
            CType::Struct(_) => self.into_place(t),
        }
    }

    /// The address of the object that it is.
    pub fn into_address(self) -> Result<Expression, NoMemory>
        ensures { IfOk result (λ e. address_in (lvalue_tree self) ≡ Some (expression_tree e)) }
    {
        match self {
            Lvalue::Variable(_) => Err(NoMemory),
            Lvalue::Object(address) => Ok(Box::into_inner(address)),
        }
    }
}

// ---- how trees are dropped
// By hand, since a derived drop of a tree stands with all its cases at each place where a tree may
// be dropped.

impl Drop for Expression {
    #[cycle(drop_expression)]
    fn drop(self) {
        match self {
            Expression::Constant(_, _) => {}
            Expression::Value(_, _) => {}
            Expression::PointerTo(_) => {}
            Expression::Member(_, _) => {}
            Expression::Called(_, _, _) => {}
            Expression::SteppedAfter {
                scalar: _,
                lvalue: _,
                operation: _,
                operand: _,
                back: _,
            } => {}
            Expression::Unary(_, _, _) => {}
            Expression::Cast(_, _) => {}
            Expression::Binary {
                operation: _,
                order: _,
                before_left: _,
                before_right: _,
                left: _,
                right: _,
            } => {}
            Expression::LogicalAnd(_, _) => {}
            Expression::LogicalOr(_, _) => {}
            Expression::Conditional {
                scalar: _,
                condition: _,
                before_then: _,
                before_otherwise: _,
                then: _,
                otherwise: _,
            } => {}
            Expression::Assigned(_) => {}
            Expression::Sequence(_, _) => {}
        }
    }
}

impl Drop for Lvalue {
    #[cycle(drop_expression)]
    fn drop(self) {
        match self {
            Lvalue::Variable(_) => {}
            Lvalue::Object(_) => {}
        }
    }
}

impl Drop for Argument {
    #[cycle(drop_expression)]
    fn drop(self) {
        let Argument {
            conversion: _,
            value: _,
        } = self;
    }
}

impl Drop for Assignment {
    #[cycle(drop_expression)]
    fn drop(self) {
        match self {
            Assignment::Set {
                scalar: _,
                lvalue: _,
                conversion: _,
                value: _,
            } => {}
            Assignment::Update {
                scalar: _,
                lvalue: _,
                operation: _,
                before_left: _,
                before_right: _,
                back: _,
                value: _,
            } => {}
        }
    }
}

impl Drop for Effect {
    #[cycle(drop_expression)]
    fn drop(self) {
        match self {
            Effect::Nothing => {}
            Effect::Discard(_) => {}
            Effect::Assign(_) => {}
            Effect::Perform(_, _) => {}
            Effect::Copy {
                size: _,
                alignment: _,
                to: _,
                from: _,
            } => {}
            Effect::Fill(_, _) => {}
            Effect::InOrder(_, _) => {}
            Effect::Each(_) => {}
        }
    }
}
