// Where expressions stand.
ghost use Rattle.std.specs.Prelude.{◌≡◌};
ghost use Rattle.qs_syntax.specs.TreeOf.{shape_tree};
ghost use Rattle.qs_types.specs.ExpressionFaults.{is_discarded, is_whole, operand_position};
ghost use Rattle.qs_types.specs.ExpressionFaults.{assigned_position, object_position};
ghost use Rattle.qs_types.specs.ExpressionFaults.{right_position, is_call, is_assignment};
ghost use Rattle.qs_types.specs.ExpressionFaults.{is_misplaced};
ghost use Rattle.qs_types.specs.TypeOf.{type_tree};
ghost use Rattle.qs_typing_findings.specs.PositionOf.{position_tree};

use qs_syntax::Shape;
use qs_syntax_vocabulary::{Access, AssignmentOperator, UnaryOperator};
use qs_types::{CType, is_struct, is_void};

/// Where an expression stands.
#[derive(Clone, Copy)]
pub enum Position {
    /// Its value is used.
    Used,
    /// Its value is discarded.
    Discarded,
    /// It is the operand of `.`, `&`, `sizeof` or `=`, or an initialiser, where a struct may stand.
    Whole,
}

fn is_discarded(p: Position) -> bool
    ensures { result ≡ is_discarded (position_tree p) }
{
    match p {
        Position::Used => false,
        Position::Discarded => true,
        Position::Whole => false,
    }
}

fn is_whole(p: Position) -> bool
    ensures { result ≡ is_whole (position_tree p) }
{
    match p {
        Position::Used => false,
        Position::Discarded => false,
        Position::Whole => true,
    }
}

/// The position of the operand of a unary operator.
pub fn operand_position(operator: UnaryOperator) -> Position
    ensures { position_tree result ≡ operand_position operator }
{
    match operator {
        UnaryOperator::Address => Position::Whole,
        UnaryOperator::Indirect => Position::Used,
        UnaryOperator::Plus => Position::Used,
        UnaryOperator::Minus => Position::Used,
        UnaryOperator::Complement => Position::Used,
        UnaryOperator::Not => Position::Used,
    }
}

/// The position of the operands of an assignment.
pub fn assigned_position(operator: AssignmentOperator) -> Position
    ensures { position_tree result ≡ assigned_position operator }
{
    match operator {
        AssignmentOperator::Plain => Position::Whole,
        AssignmentOperator::Multiply => Position::Used,
        AssignmentOperator::Divide => Position::Used,
        AssignmentOperator::Remainder => Position::Used,
        AssignmentOperator::Add => Position::Used,
        AssignmentOperator::Subtract => Position::Used,
        AssignmentOperator::ShiftLeft => Position::Used,
        AssignmentOperator::ShiftRight => Position::Used,
        AssignmentOperator::BitAnd => Position::Used,
        AssignmentOperator::BitXor => Position::Used,
        AssignmentOperator::BitOr => Position::Used,
    }
}

/// The position of what stands before `.` or `->`.
pub fn object_position(access: Access) -> Position
    ensures { position_tree result ≡ object_position access }
{
    match access {
        Access::Dot => Position::Whole,
        Access::Arrow => Position::Used,
    }
}

/// The position of the right operand of a comma.
pub fn right_position(p: Position) -> Position
    ensures { position_tree result ≡ right_position (position_tree p) }
{
    match p {
        Position::Used => Position::Used,
        Position::Discarded => Position::Discarded,
        Position::Whole => Position::Used,
    }
}

fn is_call(shape: &Shape) -> bool
    ensures { result ≡ is_call (shape_tree shape.now) }
{
    match shape {
        Shape::Constant(_, _) => false,
        Shape::Text(_) => false,
        Shape::Name(_) => false,
        Shape::Unary(_, _) => false,
        Shape::Step(_, _) => false,
        Shape::Cast(_, _) => false,
        Shape::SizeofType(_) => false,
        Shape::SizeofExpr(_) => false,
        Shape::Binary { .. } => false,
        Shape::Assign { .. } => false,
        Shape::Conditional { .. } => false,
        Shape::Comma(_, _) => false,
        Shape::Subscript(_, _) => false,
        Shape::Member { .. } => false,
        Shape::Call(_, _) => true,
    }
}

fn is_assignment(shape: &Shape) -> bool
    ensures { result ≡ is_assignment (shape_tree shape.now) }
{
    match shape {
        Shape::Constant(_, _) => false,
        Shape::Text(_) => false,
        Shape::Name(_) => false,
        Shape::Unary(_, _) => false,
        Shape::Step(_, _) => false,
        Shape::Cast(_, _) => false,
        Shape::SizeofType(_) => false,
        Shape::SizeofExpr(_) => false,
        Shape::Binary { .. } => false,
        Shape::Assign { .. } => true,
        Shape::Conditional { .. } => false,
        Shape::Comma(_, _) => false,
        Shape::Subscript(_, _) => false,
        Shape::Member { .. } => false,
        Shape::Call(_, _) => false,
    }
}

/// Whether an expression of this type may not stand here: a void call and an assignment of a struct
/// where the value isn't discarded, another struct where none may stand.
pub fn is_misplaced(p: Position, shape: &Shape, t: &CType) -> bool
    ensures { result ≡ is_misplaced (position_tree p) (shape_tree shape.now) (type_tree t.now) }
{
    is_void(t) && is_call(shape) && !is_discarded(p)
        || is_struct(t)
            && (if is_assignment(shape) {
                !is_discarded(p)
            } else {
                !is_whole(p)
            })
}
