// What is known in a unit by the numbers of its nodes.
ghost use Rattle.std.specs.Prelude.{◌≡◌, option_map};
ghost use Rattle.qs_syntax.specs.TreeOf.{expr_tree};
ghost use Rattle.qs_types.specs.TypeOf.{type_tree};
ghost use Rattle.qs_typed_forms.specs.FormOf.{form_tree};
ghost use Rattle.qs_typed_nodes.specs.Known.{at_number, base_known, designated_known, name_known};
ghost use Rattle.qs_typed_nodes.specs.Known.{named_size_known, parameters_of, referent_lvalue};
ghost use Rattle.qs_typed_nodes.specs.Known.{sized, text_known, type_known};
ghost use Rattle.qs_typed_nodes.specs.KnownOf.{Designates, Knows, designator_tree, known_tree};
ghost use Rattle.qs_typed_nodes.specs.KnownOf.{table_headers};
ghost use Rattle.qs_typed_forms.specs.Results.{Gives, Makes, elements, itself};
ghost use Rattle.qs_typed_trees.specs.TreeOf.{lvalue_tree};
ghost use Rattle.qs_typed_nodes.specs.TypesOf.{lent_type, types_tree};

use crate::places::{
    Locals, Statics, file_variable_object, function_number, local_lvalue, text_object,
};
use indexmap::{IndexMap, IndexSet};
use qs_base::{FnId, Name, NoMemory};
use qs_calls::Callee;
use qs_memory::Scalar;
use qs_syntax::{Base, Expr, TypeName};
use qs_typed_forms::{Form, size_in};
use qs_typed_trees::{Expression, Lvalue};
use qs_types::{CType, Env, Referent, TypeNames};
use std::alloc::Global;

/// What is known.
#[derive(Drop)]
pub struct Known<'a> {
    /// the types of expressions, and those of variables and parameters, at the numbers of their
    /// nodes
    pub types: &'a [Option<CType>],
    /// what the names of the nodes stand for
    pub referents: &'a [Option<Referent>],
    /// the type that the function's result is converted to
    pub result: Scalar,
    /// the structs
    pub env: &'a Env,
    /// the names of types
    pub type_names: &'a TypeNames,
    /// the scalar types of the parameters of each header, by the number of its node
    pub headers: &'a IndexMap<u32, Vec<Scalar>>,
    /// the locals of the function
    pub locals: &'a Locals,
    /// what has a block from the beginning
    pub statics: &'a Statics,
    /// the functions with a body
    pub functions: &'a IndexSet<Name>,
}

/// What is called, and the scalar types of its parameters.
#[derive(Drop)]
pub struct Designator {
    /// what is called
    pub callee: Callee,
    /// the types of its parameters
    pub parameters: Vec<Scalar>,
}

/// The type that stands at the number of a node, if one does.
pub fn type_in(types: &[Option<CType>], node: u32) -> Option<&CType>
    ensures { option_map lent_type result ≡ at_number (types_tree types.now) node }
{
    types.get(node as usize)?.as_ref()
}

/// What the name at a node stands for, if it stands for anything.
pub fn referent_in(referents: &[Option<Referent>], node: u32) -> Option<Referent>
    ensures { result ≡ at_number referents.now node }
{
    *referents.get(node as usize)?
}

impl<'a> Known<'a> {
    /// The type of the expression at a node, or that of the variable or parameter which is declared
    /// there.
    pub fn type_at(&self, node: u32) -> Result<&'a CType, NoMemory>
        ensures { Gives lent_type (at_number (known_tree self.now).types node) result }
    {
        match type_in(self.types, node) {
            None => Err(NoMemory),
            Some(t) => Ok(t),
        }
    }

    /// The type of an expression.
    pub fn type_of(&self, e: &Expr) -> Result<&'a CType, NoMemory>
        ensures { Knows lent_type type_known self.now (expr_tree e.now) result }
    {
        self.type_at(e.node.id)
    }

    fn referent_at(&self, node: u32) -> Result<Referent, NoMemory>
        ensures { Gives itself (at_number (known_tree self.now).referents node) result }
    {
        match referent_in(self.referents, node) {
            None => Err(NoMemory),
            Some(referent) => Ok(referent),
        }
    }

    fn referent_lvalue(&self, alloc: Global, referent: Referent) -> Result<Lvalue, NoMemory>
        ensures { Knows lvalue_tree referent_lvalue self.now referent result }
    {
        match referent {
            Referent::Local(node) => local_lvalue(alloc, self.locals, node),
            Referent::File(node) => {
                let object = file_variable_object(self.statics, node)?;
                let address = Expression::PointerTo(object);
                Ok(Lvalue::Object(Box::new(alloc, address)?))
            }
            Referent::Function(_) => Err(NoMemory),
            Referent::PutChar => Err(NoMemory),
            Referent::GetChar => Err(NoMemory),
        }
    }

    /// The name of a variable (C11 6.5.1p2).
    pub fn name_form(&self, alloc: Global, node: u32) -> Result<Form, NoMemory>
        ensures { Knows form_tree name_known self.now node result }
    {
        let referent = self.referent_at(node)?;
        let l = self.referent_lvalue(alloc, referent)?;
        Ok(Form::Lvalue(l))
    }

    /// A text (C11 6.5.1p4).
    pub fn text_form(&self, alloc: Global, node: u32) -> Result<Form, NoMemory>
        ensures { Makes form_tree (text_known (known_tree self.now) node) result }
    {
        let object = text_object(self.statics, node)?;
        let address = Expression::PointerTo(object);
        Ok(Form::Lvalue(Lvalue::Object(Box::new(alloc, address)?)))
    }

    /// A function of the unit that is called, and its parameters (C11 6.5.2.2).
    fn function_designated(
        &self,
        alloc: Global,
        node: u32,
        f: &Name,
    ) -> Result<Designator, NoMemory>
        ensures { Designates self.now f.now (Referent.Function node) result }
    {
        let parameters = parameters_of(alloc, self.headers, node)?;
        let number = function_number(f, self.functions)?;
        Ok(Designator {
            callee: Callee::Function(FnId(number)),
            parameters,
        })
    }

    fn designated_by(
        &self,
        alloc: Global,
        f: &Name,
        referent: Referent,
    ) -> Result<Designator, NoMemory>
        ensures { Designates self.now f.now referent result }
    {
        match referent {
            Referent::Local(_) => Err(NoMemory),
            Referent::File(_) => Err(NoMemory),
            Referent::Function(node) => self.function_designated(alloc, node, f),
            Referent::PutChar => {
                let mut parameters = Vec::new(alloc);
                parameters.push(Scalar::Int)?;
                Ok(Designator {
                    callee: Callee::PutChar,
                    parameters,
                })
            }
            Referent::GetChar => Ok(Designator {
                callee: Callee::GetChar,
                parameters: Vec::new(alloc),
            }),
        }
    }

    /// What is called at a node, by this name.
    pub fn designated(&self, alloc: Global, node: u32, f: &Name) -> Result<Designator, NoMemory>
        ensures { Gives designator_tree (designated_known (known_tree self.now) node f.now) result }
    {
        let referent = self.referent_at(node)?;
        self.designated_by(alloc, f, referent)
    }

    /// The type that a declaration begins with (C11 6.7.2).
    fn base_type(&self, alloc: Global, base: &Base) -> Result<CType, NoMemory>
        ensures { Knows type_tree base_known self.now base.now result }
    {
        match base {
            Base::Void => Ok(CType::Void),
            Base::Int => Ok(CType::Int),
            Base::Unsigned => Ok(CType::Unsigned),
            Base::Char => Ok(CType::Char),
            Base::Struct(tag) => match self.type_names.tag_place(tag) {
                None => Err(NoMemory),
                Some(k) => Ok(CType::Struct(k)),
            },
            Base::Named(x) => match self.type_names.type_of(x) {
                None => Err(NoMemory),
                Some(t) => t.copy(alloc),
            },
        }
    }

    /// The size of a type by its name (C11 6.5.3.4).
    #[tactic(auto, using(crate::proofs::NamedSizes::named_size, crate::proofs::NamedSizes::pointed_size))]
    pub fn named_size_form(&self, alloc: Global, name: &TypeName) -> Result<Form, NoMemory>
        ensures { Knows form_tree named_size_known self.now name.now result }
    {
        let t = self.base_type(alloc, &name.base)?;
        if name.stars > 0 {
            return Ok(sized(4));
        }
        let size = size_in(self.env, &t)?;
        Ok(sized(size))
    }
}

fn sized(size: u32) -> Form
    ensures { form_tree result ≡ sized size }
{
    Form::Value(Expression::Constant(Scalar::Unsigned, size))
}

/// The scalar types of the parameters of the header at this node.
#[tactic(auto, using(crate::proofs::PlaceTables::header_found))]
fn parameters_of(
    alloc: Global,
    headers: &IndexMap<u32, Vec<Scalar>>,
    node: u32,
) -> Result<Vec<Scalar>, NoMemory>
    ensures { Gives elements (parameters_of node (table_headers headers.now)) result }
{
    match headers.get(&node) {
        None => Err(NoMemory),
        Some(parameters) => copied(alloc, parameters),
    }
}

fn copied(alloc: Global, scalars: &[Scalar]) -> Result<Vec<Scalar>, NoMemory>
    ensures { Makes elements scalars.now result }
{
    Ok(Vec::from_slice(alloc, scalars)?)
}
