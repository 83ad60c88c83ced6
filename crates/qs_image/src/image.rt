// The image that a compiler makes.
use qs_base::Name;
use std::marker::Model;

/// A function with a body.
#[derive(Debug, Drop)]
pub struct FunctionRecord {
    /// The name.
    pub name: Name,
    /// The address of the first instruction, from `CODE_START` of qs_isa on.
    pub address: u32,
    /// The bytes of stack that a call costs, the saved return address included.
    pub cost: u32,
    /// The count of parameters, 0 to 16; of main that of the image.
    pub parameters: u32,
}

impl Model for FunctionRecord {
    ghost use Rattle.std.specs.Prelude.{Some};
    ghost use Rattle.qs_image.specs.Image.{FunctionRecord as Pure};

    ghost Value = { Pure };

    ghost view = { λ f. record {
      name = f.name;
      address = f.address;
      cost = f.cost;
      parameters = Some f.parameters;
    } };
}

/// A compiled program. Contracts see it as a pure image of version 2 that keeps to its form:
/// `IsWellFormed`.
#[derive(Debug, Drop)]
pub struct Image {
    /// The address of the first instruction to run.
    pub entry: u32,
    /// The count of main's parameters, 0 to 8.
    pub parameters: u32,
    /// Bit i is set where parameter i of main is `unsigned`.
    pub unsigned_set: u32,
    /// The functions with a body, in the order of their definitions.
    pub functions: Vec<FunctionRecord>,
    /// The words of the code.
    pub code: Vec<u32>,
    /// The bytes of the data.
    pub bytes: Vec<u8>,
}

impl Model for Image {
    ghost use Rattle.qs_image.specs.Image.{Image as Pure, IsWellFormed};
    ghost use Rattle.qs_image.specs.View.{made_image};

    ghost Value = { Pure };

    ghost view = { made_image };

    ghost invariant = { λ i. IsWellFormed (made_image i) };
}
