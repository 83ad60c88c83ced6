// The text of an explanation.
use crate::goals::Owner;
use itoa::Buffer;
use qs_assert::{Define, Node, Var};
use qs_base::{FnId, NoMemory};
use qs_core::CoreUnit;
use qs_entail::Known;
use qs_prooftext_writing::{WordTable, put_nodes, variable_text};
use qs_sexpr::write;
use std::alloc::Global;

/// A text, written of the entry of a function.
#[derive(Drop)]
pub struct Page<'a> {
    pub alloc: Global,
    pub unit: &'a CoreUnit,
    pub function: FnId,
    pub table: WordTable<'a>,
    pub defines: &'a [Define],
    /// Where the certificate stands that is shown.
    pub owner: Owner,
    pub text: Vec<u8>,
}

impl Page<'_> {
    /// Puts bytes.
    pub fn put(&mut self, bytes: &[u8]) -> Result<(), NoMemory> {
        self.text.extend_from_slice(bytes)?;
        Ok(())
    }

    /// Puts bytes and a number behind them.
    pub fn put_number(&mut self, before: &[u8], n: u64) -> Result<(), NoMemory> {
        self.put(before)?;
        let mut digits = Buffer::new();
        self.put(digits.format(n).as_bytes())
    }

    /// Puts a variable, as the entry writes it.
    pub fn put_variable(&mut self, x: Var) -> Result<(), NoMemory> {
        let word = variable_text(self.alloc, self.unit, self.function, &x)?;
        self.put(word.bytes())
    }

    /// Puts the cost of a function.
    pub fn put_cost(&mut self, f: FnId) -> Result<(), NoMemory> {
        self.put(b"(cost ")?;
        if let Some(function) = self.unit.functions.get(f.0 as usize) {
            self.put(function.name.bytes())?;
        }
        self.put(b")")
    }

    /// Puts the assertion or condition that has these nodes, on lines of its own.
    pub fn put_tree(&mut self, nodes: &[Node]) -> Result<(), NoMemory> {
        let mut tokens = Vec::new(self.alloc);
        put_nodes(self.alloc, &mut tokens, self.table, nodes)?;
        let text = write(self.alloc, &tokens)?;
        self.put(&text)
    }

    fn put_conditions(&mut self, known: &Known) -> Result<(), NoMemory> {
        for (i, c) in known.conditions.iter().enumerate() {
            self.put_number(b"H", i as u64)?;
            self.put(b" ")?;
            self.put_tree(c.nodes())?;
        }
        Ok(())
    }

    /// Puts what is known.
    pub fn put_known(&mut self, known: &Known) -> Result<(), NoMemory> {
        self.put_conditions(known)?;
        for (i, p) in known.polynomials.iter().enumerate() {
            self.put_number(b"L", i as u64)?;
            self.put(b" ")?;
            self.put_polynomial(p)?;
            self.put(b"\n")?;
        }
        Ok(())
    }
}
