// Polynomials as text: sums of products, as `2*n*(cost f) - 1`.
use crate::page::Page;
use qs_base::NoMemory;
use qs_poly::{Node, Poly};

// Whether it is a coefficient that isn't written where an atom follows.
fn is_unit(node: Option<Node>) -> bool {
    match node {
        Some(Node::Coefficient(c)) => c == 1 || c == -1,
        _ => false,
    }
}

// What joins an atom to what stands before it.
fn joint(before: Option<Node>) -> &'static [u8] {
    if is_unit(before) { b"" } else { b"*" }
}

fn ends_term(node: Option<Node>) -> bool {
    match node {
        Some(Node::EndOfTerm) => true,
        _ => false,
    }
}

// The sign of a term, with blanks behind another term.
fn sign(before: Option<Node>, coefficient: i64) -> &'static [u8] {
    match (ends_term(before), coefficient < 0) {
        (true, true) => b" - ",
        (true, false) => b" + ",
        (false, true) => b"-",
        (false, false) => b"",
    }
}

// The head of an atom that has a polynomial.
fn head(node: Node) -> &'static [u8] {
    match node {
        Node::Num => b"(num ",
        Node::Div(_) => b"(div ",
        Node::Wrapu => b"(wrapu ",
        Node::Wraps => b"(wraps ",
        Node::Bits => b"(bits ",
        _ => b"",
    }
}

impl Page<'_> {
    fn put_coefficient(&mut self, before: Option<Node>, c: i64) -> Result<(), NoMemory> {
        self.put(sign(before, c))?;
        if c == 1 || c == -1 {
            return Ok(());
        }
        self.put_number(b"", c.unsigned_abs())
    }

    // The end of a polynomial, of the whole or of this atom's; one without terms is 0.
    fn put_end(&mut self, atom: Option<Node>, before: Option<Node>) -> Result<(), NoMemory> {
        if !ends_term(before) {
            self.put(b"0")?;
        }
        match atom {
            Some(Node::Div(k)) => self.put_number(b", ", k)?,
            _ => {}
        }
        if atom.is_some() {
            self.put(b")")?;
        }
        Ok(())
    }

    fn put_node(
        &mut self,
        open: &mut Vec<Node>,
        before: Option<Node>,
        node: Node,
    ) -> Result<(), NoMemory> {
        match node {
            Node::Coefficient(c) => self.put_coefficient(before, c),
            Node::EndOfTerm if is_unit(before) => self.put(b"1"),
            Node::EndOfTerm => Ok(()),
            Node::EndOfPoly => self.put_end(open.pop(), before),
            Node::Variable(x) => {
                self.put(joint(before))?;
                self.put_variable(x)
            }
            Node::Cost(f) => {
                self.put(joint(before))?;
                self.put_cost(f)
            }
            _ => {
                open.push(node)?;
                self.put(joint(before))?;
                self.put(head(node))
            }
        }
    }

    /// Puts a polynomial.
    pub fn put_polynomial(&mut self, p: &Poly) -> Result<(), NoMemory> {
        let nodes = p.code(self.alloc)?;
        let mut open = Vec::new(self.alloc);
        let mut before = None;
        for node in &nodes {
            self.put_node(&mut open, before, *node)?;
            before = Some(*node);
        }
        Ok(())
    }
}
