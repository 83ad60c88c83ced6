// What a rule without a combination asks of P and Q, and what stands there instead.
use crate::page::Page;
use qs_assert::{AssertionNode, AssertionView, Node, split_tree};
use qs_base::NoMemory;
use qs_entail::Certificate;

// How many members an assertion has, if it is a maximum.
fn members(a: &AssertionView<'_>) -> Option<usize> {
    match a.nodes().first() {
        Some(Node::Assertion(AssertionNode::Greatest(count))) => Some(*count),
        _ => None,
    }
}

// How many parts an assertion has, if it is a sum.
fn summands(a: &AssertionView<'_>) -> Option<usize> {
    match a.nodes().first() {
        Some(Node::Assertion(AssertionNode::Total(count))) => Some(*count),
        _ => None,
    }
}

fn is_guard(a: &AssertionView<'_>) -> bool {
    match a.nodes().first() {
        Some(Node::Assertion(AssertionNode::Guard)) => true,
        _ => false,
    }
}

// The first node in which two trees differ; where they are the same, the count of their nodes.
fn first_difference(p: &[Node], q: &[Node]) -> usize {
    let count = p.len().min(q.len());
    for i in 0..count {
        if !p[i].same(&q[i]) {
            return i;
        }
    }
    count
}

impl Page<'_> {
    // Puts the first parts in which P and Q differ, unless they differ at their heads.
    fn put_difference(&mut self, p: &[Node], q: &[Node]) -> Result<(), NoMemory> {
        let i = first_difference(p, q);
        if 0 < i && i < p.len() && i < q.len() {
            self.put(b"first difference, in P:\n")?;
            self.put_tree(split_tree(&p[i..]).0)?;
            self.put(b"in Q:\n")?;
            self.put_tree(split_tree(&q[i..]).0)?;
        }
        Ok(())
    }

    // Puts of how many parts a side is made, or that it isn't of this form.
    fn put_count(&mut self, no: &[u8], of: &[u8], count: Option<usize>) -> Result<(), NoMemory> {
        match count {
            None => self.put(no)?,
            Some(count) => self.put_number(of, count as u64)?,
        }
        self.put(b"\n")
    }

    // Puts how many parts a rule has.
    fn put_given(&mut self, parts: &[Certificate]) -> Result<(), NoMemory> {
        self.put_number(b"parts given: ", parts.len() as u64)?;
        self.put(b"\n")
    }

    fn put_guard(&mut self, no: &[u8], a: &AssertionView<'_>) -> Result<(), NoMemory> {
        if is_guard(a) { Ok(()) } else { self.put(no) }
    }

    /// Puts what the rule of a node finds of P and Q.
    pub fn put_shape(
        &mut self,
        certificate: &Certificate,
        p: &AssertionView<'_>,
        q: &AssertionView<'_>,
    ) -> Result<(), NoMemory> {
        match certificate {
            Certificate::Same => self.put_difference(p.nodes(), q.nodes()),
            Certificate::Pick(_, _) => {
                self.put_count(b"P is no maximum", b"members of P: ", members(p))
            }
            Certificate::All(parts) => {
                self.put_count(b"Q is no maximum", b"members of Q: ", members(q))?;
                self.put_given(parts)
            }
            Certificate::Parts(parts) => {
                self.put_count(b"P is no sum", b"parts of P: ", summands(p))?;
                self.put_count(b"Q is no sum", b"parts of Q: ", summands(q))?;
                self.put_given(parts)
            }
            Certificate::Assume(_) => self.put_guard(b"P is no guard\n", p),
            Certificate::DropGuard(_, _) => self.put_guard(b"Q is no guard\n", q),
            _ => Ok(()),
        }
    }
}
