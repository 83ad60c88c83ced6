// Monomials: sorted lists of atoms.
ghost use Rattle.std.specs.Prelude.{◌≡◌, ◌≤◌, IfOk, OnOk, length};
ghost use Rattle.std.proofs.Common.{rules};
ghost use Rattle.std.specs.Cmp.{partial_order_from_own_ties};
ghost use Rattle.std.specs.Cmp.Rules.{comparing};
ghost use Rattle.std.specs.Ordering.{as_partial_cmp, eq_by_cmp};
ghost use Rattle.qs_poly.specs.Polynomials.{one, times};
ghost use Rattle.qs_poly.specs.Limits.{degree};
ghost use Rattle.qs_poly.specs.Adding.{AtomGoesAt, AddsAtom, AddsAtoms};
ghost use Rattle.qs_poly.specs.Operations.{monomial_product};
ghost use Rattle.qs_poly.specs.Orders.{atoms, monomial_cmp, monomial_cmp_total};

use crate::code::AtomCode;
use qs_base::NoMemory;
use std::alloc::Global;
use std::cmp::Ordering;
use std::marker::Model;

/// A product of atoms, in order.
#[derive(Drop, Debug)]
pub struct Monomial {
    atoms: Vec<AtomCode>,
}

impl Model for Monomial {
    ghost use Rattle.qs_poly.specs.Polynomials.{Monomial};

    ghost Value = { Monomial };

    ghost use Rattle.qs_poly.specs.Views.{coded_monomial, product_of};

    ghost coded = { coded_monomial };

    ghost view = { λ m. product_of m.atoms.items };
}

/// Where an atom goes: before the first that isn't less.
fn place_of_atom(atoms: &[AtomCode], atom: &AtomCode) -> usize
    ensures within { result ≤ length atoms.now }
    ensures place { AtomGoesAt atom.now atoms.now result }
{
    for (i, other) in atoms.iter().enumerate() {
        match atom.cmp(other) {
            Ordering::Greater => {}
            _ => return i,
        }
    }
    atoms.len()
}

fn insert_atom(atoms: &mut Vec<AtomCode>, atom: AtomCode) -> Result<(), NoMemory>
    ensures { OnOk result (AddsAtom atom atoms.old.items atoms.new.items) }
{
    let at = place_of_atom(atoms, &atom);
    atoms.insert(at, atom)?;
    Ok(())
}

fn copy_atoms(alloc: Global, from: &[AtomCode]) -> Result<Vec<AtomCode>, NoMemory>
    ensures { IfOk result (λ to. to.items ≡ from.now) }
{
    let mut to = Vec::new(alloc);
    for atom in from {
        to.push(atom.copy(alloc)?)?;
    }
    Ok(to)
}

fn multiply_atoms(
    alloc: Global,
    from: &[AtomCode],
    product: &mut Vec<AtomCode>,
) -> Result<(), NoMemory>
    ensures { OnOk result (AddsAtoms from.now product.old.items product.new.items) }
{
    for atom in from {
        insert_atom(product, atom.copy(alloc)?)?;
    }
    Ok(())
}

impl Monomial {
    /// The product of no atoms.
    pub fn one(alloc: Global) -> Monomial
        ensures { result ≡ one }
    {
        Monomial {
            atoms: Vec::new(alloc),
        }
    }

    /// One atom.
    pub fn single(alloc: Global, atom: AtomCode) -> Result<Monomial, NoMemory>
        ensures { IfOk result (λ m. m ≡ times atom one) }
    {
        let mut atoms = Vec::new(alloc);
        atoms.push(atom)?;
        Ok(Monomial { atoms })
    }

    /// The same monomial, with atoms of its own.
    pub fn copy(&self, alloc: Global) -> Result<Monomial, NoMemory>
        ensures { IfOk result (λ m. m ≡ self.now) }
    {
        Ok(Monomial {
            atoms: copy_atoms(alloc, &self.atoms)?,
        })
    }

    /// The count of atoms, each as often as it stands there.
    #[tactic(auto, using(crate::proofs::Steps::degree_is))]
    pub fn degree(&self) -> usize
        ensures { result ≡ degree self.now }
    {
        self.atoms.len()
    }

    /// The atoms in order.
    #[tactic(auto, using(crate::specs::Views::atoms_of_product))]
    pub fn atoms(&self) -> &[AtomCode]
        ensures { result.now ≡ atoms self.now }
    {
        &self.atoms
    }

    /// The product of two monomials: the atoms of both, in order.
    pub fn multiply(&self, alloc: Global, other: &Monomial) -> Result<Monomial, NoMemory>
        ensures { IfOk result (λ m. m ≡ monomial_product self.now other.now) }
    {
        let mut atoms = copy_atoms(alloc, &other.atoms)?;
        multiply_atoms(alloc, &self.atoms, &mut atoms)?;
        Ok(Monomial { atoms })
    }
}

impl PartialEq for Monomial {
    ghost eq = { eq_by_cmp monomial_cmp };

    ghost laws = { Prim.search (comparing, monomial_cmp_total, rules) };

    fn eq(&self, other: &Monomial) -> bool {
        self.cmp(other).is_eq()
    }
}

impl Eq for Monomial {
    ghost laws = { Prim.search (comparing, monomial_cmp_total, rules) };
}

impl PartialOrd for Monomial {
    ghost partial_cmp = { as_partial_cmp monomial_cmp };

    ghost laws = { partial_order_from_own_ties
        (Prim.search (comparing, monomial_cmp_total, rules)) (Prim.search (comparing, rules)) };

    fn partial_cmp(&self, other: &Monomial) -> Option<Ordering> {
        Some(self.cmp(other))
    }
}

impl Ord for Monomial {
    ghost cmp = { monomial_cmp };

    ghost total = { monomial_cmp_total };

    ghost matches_partial_cmp = { Prim.search (comparing, rules) };

    ghost matches_eq = { Prim.search (comparing, rules) };

    #[tactic(auto, using(crate::specs::Views::atoms_of_product))]
    fn cmp(&self, other: &Monomial) -> Ordering {
        self.atoms.as_slice().cmp(other.atoms.as_slice())
    }
}
