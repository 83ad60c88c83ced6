// Loops and switches around a place, and the labels of a switch (C11 6.8.4.2, 6.8.6).
ghost use Rattle.std.specs.List.{list_any};
ghost use Rattle.std.specs.Prelude.{◌≡◌, ◌==◌, OnOk};
ghost use Rattle.qs_types.specs.Contexts.{inside_loop, inside_switch, no_labels, with_default};
ghost use Rattle.qs_types.specs.StatementRules.{is_value_met, label_value};
ghost use Rattle.qs_typing_findings.specs.ContextOf.{context_tree, labels_tree};
ghost use Rattle.qs_typing_findings.specs.Knowing.{KnowsCase};
ghost use Rattle.qs_typing_findings.specs.PartsOf.{option_type};

use super::{Context, Labels};
use qs_base::NoMemory;
use qs_types::{CType, converted_to};
use std::alloc::Global;

fn is_among(values: &[u32], value: u32) -> bool
    ensures { result ≡ list_any (λ v. v == value) values.now }
{
    values.iter().any(|v| *v == value)
}

impl Labels {
    /// No label, and no switch that it would be of.
    pub fn new(alloc: Global) -> Labels
        ensures { labels_tree result ≡ no_labels }
    {
        Labels {
            operand: None,
            values: Vec::new(alloc),
            has_default: false,
        }
    }
}

impl Context {
    /// Whether a loop is around the place.
    pub fn in_loop(&self) -> bool
        ensures { result ≡ (context_tree self.now).in_loop }
    {
        self.in_loop
    }

    /// Whether a switch is around the place.
    pub fn in_switch(&self) -> bool
        ensures { result ≡ (context_tree self.now).in_switch }
    {
        self.in_switch
    }

    /// Begins the body of a loop.
    pub fn enter_loop(&mut self)
        ensures { context_tree self.new ≡ inside_loop (context_tree self.old) }
    {
        self.in_loop = true;
    }

    /// Begins the block of a switch whose operand has this promoted type.
    pub fn enter_switch(&mut self, alloc: Global, operand: Option<CType>)
        ensures { context_tree self.new ≡ inside_switch (option_type operand) (context_tree self.old) }
    {
        self.in_switch = true;
        self.labels = Labels {
            operand,
            values: Vec::new(alloc),
            has_default: false,
        };
    }

    /// The value of a constant expression at a `case`, converted to the type of the operand
    /// (C11 6.8.4.2p5).
    pub fn label_value(&self, constant: Option<u32>) -> Option<u32>
        ensures { result ≡ label_value (context_tree self.now).labels constant }
    {
        let t = self.labels.operand.as_ref()?;
        Some(converted_to(t, constant?))
    }

    /// Whether a `case` before has this value.
    pub fn is_value_met(&self, value: Option<u32>) -> bool
        ensures { result ≡ is_value_met (context_tree self.now).labels value }
    {
        match value {
            None => false,
            Some(value) => is_among(&self.labels.values, value),
        }
    }

    /// Whether a `default` is before.
    pub fn has_default(&self) -> bool
        ensures { result ≡ (context_tree self.now).labels.has_default }
    {
        self.labels.has_default
    }

    /// Goes behind a `case` of this value.
    pub fn add_case(&mut self, value: Option<u32>) -> Result<(), NoMemory>
        ensures { OnOk result (KnowsCase value self.old self.new) }
    {
        if let Some(value) = value {
            self.labels.values.push(value)?;
        }
        Ok(())
    }

    /// Goes behind a `default`.
    pub fn add_default(&mut self)
        ensures { context_tree self.new ≡ with_default (context_tree self.old) }
    {
        self.labels.has_default = true;
    }
}
