//! Derivations for functions that call themselves: which count a parameter down, which only pass
//! their parameters on, what each needs, and why.
#![tactic(auto)]
