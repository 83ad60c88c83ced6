//! The parser as functions on lists of tokens (C11 6.5 to 6.9), and the laws that tie them to the grammar.
//! Definitions and laws; nothing here runs.
#![tactic(auto)]
