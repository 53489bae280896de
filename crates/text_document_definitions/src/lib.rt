//! The inputs of the commands: the value of the bytes of an input, or its first error. The definitions are in `specs/`;
//! `proofs/` has worked examples, and facts on lines of one form.
#![tactic(auto)]
