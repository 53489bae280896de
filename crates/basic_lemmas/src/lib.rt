//! Plain facts of truth values, options, numbers and lists, in words of the standard library alone. The crates above
//! cite them in their proofs; no contract names them.
#![tactic(auto)]
