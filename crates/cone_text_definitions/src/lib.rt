//! Cones and vectors in text: how they are read, and how they are written. The definitions are in `specs/`.
#![tactic(auto)]
