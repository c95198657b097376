// The faults of a tree as definitions, and the walk of the Rust original beside them; proofs/ holds the theorems about both.
// The crates above cite the definitions and the theorems. Of code only the kinds of faults stand here.
#![tactic(auto)]

pub mod fault_kind;

pub use fault_kind::FaultKind;
