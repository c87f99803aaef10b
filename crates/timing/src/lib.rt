// The vocabulary of the subject: numbers and their limits, pairs of registers with their path delays, clock domains,
// refusals, and what a source of delays means. Everything else in the repository is said through the definitions in
// specs/ of this crate.
#![tactic(auto)]

pub mod domain;
pub mod limit;
pub mod limits;
pub mod pair;
pub mod readable;
pub mod refusal;
pub mod source;
