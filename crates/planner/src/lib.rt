// Whole sessions: lists of calls performed one after another, with the promise over all of them.
#![tactic(auto)]

pub mod call;
pub mod runs;
