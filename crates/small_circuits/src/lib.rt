// Small circuits with what the definitions yield for them, proved for every choice of clocks. They show what the
// definitions mean, and the planner's calls are to be run on the same list.
#![tactic(auto)]

pub mod circuit;
pub mod list;
