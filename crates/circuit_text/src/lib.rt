// Circuits as people write them: a line for each register and each pair. `read_circuit` reads such a text, and says of
// every line that it cannot read what is wrong with it.
#![tactic(auto)]

pub mod circuit;
pub mod line;
pub mod mistake;
