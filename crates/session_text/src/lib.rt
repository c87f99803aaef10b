// Session scripts as people write them: a call a line. `read_script` reads a whole script, and says of every line that it
// cannot read what is wrong with it.
#![tactic(auto)]

pub mod mistake;
pub mod script;
mod words;
