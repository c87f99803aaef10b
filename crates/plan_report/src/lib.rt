// The report of a draft: text for people, which names each register as its delay file does.
#![tactic(auto)]

pub mod report;
mod text;
