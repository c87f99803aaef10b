// Drafts of plans, the check that makes a draft a plan, and plan files, written and read.
#![tactic(auto)]

pub mod checked;
mod checked_plan;
pub mod draft;
mod first_broken;
mod head;
pub mod plan_reader;
mod plan_records;
pub mod slack;
