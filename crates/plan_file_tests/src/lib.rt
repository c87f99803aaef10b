// Examples of drafts, checked against small circuits, of plan files, written and read, and of reports.
#![tactic(auto)]

#[cfg(test)]
mod drafts;
#[cfg(test)]
mod reading;
#[cfg(test)]
mod reports;
#[cfg(test)]
mod samples;
#[cfg(test)]
mod writing;
