// Examples of sessions: edits, files loaded and saved, and runs of calls.
#![tactic(auto)]

#[cfg(test)]
mod edits;
#[cfg(test)]
mod loading;
#[cfg(test)]
mod making;
#[cfg(test)]
mod runs;
#[cfg(test)]
mod saving;
