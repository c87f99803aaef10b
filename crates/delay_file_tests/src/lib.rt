// Examples of delay files and of the vocabulary below them, good and damaged.
#![tactic(auto)]

#[cfg(test)]
mod damaged;
#[cfg(test)]
mod files;
#[cfg(test)]
mod pairs;
#[cfg(test)]
mod records;
