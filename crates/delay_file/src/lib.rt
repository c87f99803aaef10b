// Delay files: records of 32 bytes, register records first and then pairs. Records are read and written one at a time,
// and a whole file is opened as a source of delays.
#![tactic(auto)]

pub mod encoding;
mod entry;
pub mod fault;
pub mod fields;
pub mod file_source;
pub mod layout;
mod leading;
pub mod names;
pub mod reading;
pub mod view;
pub mod whole_file;
pub mod write_error;
