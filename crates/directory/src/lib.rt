// Directory pages: names, entries and control fields, judged and read from bytes.
#![tactic(auto)]

pub mod control;
pub mod entries;
pub mod extensions;
pub mod names;
