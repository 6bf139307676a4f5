// Inner: called by report. The trial's input taken apart, and the text that it prints.
#![tactic(auto)]

pub mod input;
pub mod text;
