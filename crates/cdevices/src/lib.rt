// Inner: called by exports_c. The calls of a mat and of a pad for programs in C, which keep a device as limits, numbers and three arrays
// and lend these to each call. What is lent changes in place; only the marks are copied, which are numbers in C.
#![tactic(auto)]

pub mod cmat;
pub mod cpad;
