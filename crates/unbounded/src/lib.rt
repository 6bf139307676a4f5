// The unbounded ends: definitions alone, in specs/. They depend on the meaning of limits, tables and events, and on nothing
// of the program.

#![tactic(auto)]
