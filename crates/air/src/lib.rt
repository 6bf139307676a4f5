// The messages in the air, in two tables: data and replies. Each takes 32 messages, in the order they were put. What is written here
// is written once, for every message that is `Carried`.
#![tactic(auto)]

pub mod lent;
pub mod messages;
pub mod table;
