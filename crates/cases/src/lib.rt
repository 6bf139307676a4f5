// Bench cases A to J as one table of expectations, and what is expected of torn cells, in specs/, and the proof that the rules meet them:
// definitions alone.

#![tactic(auto)]
