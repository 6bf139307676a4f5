// Demand 3, that the built ends agree with the unbounded ones: definitions in specs/ and its proof, no function.

#![tactic(auto)]
