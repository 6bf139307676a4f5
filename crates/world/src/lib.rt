// Two devices with nothing but frames between them do what the link does: definitions in specs/ and its proof, no function.

#![tactic(auto)]
