// The free parts of document 01 by name and with their properties: definitions in specs/ and their proof, no function.

#![tactic(auto)]
