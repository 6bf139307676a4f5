// That no resend wait below the least one would do: definitions in specs/ and their proof, no function.

#![tactic(auto)]
