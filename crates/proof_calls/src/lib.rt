// What follows from the promises of the public calls: proofs/Demands and proofs/Passed. No code.
#![tactic(auto)]
