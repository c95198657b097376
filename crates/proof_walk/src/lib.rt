// No code: the theorem that the walk leaves the kind of each fault in the slot of its row.
#![tactic(auto)]
