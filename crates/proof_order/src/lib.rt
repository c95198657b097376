// No code: the theorem that the entries that are listed from the slots are the faults, in the report's order.
#![tactic(auto)]
