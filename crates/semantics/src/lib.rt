// What a condition tree says: presence, format truth, violations and package rows, and the laws about them. No code.

#![tactic(auto)]
