// What is promised of the whole, and worked cases, over the definitions that the public contracts cite. No code.

#![tactic(auto)]
