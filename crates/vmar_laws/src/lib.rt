// What allocate and map on a space that passes its check mean: definitions and theorems only.
#![tactic(auto)]
