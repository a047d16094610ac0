// What unmap, clear and destroy on a space and a pool that pass their checks mean: definitions and theorems only.
#![tactic(auto)]
