// What the four calls on a well-formed table mean: definitions and theorems only.
#![tactic(auto)]
