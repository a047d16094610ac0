// What the processor's manual says of a table, and that it is what a walk shows: definitions and theorems only.
#![tactic(auto)]
