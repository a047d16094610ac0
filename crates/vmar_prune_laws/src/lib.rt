// What cutting a range out of a region of a space that passes its check means: definitions and theorems only.
#![tactic(auto)]
