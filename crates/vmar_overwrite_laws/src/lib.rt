// What overwriting in a space that passes its check means: definitions and theorems only.
#![tactic(auto)]
