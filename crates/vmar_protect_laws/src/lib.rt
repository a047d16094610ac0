// What protect on a space that passes its check and a good pool means: definitions and theorems only.
#![tactic(auto)]
