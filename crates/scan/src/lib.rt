// Scans of index ranges: definitions and laws, no code.
#![tactic(auto)]
