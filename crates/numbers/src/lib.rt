// Document 01's numbers to meet: definitions and one theorem only.
#![tactic(auto)]
