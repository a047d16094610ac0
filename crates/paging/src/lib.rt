// The theory that every table layer stands on: definitions and theorems only.
#![tactic(auto)]
