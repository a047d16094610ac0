// kernel-hal/src/common: the parts that everything else stands on.
#![tactic(auto)]

pub mod defs;
pub mod vm;
