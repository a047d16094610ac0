// kernel-hal/src/bare/arch/x86_64.
#![tactic(auto)]

pub mod vm;
