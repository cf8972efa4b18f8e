// Laws only: this crate has no code. What a sheet without fault has stands in specs/Accepted.antt.
#![tactic(auto)]
