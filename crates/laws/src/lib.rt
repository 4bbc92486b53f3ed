#![tactic(auto)]

// Laws of numbers, lists and doubles: this crate has no code.
