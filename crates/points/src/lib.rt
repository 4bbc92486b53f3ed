// Steps that the crates above share, on coordinates that passed refusals 1 to 3. None is a call: what each asks is in its types or its `requires`.
#![tactic(auto)]

pub mod doubles;
pub mod touch;
pub mod vectors;
pub mod whole;
