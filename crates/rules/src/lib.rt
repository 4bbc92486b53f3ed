#![tactic(auto)]

// The rules of building and placing, and the theorems about them: no code.
