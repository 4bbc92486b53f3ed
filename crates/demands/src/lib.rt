#![tactic(auto)]

// The demands, said of what the calls give: definitions and theorems, no code.
