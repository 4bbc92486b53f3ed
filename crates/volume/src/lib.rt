#![tactic(auto)]

// V, planes and the four-corner rule over points: definitions and laws, no code.
