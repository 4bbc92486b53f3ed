#![tactic(auto)]

// The cones of a hull's faces, seen from a point inside: every direction is in one, and inside one only. Definitions and theorems, no code.
