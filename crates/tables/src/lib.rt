// The definitions at their corner points and edges: tables of rows, each computed from the definitions and equal to what it asks; and an
// image of which two lawful orders lead to different cells. It holds no code.
#![tactic(auto)]
