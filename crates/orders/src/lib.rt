// Orders of undoing: what an order of all present entries is, and that refusal 24 is given exactly where there is none. It holds no code.
#![tactic(auto)]
