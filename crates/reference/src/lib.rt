// The reference model (document 01: the plain book). It holds no code: its definitions are in specs/.
#![tactic(auto)]
