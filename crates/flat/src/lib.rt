// The machine of document 01 on lists, and the proof that it does what the paper's machine does. Definitions are in specs/, laws in proofs/; no code is here.

#![tactic(auto)]
