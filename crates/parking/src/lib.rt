// Named points (document 02, Change 11): the form of the buffer that holds them, what a run with a name and a resumption answer, and what becomes of the buffer. Definitions are in specs/, laws in proofs/; no code is here.
#![tactic(auto)]
