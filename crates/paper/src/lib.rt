// Document 01 as definitions, and what is proved of them. The definitions are in specs/, their laws in proofs/; no code is here.

#![tactic(auto)]
