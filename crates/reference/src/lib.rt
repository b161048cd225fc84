// Document 01's reference list: the table stands in specs/, the one claim about it in proofs/. There is no code.
#![tactic(auto)]
