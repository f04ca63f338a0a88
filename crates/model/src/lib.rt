// No code: the definitions of document 01 and of the paper stand in specs/, their laws in proofs/.
#![tactic(auto)]
