// No code: the flat form of the tree, and that it is the tree, stand in specs/.
#![tactic(auto)]
