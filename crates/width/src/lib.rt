// No code: that costs past d do not matter to a board stands in specs/.
#![tactic(auto)]
