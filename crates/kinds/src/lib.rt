// No code: the four kinds of generator and their laws stand in specs/.
#![tactic(auto)]
