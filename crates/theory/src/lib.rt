// No code: the theory stands in specs/.
#![tactic(auto)]
