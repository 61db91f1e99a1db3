// No code: what the first of several cases is stands in specs/.
#![tactic(auto)]
