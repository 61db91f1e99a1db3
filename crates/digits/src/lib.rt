// No code: the digits of numbers, as bits, stand in specs/.
#![tactic(auto)]
