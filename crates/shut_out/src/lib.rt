// No code: the wrong builds that document 01 names, and that no such build keeps its call's promise.
#![tactic(auto)]
