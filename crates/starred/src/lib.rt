// No code: the starred cases of document 01, as replies of the calls.
#![tactic(auto)]
