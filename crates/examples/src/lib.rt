// The worked examples of the scope: one table under one statement. No code stands here.
#![tactic(auto)]
