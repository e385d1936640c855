// Unit cells of a chamber and of a list of boxes: definitions and the counting law. No code stands here.
#![tactic(auto)]
