// From fresh chambers, after any packs, returns and joins: no cell is lost and none is given out twice. No code stands here.
#![tactic(auto)]
