// Upstream's contracts, restated over the memory of `rules`: terms and lemmas alone, in specs/. There is no code here.
#![tactic(auto)]
