// What the calls of the version store mean, and what follows: all of it stands in specs/. The kinds that it speaks of are those of `kinds`.
#![tactic(auto)]
