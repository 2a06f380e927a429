// No code: worked cases of document 01 and of the maker's papers, in specs/, each proved by computation.

#![tactic(auto)]
