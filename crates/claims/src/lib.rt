// The demands as facts about calls that follow one another: what one call leaves in a lent buffer is handed to the next. There is no code
// here. The theorems in `proofs` rest on the promises of the calls alone.
#![tactic(auto)]
