// What the rounded patterns are: facts about the answers. There are no functions here: what the facts
// are stated with stands in specs/ and what is proved in proofs/, a subject a file.
#![tactic(auto)]
