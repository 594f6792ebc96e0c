// How far a text is read by the one pass of the model, token by token. There is no code here: the definitions in `specs` are what the
// promises of the tokens' functions say, and the laws in `proofs` are what their proofs rest on.
#![tactic(auto)]
