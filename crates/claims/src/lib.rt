// No code: specs/ says what the project promises beyond its single calls, and proofs/ proves it.
#![tactic(auto)]
