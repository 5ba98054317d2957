//! What a tree may be trusted for, and the worked examples, as theorems about the definitions. No code of its own.
#![tactic(auto)]
