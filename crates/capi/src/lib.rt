//! The C interface (include/yolthugen.h): each function lends its slices to one entry of the library and flattens the
//! answer to a number, 0 or a refusal's, and a detail or a count. Nothing is worked out here. Each promise is the entry's
//! own, of the answer that was flattened (specs/Flat), so a call has one outcome where the entry has (proofs/Once).
//! Kept: parameters go one by one, and alike in each file, as the C interface has them.
//! Ruled out: a refusal's number where its detail belongs, and an index written over an empty tree.
#![tactic(auto)]

mod build_tree;
mod check_tree;
mod found;
mod k_nearest_hits;
mod label;
mod nearest_hit;
mod node_count;
mod radius_hits;
mod radius_indices;
mod root_of;
