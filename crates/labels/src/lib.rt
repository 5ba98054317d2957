// What labels by density are: the definition, its laws, and a test that computes. The code that works them out stands in
// `dbscan`, which sees a search; this crate sees none, so that a worked example is a statement about the definition alone.
#![tactic(auto)]

// The label of a point that is in no cluster.
pub const NOISE: u32 = 4_294_967_295;
