// How many nodes a tree over n points has; 0 above the limit.
ghost use Rattle.std.specs.Prelude.{◌≡◌};
ghost use Rattle.tree.specs.Count.{node_count};

#[unsafe(no_mangle)]
pub extern "C" fn yt_node_count(n: u32, leaf_size: u32) -> u32
    ensures { result ≡ node_count n leaf_size }
{
    tree::node_count(n, leaf_size)
}
