// The square root, correctly rounded.
ghost use Rattle.root.specs.Root.{Root};

#[unsafe(no_mangle)]
pub extern "C" fn yt_root(x: f64) -> f64
    ensures { Root x result }
{
    root::square_root(x)
}
