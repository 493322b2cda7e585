//! When the configs of a cluster count.
ghost use Rattle.std.specs.Prelude.{◌≡◌};
ghost use Rattle.trace_checker.specs.Inner.Known.{is_applied};

use safety_laws::counting::ConfigsCount;

/// Whether configs count once they are applied.
pub fn is_applied(counting: ConfigsCount) -> bool
    ensures { result ≡ is_applied counting }
{
    match counting {
        ConfigsCount::WhenAppended => false,
        ConfigsCount::WhenApplied => true,
    }
}
