//! The kinds of devices, in the order of the lists of a stock.
ghost use Rattle.std.specs.Prelude.{◌≡◌};
ghost use Rattle.dev_face.specs.States.{config_kind};
ghost use Rattle.bench_build.specs.Stocks.{rank};

use dev_face::{DevConfig, Kind};

/// The kinds in their order.
pub(crate) const KINDS: [Kind; 4] = [Kind::Clint, Kind::Uart, Kind::Blk, Kind::Net];

/// How many kinds come before a kind: the number of its list.
pub(crate) fn rank(kind: Kind) -> usize
    ensures { result ≡ rank kind }
{
    match kind {
        Kind::Clint => 0,
        Kind::Uart => 1,
        Kind::Blk => 2,
        Kind::Net => 3,
    }
}

/// The kind that a configuration is for.
pub(crate) fn kind_of(config: &DevConfig) -> Kind
    ensures { result ≡ config_kind config.now }
{
    match config {
        DevConfig::Clint => Kind::Clint,
        DevConfig::Uart => Kind::Uart,
        DevConfig::Blk { .. } => Kind::Blk,
        DevConfig::Net { .. } => Kind::Net,
    }
}
