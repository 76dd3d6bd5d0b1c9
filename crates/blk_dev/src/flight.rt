//! Requests in flight.
use split_queue::Chain;
use std::marker::Model;

/// A request in flight: its chain, its type and sector, and its finish tick. The chain has room for the header of the
/// request and for its status.
#[derive(Drop)]
pub(crate) struct Flight {
    pub(crate) chain: Chain,
    pub(crate) kind: u32,
    pub(crate) sector: u64,
    pub(crate) finish: u64,
}

impl Model for Flight {
    ghost use Rattle.dev_face.specs.BlkStates.{FlightState};
    ghost use Rattle.blk_dev.specs.Requests.{IsRequest};

    ghost Value = { FlightState };

    ghost view = { λ f. record { chain = f.chain; kind = f.kind; sector = f.sector; finish = f.finish } };

    ghost invariant = { λ f. IsRequest f.chain };
}
