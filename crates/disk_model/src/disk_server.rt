//! A disk server.
ghost use Rattle.std.specs.Prelude.{◌≡◌, ℕ, ◌+◌, ◌-◌, ◌*◌, ◌/◌, ◌<◌, ◌≤◌, ◌^◌, ◌++◌, [], ◌∷◌, List, length};
ghost use Rattle.disk_model.specs.Service.{Request, request, finish, distance};
ghost use Rattle.disk_model.specs.Server.{CostsInLimits, StandsFor, admitted};

use crate::disk_params::DiskParams;
use std::marker::Model;

/// A disk serves its requests one after the other, in the order in which they were admitted.
///
/// All that is left of the requests so far is where the head is and when the disk is free.
#[derive(Debug, Drop)]
pub struct DiskServer {
    params: DiskParams,
    head: u64,
    free: u64,
}

impl Model for DiskServer {
    ghost use Rattle.std.specs.Prelude.{◌≤◌, ◌^◌};
    ghost use Rattle.disk_model.specs.Server.{Server, CostsInLimits};

    ghost Value = { Server };

    ghost view = { λ s. record { costs = s.params; position = record { head = s.head; free = s.free } } };

    ghost invariant = { λ s. CostsInLimits s.params × (s.head ≤ 32768) × (s.free ≤ 2 ^ 63) };
}

/// How far it is from one sector to another.
fn distance(a: u64, b: u64) -> u64
    ensures { result ≡ distance a b }
{
    if a < b { b - a } else { a - b }
}

impl DiskServer {
    /// A disk that had no request yet: its head is at sector 0, and it is free at once.
    pub fn new(params: DiskParams) -> DiskServer
        requires { CostsInLimits params }
        ensures costs { result.costs ≡ params }
        ensures opening { StandsFor result [] }
    {
        DiskServer {
            params,
            head: 0,
            free: 0,
        }
    }

    /// Puts the head and the free time where one more request leaves them.
    #[tactic(auto, unfolding(crate::specs::Server::admitted))]
    fn serve(&mut self, now: u64, sector: u64, count: u64)
        requires inside { sector + count ≤ 32768 }
        requires early { now ≤ 2 ^ 40 }
        ensures after { self.new ≡ admitted self.old now sector count }
        ensures later { self.old.position.free ≤ self.new.position.free }
    {
        let way = distance(sector, self.head);
        let service = self.params.base
            + way * self.params.seek_num / self.params.seek_den
            + self.params.per_sector * count;
        let begun = now.max(self.free);
        self.free = (begun + service).min(0x8000_0000_0000_0000);
        self.head = sector + count;
    }

    /// Admits a request for `count` sectors in this tick, and answers the tick when it is finished.
    pub fn admit(&mut self, now: u64, sector: u64, count: u64) -> u64
        requires inside { sector + count ≤ 32768 }
        requires early { now ≤ 2 ^ 40 }
        // the server stands for its requests: for whatever list it stood, it now stands for that list and this request
        ensures stands { (h : List Request) → StandsFor self.old h → StandsFor self.new (h ++ request now sector count ∷ []) }
        ensures answer { (h : List Request) → StandsFor self.old h → result ≡ finish self.old.costs (h ++ request now sector count ∷ []) (length h) }
        ensures costs { self.new.costs ≡ self.old.costs }
        ensures after { self.new ≡ admitted self.old now sector count }
        ensures free { result ≡ self.new.position.free }
        ensures later { self.old.position.free ≤ result }
        ensures range { result ≤ 2 ^ 63 }
    {
        self.serve(now, sector, count);
        self.free
    }

    /// The sector after the last one that was served.
    pub fn head(&self) -> u64
        ensures is { result ≡ self.now.position.head }
        ensures range { result ≤ 32768 }
    {
        self.head
    }

    /// The tick when all requests are finished.
    pub fn free_at(&self) -> u64
        ensures is { result ≡ self.now.position.free }
        ensures range { result ≤ 2 ^ 63 }
    {
        self.free
    }
}
