//! What holds of every list of requests.
ghost use Rattle.std.specs.Prelude.{ℕ, ◌≤◌, ◌^◌, List};
ghost use Rattle.disk_model.specs.declared.disk_params.DiskParams.{DiskParams};
ghost use Rattle.disk_model.specs.Service.{Request, finish};
ghost use Rattle.disk_model.specs.Server.{Server, admitted};

/// Finish ticks never fall: a request is not finished before one that was admitted earlier. So of the requests in
/// flight the first has the least finish tick.
pub fn finish_ticks_never_fall()
    ensures order { (p : DiskParams) (h : List Request) (i j : ℕ) → i ≤ j → finish p h i ≤ finish p h j }
    // the same of a server, whose free time is the finish tick of its last request
    ensures later { (s : Server) (n a b : ℕ) → s.position.free ≤ 2 ^ 63 → s.position.free ≤ (admitted s n a b).position.free }
    ensures range { (s : Server) (n a b : ℕ) → (admitted s n a b).position.free ≤ 2 ^ 63 }
{}
