//! What becomes of frames that arrive, in the words of whole lists.
ghost use Rattle.std.specs.Prelude.{◌≡◌, ℕ, ◌≤◌, ◌++◌, List, length, map, take, drop};
ghost use Rattle.dev_face.specs.Queues.{Put};
ghost use Rattle.dev_face.specs.NetCalls.{joined, delivered};
ghost use Rattle.net_dev.specs.Backlogs.{lost_rec, received_in};

/// Of what waited and what arrives the first 64 frames wait, and the others are lost.
pub fn the_first_64_wait()
    ensures wait { (now nic : ℕ) (backlog frames : List (List ℕ)) → length backlog ≤ 64 →
        (joined now nic backlog frames).backlog ≡ take 64 (backlog ++ frames) }
    ensures lost { (now nic : ℕ) (backlog frames : List (List ℕ)) → length backlog ≤ 64 →
        (joined now nic backlog frames).recs ≡ map (lost_rec now nic) (drop 64 (backlog ++ frames)) }
{}

/// Each frame that waited is received once or waits on, in their order.
pub fn frames_keep_their_order()
    ensures { (now nic slot : ℕ) (w : Put) (frames : List (List ℕ)) →
        received_in (delivered now nic slot w frames).recs ++ (delivered now nic slot w frames).left ≡ frames }
{}
