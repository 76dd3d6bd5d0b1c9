//! When the requests in flight complete, and which pages they make.
ghost use Rattle.std.specs.Prelude.{◌≡◌, ◌≢◌, ℕ, ◌≤◌, List, All, count_by, filter, map, fold};
ghost use Rattle.tb_base.specs.declared.width.Width.{Width};
ghost use Rattle.byte_pages.specs.Pages.{PageState, page_count};
ghost use Rattle.disk_model.specs.declared.disk_params.DiskParams.{DiskParams};
ghost use Rattle.dev_face.specs.BlkStates.{FlightState, BlkState, opening_disk};
ghost use Rattle.dev_face.specs.BlkCalls.{Work, served, completed, done_rec, blk_store, blk_begin, blk_end, blk_next};
ghost use Rattle.blk_dev.specs.MadePages.{MadeBy, opening_there};
ghost use Rattle.blk_dev.specs.Order.{IsOrdered, IsLeastFinish, in_flight, is_due, is_later};

use disk_model::finish_ticks_never_fall;

/// Finish ticks never fall along the requests in flight: that holds of a disk at reset, and each call of a disk keeps it. So
/// the tick that a disk waits for is the least finish tick in flight.
pub fn requests_finish_in_order()
    ensures opening { (sectors disk slot : ℕ) (p : DiskParams) (bytes : List ℕ) → IsOrdered (opening_disk sectors p bytes disk slot) }
    ensures store { (s : BlkState) (off v : ℕ) (width : Width) → IsOrdered s → IsOrdered (blk_store s off width v) }
    ensures begin { (s : BlkState) (now : ℕ) (ram : List ℕ) → IsOrdered s → IsOrdered (blk_begin s now ram).disk }
    ensures end { (s : BlkState) (now : ℕ) (ram : List ℕ) → IsOrdered s → IsOrdered (blk_end s now ram).disk }
    ensures skip { (s : BlkState) (tick : ℕ) → IsOrdered s → IsOrdered (record s { coming = tick }) }
    ensures next { (s : BlkState) → IsOrdered s → IsLeastFinish (blk_next s.active) (in_flight s.active) }
{
    finish_ticks_never_fall();
}

/// The requests whose finish tick is reached complete, in the order of their admission, wherever they stand among those in
/// flight; the others stay.
pub fn due_requests_complete()
    ensures work { (now disk sectors : ℕ) (w : Work) (s : BlkState) → IsOrdered s →
        (served now disk sectors w (in_flight s.active)).work ≡ fold (completed sectors) w (filter (is_due now) (in_flight s.active)) }
    ensures recs { (now disk sectors : ℕ) (w : Work) (s : BlkState) → IsOrdered s →
        (served now disk sectors w (in_flight s.active)).recs ≡ map (done_rec now disk sectors) (filter (is_due now) (in_flight s.active)) }
    ensures left { (now disk sectors : ℕ) (w : Work) (s : BlkState) → IsOrdered s →
        (served now disk sectors w (in_flight s.active)).left ≡ filter (is_later now) (in_flight s.active) }
{}

/// Of the pages of a disk that is set up as many are there as hold bytes that were given. Requests of which none is a write make
/// no page and take none away.
pub fn pages_are_made_by_writes()
    ensures opening { (len given : ℕ) → given ≤ len → count_by (λ there. there) (opening_there len given) ≡ page_count given }
    ensures reads { (sectors : ℕ) (fs : List FlightState) (old new : PageState) →
        All (λ f. f.kind ≢ 1) fs → MadeBy sectors fs old new → new.there ≡ old.there }
{}
