//! Passes hand node slots to one another through a depot: before an update a pass that owns none takes one, and after
//! it a pass that owns more than its own number gives away the free ones in excess.
ghost use Rattle.std.specs.Prelude.{◌≡◌, ◌+◌, ◌<◌, ◌≤◌, ◌⊎◌, None, IfSome, MatchOption};
ghost use Rattle.bucket_terms.specs.Pool.{Lent};
ghost use Rattle.slot_depot.specs.Depots.{IsSameSeat, IsSeatOf};
ghost use Rattle.client_run.specs.Pooling.{HasHandedOver, HasToppedUp};

use bucket_terms::PoolPass;
use slot_depot::{Depot, DepotSeat};
use std::sync::Wait;

/// Takes a node slot out of the depot if the pass owns none. Afterwards the pass owns one, or `empties` of its seat
/// has risen by one, which `take` does only after a look that has found the depot empty.
pub fn top_up<P: PoolPass, Rt: Wait>(
    rt: &Rt,
    pass: &mut P,
    depot: &Depot<P::Parcel>,
    seat: &mut DepotSeat<P::Parcel>,
)
    requires closed { (P.view pass.old).opened ≡ None }
    requires seat { IsSeatOf depot.now seat.old }
    requires of { seat.old.book.terms.home ≡ P.home pass.old }
    ensures topped_up { HasToppedUp (P.view pass.old) (P.view pass.new) seat.old.book seat.new.book }
    ensures seat { IsSameSeat seat.old seat.new }
    ensures home { P.home pass.new ≡ P.home pass.old }
{
    if pass.slots().nodes >= 1 {
        return;
    }
    if let Some(parcel) = depot.take(rt, seat) {
        pass.adopt(parcel);
    }
}

/// Gives free node slots to the depot while the pass owns more than `own`. If one comes back, it is the pass's again,
/// and this ends.
pub fn hand_over<P: PoolPass, Rt: Wait>(
    rt: &Rt,
    pass: &mut P,
    depot: &Depot<P::Parcel>,
    seat: &mut DepotSeat<P::Parcel>,
    own: u32,
)
    requires closed { (P.view pass.old).opened ≡ None }
    requires seat { IsSeatOf depot.now seat.old }
    requires of { seat.old.book.terms.home ≡ P.home pass.old }
    ensures handed_over { HasHandedOver own (P.view pass.old) (P.view pass.new) (P.free_nodes pass.new) seat.old.book seat.new.book }
    ensures seat { IsSameSeat seat.old seat.new }
    ensures home { P.home pass.new ≡ P.home pass.old }
{
    while let Some(parcel) = lend_spare(pass, own) {
        if let Err(parcel) = depot.give(rt, seat, parcel) {
            pass.adopt(parcel);
            return;
        }
    }
}

// A free node slot of a pass that owns more than `own`.
fn lend_spare<P: PoolPass>(pass: &mut P, own: u32) -> Option<P::Parcel>
    requires closed { (P.view pass.old).opened ≡ None }
    ensures lent { MatchOption result (P.view pass.new ≡ P.view pass.old) (λ parcel. Lent (P.view pass.old) (P.view pass.new)) }
    ensures free { MatchOption result (P.free_nodes pass.new ≡ P.free_nodes pass.old) (λ parcel. P.free_nodes pass.new + 1 ≡ P.free_nodes pass.old) }
    ensures spare { MatchOption result (((P.view pass.old).nodes ≤ own) ⊎ (P.free_nodes pass.old ≡ 0)) (λ parcel. own < (P.view pass.old).nodes) }
    ensures of { IfSome result (λ parcel. P.Parcel.home parcel ≡ P.home pass.old) }
    ensures home { P.home pass.new ≡ P.home pass.old }
{
    let slots = pass.slots();
    if slots.nodes <= own || slots.free_nodes == 0 {
        return None;
    }
    Some(pass.lend())
}
