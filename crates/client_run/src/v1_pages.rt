// LISTV1: the page of version 2 from the point that the marker names.
ghost use Rattle.std.specs.Prelude.{◌≡◌, None, Option, IfOk, OnErr};
ghost use Rattle.bucket_terms.specs.declared.request.Request.TheVariants.{ListV1};
ghost use Rattle.bucket_terms.specs.declared.reply.Reply.{Reply};
ghost use Rattle.client_run.specs.ClientRun.{answered, Answers, Stopped};
ghost use Rattle.client_run.specs.Listing.{HasPageInRange, ListedV1As};

use crate::listing::list_known;
use crate::turns::Turn;
use crate::updates::answer_at;
use bucket_terms::{KeyPass, ListQuery, Placed, Reply, Shared, TokenPoint, V1Query};
use key_names::NoMemory;
use list_v1::{plain_query, point_of};
use std::alloc::Global;
use std::sync::Wait;

// Answers a LISTV1. The reply shares its query.
pub(crate) fn v1_request<P: KeyPass, Rt: Wait>(
    rt: &Rt,
    alloc: Global,
    pass: &mut P,
    turn: &Turn<'_, '_>,
    query: &Shared<V1Query>,
) -> Result<Placed, NoMemory>
    requires closed { (P.view pass.old).opened ≡ None }
    ensures answers { IfOk result (λ placed. (last : Option Reply) → Answers turn.now.known.now (P.view pass.old) (P.view pass.new) last (answered turn.now.asked.now.line (ListV1 query.now) placed)) }
    ensures in_range { IfOk result (λ placed. HasPageInRange turn.now.known.now placed.reply) }
    ensures stopped { OnErr result (Stopped (P.view pass.old) (P.view pass.new)) }
    ensures home { P.home pass.new ≡ P.home pass.old }
{
    let asked = query.get();
    let plain = plain_query(alloc, asked)?;
    let point = point_of(alloc, asked)?;
    let shown = query.share()?;
    let listing = PlainListing {
        query: plain,
        point,
    };
    listed_v1(rt, alloc, pass, turn, shown, listing)
}

// The listing of version 2 whose page is shown: its query, and the point from which the page goes on.
#[derive(Drop)]
struct PlainListing {
    query: ListQuery,
    point: Option<TokenPoint>,
}

// The reply that shows the query, with the page of the plain listing.
fn listed_v1<P: KeyPass, Rt: Wait>(
    rt: &Rt,
    alloc: Global,
    pass: &mut P,
    turn: &Turn<'_, '_>,
    query: Shared<V1Query>,
    listing: PlainListing,
) -> Result<Placed, NoMemory>
    requires closed { (P.view pass.old).opened ≡ None }
    ensures answer { IfOk result (ListedV1As turn.now.known.now query listing.query listing.point turn.now.asked.now.line (P.view pass.old) (P.view pass.new)) }
    ensures stopped { OnErr result (Stopped (P.view pass.old) (P.view pass.new)) }
    ensures home { P.home pass.new ≡ P.home pass.old }
{
    let client = pass.client();
    let found = list_known(
        rt,
        alloc,
        pass,
        turn.known,
        &listing.query,
        listing.point.as_ref(),
    );
    drop(listing);
    let (at, page) = found?;
    let page = Shared::new(alloc, page)?;
    Ok(answer_at(client, turn.asked.line, at, Reply::ListedV1 { query, page }))
}
