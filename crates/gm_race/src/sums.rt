//! Accesses summed up by the variable and the loop.

ghost use Rattle.std.specs.Prelude.{◌≡◌, OnOk, IfOk};
ghost use Rattle.gm_race.specs.Meetings.{uses_at, inner_at, AddsUse, AddsInner, SumsUp};

use crate::found::Found;
use crate::meetings::{InnerSite, Meetings, Site};
use crate::uses::{InnerUses, Uses};
use indexmap::IndexMap;
use std::alloc::{AllocError, Global};

// What is summed up of a variable in a loop.
pub fn uses_at<'a>(loops: &IndexMap<Site, Uses<'a>>, site: Site) -> Uses<'a>
    ensures { result ≡ uses_at loops.now.entries site }
{
    match loops.get(&site) {
        None => Uses::none(),
        Some(uses) => *uses,
    }
}

// What is summed up of a variable in an inner loop.
pub fn inner_at<'a>(inner: &IndexMap<InnerSite, InnerUses<'a>>, site: InnerSite) -> InnerUses<'a>
    ensures { result ≡ inner_at inner.now.entries site }
{
    match inner.get(&site) {
        None => InnerUses::none(),
        Some(uses) => *uses,
    }
}

// Sums up one more access, to its variable in its loop. A read leaves all as it is.
fn add_use<'a>(loops: &mut IndexMap<Site, Uses<'a>>, found: Found<'a>) -> Result<(), AllocError>
    ensures { OnOk result (AddsUse loops.old.entries loops.new.entries found.entry) }
{
    if found.kind.is_read() {
        return Ok(());
    }
    let site = Site {
        variable: found.variable,
        loop_id: found.loop_id,
    };
    let uses = uses_at(loops, site);
    loops.insert(site, uses.with(found))?;
    Ok(())
}

// Sums up one more access, to its variable in its inner loop. All but reductions leave all as it is.
fn add_inner<'a>(
    inner: &mut IndexMap<InnerSite, InnerUses<'a>>,
    found: Found<'a>,
) -> Result<(), AllocError>
    ensures { OnOk result (AddsInner inner.old.entries inner.new.entries found.entry) }
{
    if !found.kind.is_reduce() {
        return Ok(());
    }
    let site = InnerSite {
        variable: found.variable,
        loop_id: found.loop_id,
        inner_id: found.inner_id,
    };
    let uses = inner_at(inner, site);
    inner.insert(site, uses.with(found))?;
    Ok(())
}

// Some accesses, summed up.
pub fn meetings_of<'a>(alloc: Global, found: &[Found<'a>]) -> Result<Meetings<'a>, AllocError>
    ensures { IfOk result (λ m. SumsUp m found.now) }
{
    let mut meetings = Meetings {
        loops: IndexMap::new(alloc),
        inner: IndexMap::new(alloc),
    };
    for access in found {
        add_use(&mut meetings.loops, *access)?;
        add_inner(&mut meetings.inner, *access)?;
    }
    Ok(meetings)
}
