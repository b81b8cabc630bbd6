// Making the kits of the workers.
ghost use Rattle.std.specs.Prelude.{◌≡◌, All, length, IfOk};
ghost use Rattle.graph_checks.specs.Plans.{HasNoBox, IsKitOf};
ghost use Rattle.graph_checks.specs.Readings.{IsRead};

use config_tree::{Config, FromFault};
use plain_data::Text;
use plugin_graph::Kit;
use std::alloc::{AllocError, Global};

/// So many kits of a configuration that passed its checks, without boxes.
pub(crate) fn make_kits<X: Drop>(
    alloc: Global,
    config: &Config,
    draws: &[(Text, u64)],
    workers: u32,
) -> Result<Vec<Kit<X>>, AllocError>
    requires { IsRead config.now }
    ensures kits { IfOk result (λ kits. All (IsKitOf draws.now config.now) kits.items) }
    ensures boxes { IfOk result (λ kits. All HasNoBox kits.items) }
    ensures count { IfOk result (λ kits. length kits.items ≡ workers) }
{
    let mut kits = Vec::new(alloc);
    for _ in 0..workers {
        kits.push(make_kit(alloc, config, draws)?)?;
    }
    Ok(kits)
}

// A kit is refused for want of memory alone, since the configuration reads.
fn make_kit<X: Drop>(
    alloc: Global,
    config: &Config,
    draws: &[(Text, u64)],
) -> Result<Kit<X>, AllocError>
    requires { IsRead config.now }
    ensures kit { IfOk result (IsKitOf draws.now config.now) }
    ensures boxes { IfOk result HasNoBox }
{
    match Kit::new(alloc, config, draws) {
        Ok(kit) => Ok(kit),
        Err(FromFault::Memory) => Err(AllocError),
        Err(FromFault::Bad(_)) => unreachable!(),
    }
}
