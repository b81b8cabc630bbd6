// The queue that the words of a command line order a tool for.
ghost use Rattle.std.specs.Prelude.{◌≡◌, ◌⊎◌, IfOk, Ok, Err, map, string_bytes};
ghost use Rattle.logstash_settings.specs.Words.{answer_of};
ghost use Rattle.pq_tools.specs.Orders as spec;
ghost use Rattle.pq_tools.specs.Orders.{Orders as IsOrdered, checked, checked_by, repaired, repaired_by};
ghost use Rattle.pq_tools.specs.declared.status.ToolStatus.TheVariants as s;

use crate::status::ToolStatus;
use logstash_settings::{Orders, QueueTool, WordsFault, read_words};
use plain_data::Text;
use std::alloc::{AllocError, Global};

/// A queue for which a tool is ordered.
#[derive(Drop)]
pub(crate) struct ToolOrder {
    /// The id of its pipeline.
    pub(crate) id: Text,
    /// The path of its folder, which ends with a slash.
    pub(crate) folder: Text,
    /// The path of the folder into which a repair writes, which ends with a slash.
    pub(crate) repaired: Text,
}

/// The queue that the words order a check of.
pub(crate) fn check_ordered(alloc: Global, words: &[String]) -> Result<ToolOrder, ToolStatus>
    ensures { IsOrdered (checked (answer_of (map string_bytes words.now))) result }
{
    match read_words(alloc, words) {
        Ok(orders) => check_of(alloc, orders),
        Err(WordsFault::Memory) => Err(ToolStatus::NoMemory),
        Err(fault) => Err(ToolStatus::BadWords(fault)),
    }
}

fn check_of(alloc: Global, orders: Orders) -> Result<ToolOrder, ToolStatus>
    ensures { IsOrdered (checked_by orders.path_data orders.tool) result }
{
    let Orders {
        tool,
        path_data,
        ..
    } = orders;
    match tool {
        Some(QueueTool::Check(id)) => ordered(alloc, path_data, id),
        Some(QueueTool::Repair(_id)) => Err(ToolStatus::BadWords(WordsFault::Unread)),
        None => Err(ToolStatus::BadWords(WordsFault::Unread)),
    }
}

/// The queue that the words order a repair of.
pub(crate) fn repair_ordered(alloc: Global, words: &[String]) -> Result<ToolOrder, ToolStatus>
    ensures { IsOrdered (repaired (answer_of (map string_bytes words.now))) result }
{
    match read_words(alloc, words) {
        Ok(orders) => repair_of(alloc, orders),
        Err(WordsFault::Memory) => Err(ToolStatus::NoMemory),
        Err(fault) => Err(ToolStatus::BadWords(fault)),
    }
}

fn repair_of(alloc: Global, orders: Orders) -> Result<ToolOrder, ToolStatus>
    ensures { IsOrdered (repaired_by orders.path_data orders.tool) result }
{
    let Orders {
        tool,
        path_data,
        ..
    } = orders;
    match tool {
        Some(QueueTool::Repair(id)) => ordered(alloc, path_data, id),
        Some(QueueTool::Check(_id)) => Err(ToolStatus::BadWords(WordsFault::Unread)),
        None => Err(ToolStatus::BadWords(WordsFault::Unread)),
    }
}

/// The queue of this id, whose folder stands in this one.
fn ordered(alloc: Global, path: Text, id: Text) -> Result<ToolOrder, ToolStatus>
    ensures { (result ≡ Ok (spec.order_of path id)) ⊎ (result ≡ Err s.NoMemory) }
{
    match order_of(alloc, path, id) {
        Ok(order) => Ok(order),
        Err(_) => Err(ToolStatus::NoMemory),
    }
}

fn order_of(alloc: Global, path: Text, id: Text) -> Result<ToolOrder, AllocError>
    ensures { IfOk result (λ order. order ≡ spec.order_of path id) }
{
    let folder = folder_of(alloc, path.as_str(), id.as_str(), "/")?;
    let repaired = folder_of(alloc, path.as_str(), id.as_str(), ".repaired/")?;
    Ok(ToolOrder {
        id,
        folder,
        repaired,
    })
}

/// A folder below this one, with the id of a pipeline and this behind.
fn folder_of(alloc: Global, path: &str, id: &str, behind: &str) -> Result<Text, AllocError>
    ensures { IfOk result (λ folder. folder ≡ spec.folder_of path.now id.now behind.now) }
{
    let mut folder = String::new(alloc);
    folder.push_str(path)?;
    folder.push_str("/")?;
    folder.push_str(id)?;
    folder.push_str(behind)?;
    Ok(Text::from_string(folder))
}
