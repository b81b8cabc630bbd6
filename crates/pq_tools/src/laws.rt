//! Laws of tools: what follows of any queue that is checked or repaired.
ghost use Rattle.std.specs.Prelude.{◌≡◌, ◌<◌, ◌-◌, ◌^◌, ℕ, List, length, false};
ghost use Rattle.queue_files.specs.Folders.{Folder};
ghost use Rattle.pq_tools.specs.Damages.{OpenedDamageDiffers};
ghost use Rattle.pq_tools.specs.Numbers.{spends_numbers};
ghost use Rattle.pq_tools.specs.Salvage.{salvage};

/// Fewer than 2^32 - 1 rows have numbers in a new queue, and so have the pages that they need.
pub fn few_rows_have_numbers()
    ensures { (target : List ℕ) (folder : Folder) → length (salvage folder) < 2 ^ 32 - 1
        → spends_numbers target folder ≡ false }
{}

/// Of each damage that an opening tells, and so a check, the number that was found isn't the one that was expected.
pub fn damage_differs()
    ensures { OpenedDamageDiffers }
{}
