//! What holds of pages as bytes. Each function here does nothing: its clauses are theorems.
ghost use Rattle.queue_page.specs.Laws.{ElementsAreRead, ElementsAreSpelled, NoElementBeginsAnother, RunsAreLongest, PagesAreRead, PagesAreSpelled, DamageDiffers};

/// The element of a row is read as that row, what is read is such an element, and no element begins another.
pub fn elements_have_one_spelling()
    ensures read { ElementsAreRead }
    ensures spelled { ElementsAreSpelled }
    ensures begins { NoElementBeginsAnother }
{}

/// A run of elements that is read is the longest that stands there, up to its limit.
pub fn runs_are_longest()
    ensures { RunsAreLongest }
{}

/// A page with as many rows and bytes as are recorded is read as that page, and what is read within a
/// recorded extent is such a page.
pub fn pages_have_one_spelling()
    ensures read { PagesAreRead }
    ensures spelled { PagesAreSpelled }
{}

/// Of each damage within a recorded extent the number that was found isn't the one that was expected.
pub fn damage_differs()
    ensures { DamageDiffers }
{}
