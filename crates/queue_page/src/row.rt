// A row as a page gives it, with the place of the next.
use element_code::Origin;
use event_tree::Event;

/// A row of a page.
pub struct PageRow {
    /// The number of the row.
    pub number: u64,
    /// The input of the row, so far as the page names it.
    pub origin: Origin,
    /// The event of the row.
    pub event: Event,
    /// The place behind the row in its page, in bytes from the beginning of the file.
    pub next: u64,
}

// Written out, so that it is one call wherever an error is handed on while a row is held.
impl Drop for PageRow {
    fn drop(self) {
        let PageRow {
            number: _,
            origin: _origin,
            event: _event,
            next: _,
        } = self;
    }
}
