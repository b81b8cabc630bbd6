// Cutting a table into its cases.
use std::alloc::{AllocError, Global};

/// The cases of a table: what stands between lines `---`, or its lines where there is no such line.
pub fn cases_of(alloc: Global, table: &str) -> Result<Vec<&str>, AllocError> {
    let table = table.strip_suffix('\n').unwrap_or(table);
    let between = if table.contains("\n---\n") {
        "\n---\n"
    } else {
        "\n"
    };
    table.split(between).collect(alloc)
}
