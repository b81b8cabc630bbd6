// Tables that are files, printed with the answer to each row.
use std::alloc::AllocError;
use std::{fs, io};

/// What answers the rows of a table.
pub trait AnswerRows {
    /// Adds the answer to a row.
    fn add_answer(&self, to: &mut String, row: &str) -> Result<(), AllocError>;
}

/// Prints tables, one after another.
pub fn print_tables<T: AnswerRows>(rt: &HostRuntime, tables: &[(&str, T)]) -> io::Result<()> {
    for (name, table) in tables {
        print_table(rt, name, table)?;
    }
    Ok(())
}

/// Prints the name of a table's file behind `# `, and then the answer to each of its lines.
pub fn print_table<T: AnswerRows>(rt: &HostRuntime, name: &str, table: &T) -> io::Result<()> {
    let rows = fs::read_to_string(rt, name)?;
    println!(rt; "# {name}")?;
    for row in rows.lines() {
        let mut answer = String::new(rt.alloc());
        table.add_answer(&mut answer, row)?;
        println!(rt; "{answer}")?;
    }
    Ok(())
}
