//! The lines of a sample: each run of it has the same.

ghost use Rattle.std.specs.Prelude.{◌≡◌, ◌++◌, IfOk, OnOk};
ghost use Rattle.std.specs.String.{string_bytes};
ghost use Rattle.in_lines.specs.Samples as spec;

use event_tree::Text;
use itoa::Buffer;
use std::alloc::{AllocError, Global};

/// The number of the next line of a sample, behind the line of this number. A sample begins with the number behind
/// the one that its setting names.
pub fn next_number(number: u64) -> u64
    ensures { result ≡ spec.next_number number }
{
    number
        .wrapping_mul(6_364_136_223_846_793_005)
        .wrapping_add(1_442_695_040_888_963_407)
}

/// The line of a number: `user=u7 took=307`, a JSON object of the same two fields, an access line in the common log
/// format, or `junk` with a number, as the upper 31 bits of the number say, modulo 4. The only error is want of
/// memory.
pub fn sample_line(alloc: Global, number: u64) -> Result<Text, AllocError>
    ensures { IfOk result (λ line. line ≡ spec.sample_line number) }
{
    line_by(alloc, number >> 33)
}

fn line_by(alloc: Global, upper: u64) -> Result<Text, AllocError>
    ensures { IfOk result (λ line. line ≡ spec.line_by upper) }
{
    let mut line = String::new(alloc);
    match upper % 4 {
        0 => {
            add(&mut line, "user=u", upper % 100)?;
            add(&mut line, " took=", upper % 1000)?;
        }
        1 => {
            add(&mut line, "{\"user\":\"u", upper % 100)?;
            add(&mut line, "\",\"took\":", upper % 1000)?;
            line.push_str("}")?;
        }
        2 => {
            add(&mut line, "10.0.0.", upper % 250)?;
            add(
                &mut line,
                " - - [10/Oct/2000:13:55:36 +0000] \"GET /p",
                upper % 1000,
            )?;
            add(&mut line, " HTTP/1.1\" 200 ", upper % 10_000)?;
        }
        _ => add(&mut line, "junk ", upper)?,
    }
    Ok(Text::from_string(line))
}

// Adds a text with a number behind it.
fn add(line: &mut String, text: &str, number: u64) -> Result<(), AllocError>
    ensures { OnOk result (string_bytes line.new
        ≡ string_bytes line.old ++ spec.with_number text.now number) }
{
    line.push_str(text)?;
    line.push_str(Buffer::new().format(number))
}
