// Whether texts are hosts with a port.
ghost use Rattle.std.specs.Prelude.{◌≡◌};
ghost use Rattle.std.specs.List.{list_all};
ghost use Rattle.out_bulk.specs.Hosts as spec;

use plain_data::Text;
use settings_lines::number_in;

/// Whether each text is a host with a port.
pub(crate) fn are_hosts(texts: &[Text]) -> bool
    ensures { result ≡ list_all spec.is_host texts.now }
{
    texts.iter().all(|text| is_host(text.as_str()))
}

// Whether a port stands behind a colon.
fn is_host(text: &str) -> bool
    ensures { result ≡ spec.is_host text.now }
{
    for at in 0..text.len() {
        if text.as_bytes()[at] == b':' && is_port(&text[at + 1..]) {
            return true;
        }
    }
    false
}

fn is_port(text: &str) -> bool
    ensures { result ≡ spec.is_port text.now }
{
    number_in(text, 1, 65_535).is_some()
}
