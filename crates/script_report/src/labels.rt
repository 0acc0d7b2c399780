ghost use Rattle.std.specs.Prelude.{◌≡◌, map, string_bytes, IfOk};
ghost use Rattle.script_report.specs.Labels.{label_at, publisher_label};

use repo_catalog::Entry;
use std::alloc::{AllocError, Global};

/// The label of member `m`, or `?` where `m` is no member's number.
pub fn label(labels: &[String], m: u32) -> &str
    ensures { result.now ≡ label_at (map string_bytes labels.now) m }
{
    match labels.get(m as usize) {
        Some(label) => label.as_str(),
        None => "?",
    }
}

/// The labels of the entries' publishers.
pub fn publisher_labels(
    alloc: Global,
    labels: &[String],
    entries: &[Entry],
) -> Result<Vec<String>, AllocError>
    ensures { IfOk result (λ named. map string_bytes named.items
        ≡ map (publisher_label (map string_bytes labels.now)) entries.now) }
{
    let mut named = Vec::with_capacity(alloc, entries.len())?;
    for entry in entries {
        named.push(label(labels, entry.publisher).to_string(alloc)?)?;
    }
    Ok(named)
}
