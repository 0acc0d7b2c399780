ghost use Rattle.std.specs.Prelude.{◌≡◌};
ghost use Rattle.script_report.specs.Limits.{report_octets};

use crate::ending::REPORT_LIMIT;

/// The limit of a report.
pub fn limits_are_these()
    ensures { REPORT_LIMIT ≡ report_octets }
{}
