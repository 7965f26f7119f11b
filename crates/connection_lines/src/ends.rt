//! Whether an end is one to warn of.
ghost use Rattle.std.specs.Prelude.{◌≡◌};
ghost use Rattle.connection_lines.specs.Ends.{end_warns};

use port_session::End;

/// Whether a line that tells of this end warns: unless it is `Closed`.
pub fn warns_of(end: End) -> bool
    ensures { result ≡ end_warns end }
{
    match end {
        End::Closed => false,
        _ => true,
    }
}
