// The text of a directory's marker.
ghost use Rattle.std.specs.Prelude.{◌≡◌};
ghost use Rattle.paths.specs.Names.{same};
ghost use Rattle.paths.specs.Paths.{names};
ghost use Rattle.layer_fields.specs.Texts.{opaque_name, marker_text};

use layer_fields::texts::OPAQUE;
use paths::Path;

// Whether it is the name of markers.
fn is_opaque_name(name: &[u8]) -> bool
    ensures { result ≡ same opaque_name name.now }
{
    name == OPAQUE
}

// Whether a text names the marker of a directory.
pub(super) fn is_marker_of(dir: &Path, text: &[u8]) -> bool
    ensures { result ≡ same (marker_text (names dir.now)) text.now }
{
    let dir = dir.as_bytes();
    let Some(rest) = text.strip_prefix(dir) else {
        return false;
    };
    if dir.is_empty() {
        return is_opaque_name(rest);
    }
    rest.strip_prefix(b"/").is_some_and(is_opaque_name)
}
