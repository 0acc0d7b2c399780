ghost use Rattle.std.specs.Prelude.{◌≡◌};
ghost use Rattle.repo_watch.specs.Patterns.{accepts, begins_with, is_publisher};

use ndn_name::Name;
use repo_watch::Pattern;

// Whether a pattern accepts the publisher's object of this name.
pub(crate) fn accepts(pattern: &Pattern, publisher: u32, name: &Name) -> bool
    ensures { result ≡ accepts pattern.now publisher name.now }
{
    is_publisher(pattern.publisher, publisher) && begins_with(&pattern.prefix, name)
}

// Whether the publisher is the one asked for, or any will do.
fn is_publisher(asked: Option<u32>, publisher: u32) -> bool
    ensures { result ≡ is_publisher asked publisher }
{
    match asked {
        None => true,
        Some(asked) => asked == publisher,
    }
}

// Whether the name begins with these components.
fn begins_with(prefix: &Name, name: &Name) -> bool
    ensures { result ≡ begins_with prefix.now name.now }
{
    prefix.view().is_prefix_of(&name.view())
}
