ghost use Rattle.std.specs.Prelude.{◌≡◌, map};
ghost use Rattle.std.specs.String.{string_bytes};
ghost use Rattle.script_lang.specs.Checking.{is_mirror, mirror_place};

// The place of the mirror with this label.
pub(crate) fn place_of_mirror(label: &str, mirrors: &[String]) -> Option<usize>
    ensures { result ≡ mirror_place label.now (map string_bytes mirrors.now) }
{
    mirrors.iter().position(|mirror| mirror.as_str() == label)
}

// Whether a mirror has this label.
pub(crate) fn is_mirror(label: &str, mirrors: &[String]) -> bool
    ensures { result ≡ is_mirror label.now (map string_bytes mirrors.now) }
{
    mirrors.iter().any(|mirror| mirror.as_str() == label)
}
