// A part of the caller's bytes, as that part.
ghost use Rattle.std.specs.Prelude.{◌≡◌, take, drop};

// What stands behind the first so many bytes.
fn behind(src: &[u8], n: usize) -> &[u8]
    ensures { result.now ≡ drop n src.now }
{
    if src.len() < n {
        return &src[src.len()..];
    }
    &src[n..]
}

// The bytes from a place on, so many of them; what of the part lies beyond the bytes is left out.
pub fn text_at(src: &[u8], start: usize, len: usize) -> &[u8]
    ensures { result.now ≡ take len (drop start src.now) }
{
    let rest = behind(src, start);
    if rest.len() < len {
        return rest;
    }
    &rest[..len]
}
