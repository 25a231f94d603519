//! What may stand behind a printed form.

ghost use Rattle.std.specs.Prelude.{◌≡◌};
ghost use Rattle.ff_text.specs.Printed.{ends_poly, ends_elem};

/// Can't these bytes go on a polynomial? That is: no digit, `^` or `*` stands first, and not ` + `.
pub(super) fn ends_poly(bytes: &[u8]) -> bool
    ensures { result ≡ ends_poly bytes.now }
{
    match bytes.first() {
        None => true,
        Some(b) => !(b.is_ascii_digit() || *b == b'^' || *b == b'*' || bytes.starts_with(b" + ")),
    }
}

/// Can't these bytes go on an element? That is: no digit, `^` or `/` stands first.
pub(super) fn ends_elem(bytes: &[u8]) -> bool
    ensures { result ≡ ends_elem bytes.now }
{
    match bytes.first() {
        None => true,
        Some(b) => !(b.is_ascii_digit() || *b == b'^' || *b == b'/'),
    }
}
