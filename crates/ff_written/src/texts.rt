//! The order of texts.

ghost use Rattle.std.specs.Prelude.{◌↔◌, IsTrue};
ghost use Rattle.ff_written.specs.TextOrder.{IsBeforeText};

/// Whether the first text comes before the second: at the first difference its byte is less, or it ends there.
pub fn is_before_text(a: &[u8], b: &[u8]) -> bool
    ensures { IsTrue result ↔ IsBeforeText a.now b.now }
{
    let end = a.len().min(b.len());
    for i in 0..end {
        if a[i] != b[i] {
            return a[i] < b[i];
        }
    }
    a.len() < b.len()
}
