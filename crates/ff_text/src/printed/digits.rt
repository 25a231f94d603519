//! Reads fixed texts and numbers.

ghost use Rattle.ff_text.specs.PrintedReading.{Finds, after_text, digit_at, digits_at, number_at};

/// The bytes after the text that they begin with.
pub(super) fn after<'a>(bytes: &'a [u8], text: &[u8]) -> Option<&'a [u8]>
    ensures { Finds (λ x. x.now) result (after_text text.now bytes.now) }
{
    bytes.strip_prefix(text)
}

/// The value of the digit at the front.
#[tactic(auto, unfolding(crate::specs::PrintedReading::digit_at))]
fn digit(bytes: &[u8]) -> Option<(u32, &[u8])>
    ensures { Finds (λ x. (x.0, x.1.now)) result (digit_at bytes.now) }
{
    let (first, rest) = bytes.split_first()?;
    if !first.is_ascii_digit() {
        return None;
    }
    Some((u32::from(first - b'0'), rest))
}

/// The number of the digits at the front, if it is below the limit. No more digits are read than the limit needs.
fn digits(bytes: &[u8], limit: u32) -> Option<(u32, &[u8])>
    ensures { Finds (λ x. (x.0, x.1.now)) result (digits_at limit 0 bytes.now) }
{
    let mut number = 0;
    let mut rest = bytes;
    while let Some((value, others)) = digit(rest) {
        let more = 10 * u64::from(number) + u64::from(value);
        if more >= u64::from(limit) {
            return None;
        }
        number = more as u32;
        rest = others;
    }
    Some((number, rest))
}

/// A number with no leading zero, at least low, which isn't 0, and below the limit.
#[tactic(auto, unfolding(crate::specs::PrintedReading::number_at))]
pub(super) fn number(bytes: &[u8], low: u32, limit: u32) -> Option<(u32, &[u8])>
    ensures { Finds (λ x. (x.0, x.1.now)) result (number_at low limit bytes.now) }
{
    if after(bytes, b"0").is_some() {
        return None;
    }
    let (n, rest) = digits(bytes, limit)?;
    (low <= n).then_some((n, rest))
}
