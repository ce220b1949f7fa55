//! Memory of the page.

ghost use Rattle.std.specs.Prelude.{◌≡◌, length, take};

/// Puts as many of the bytes as fit at the front, and returns how many there are.
pub(crate) fn put(bytes: &[u8], to: &mut [u8]) -> u64
    ensures whole { result ≡ length bytes.now }
    ensures front { take (length bytes.now) to.new ≡ take (length to.old) bytes.now }
{
    if bytes.len() <= to.len() {
        let (front, _) = to.split_at_mut(bytes.len());
        front.copy_from_slice(bytes);
    } else {
        to.copy_from_slice(&bytes[..to.len()]);
    }
    bytes.len() as u64
}
