ghost use Rattle.std.specs.Prelude.{◌≡◌, ◌↔◌, ◌≤◌, IsTrue, drop, length, take};

/// Puts a text at the beginning of a buffer, where the buffer can hold it. The answer is whether it
/// can.
pub(crate) fn put(buffer: &mut [u8], text: &[u8]) -> bool
    ensures held { IsTrue result ↔ length text.now ≤ length buffer.old }
    ensures put { IsTrue result → take (length text.now) buffer.new ≡ text.now }
    ensures rest { IsTrue result →
        drop (length text.now) buffer.new ≡ drop (length text.now) buffer.old }
    ensures length { length buffer.new ≡ length buffer.old }
    ensures kept { ¬ IsTrue result → buffer.new ≡ buffer.old }
{
    if text.len() > buffer.len() {
        return false;
    }
    buffer[..text.len()].copy_from_slice(text);
    true
}
