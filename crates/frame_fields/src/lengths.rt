//! The lengths that frames say.

ghost use Rattle.std.specs.Prelude.{◌≡◌, ◌<◌, ◌≤◌, ◌↔◌, IsTrue, length, IfSome, IfNone};
ghost use Rattle.frame_fields.specs.Frames.{said, IsFrame};

/// The most bytes of a frame after its length field.
pub const MOST_IN_FRAME: u32 = 131_072;

/// The length that the first four bytes say, where there are as many.
pub fn said_by(bytes: &[u8]) -> Option<u32>
    ensures said { IfSome result (λ len. (len ≡ said bytes.now) × (4 ≤ length bytes.now)) }
    ensures none { IfNone result (length bytes.now < 4) }
{
    if bytes.len() < 4 {
        return None;
    }
    let (front, _rest) = bytes.split_at(4);
    Some(u32::from_be_bytes([front[0], front[1], front[2], front[3]]))
}

/// Whether the bytes are as long as they say, and no longer than a frame may be.
pub fn is_frame(bytes: &[u8]) -> bool
    ensures { IsTrue result ↔ IsFrame bytes.now }
{
    match said_by(bytes) {
        Some(len) => len <= MOST_IN_FRAME && bytes.len() == 4 + len as usize,
        None => false,
    }
}
