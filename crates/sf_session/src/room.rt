//! What is written into a caller's room.
ghost use Rattle.std.specs.Prelude.{◌≡◌, ◌++◌, length, take, min};

/// Writes as much of a text as a room takes. How many bytes that is.
pub(crate) fn copy_front(text: &[u8], room: &mut [u8]) -> usize
    ensures count { result ≡ min (length text.now) (length room.new) }
    ensures front { take result room.new ≡ take result text.now }
{
    let most = text.len().min(room.len());
    room[..most].copy_from_slice(&text[..most]);
    most
}

/// Writes as much of two texts as a room takes, one behind the other. How many bytes that is.
pub(crate) fn copy_both(first: &[u8], second: &[u8], room: &mut [u8]) -> usize
    ensures count { result ≡ min (length (first.now ++ second.now)) (length room.new) }
    ensures front { take result room.new ≡ take result (first.now ++ second.now) }
{
    let of_first = copy_front(first, room);
    let of_second = copy_front(second, &mut room[of_first..]);
    of_first + of_second
}
