//! Bytes that are stored inline, in a room of fixed size.
ghost use Rattle.std.specs.Prelude.{◌≡◌, ◌+◌, ◌<◌, ◌≤◌, length, take, drop, All};
ghost use Rattle.std.specs.Cmp.Lexicographic.{slice_cmp};
ghost use Rattle.std.specs.Ordering.{nat_cmp};
ghost use Rattle.spl_message.specs.Room.{AreBytes, IsRoom, padded, worth};

use std::cmp::Ordering;

/// The first bytes of the room.
pub fn front(room: &[u8], len: usize) -> &[u8]
    requires { len ≤ length room.now }
    ensures value { result.now ≡ take len room.now }
    ensures bytes { All (λ byte. byte < 256) result.now }
{
    &room[..len]
}

/// The bytes, with zeros behind them.
pub fn room_of<const N: usize>(bytes: &[u8]) -> [u8; N]
    requires { length bytes.now ≤ N }
    ensures { result ≡ padded N bytes.now }
{
    let mut room = [0; N];
    let len = bytes.len();
    let front = &mut room[..len];
    front.copy_from_slice(bytes);
    room
}

/// How the bytes at the front of a room compare to those of another of the same size. Behind both are zeros.
#[inline]
pub fn compare<const N: usize>(room: &[u8; N], len: u8, other: &[u8; N], other_len: u8) -> Ordering
    requires room { IsRoom N room.now len }
    requires other { IsRoom N other.now other_len }
    ensures { result ≡ slice_cmp nat_cmp (take len room.now) (take other_len other.now) }
{
    compare_bytes(room, other).then(len.cmp(&other_len))
}

/// How bytes compare to as many others, eight at a time.
#[inline]
fn compare_bytes(bytes: &[u8], others: &[u8]) -> Ordering
    requires { length bytes.now ≡ length others.now }
    ensures { result ≡ slice_cmp nat_cmp bytes.now others.now }
{
    let words = bytes.len() / 8;
    for i in 0..words {
        let order = word_at(bytes, 8 * i).cmp(&word_at(others, 8 * i));
        if order != Ordering::Equal {
            return order;
        }
    }
    bytes[8 * words..].cmp(&&others[8 * words..])
}

/// The eight bytes from the place on, as a big-endian number.
#[inline]
fn word_at(bytes: &[u8], place: usize) -> u64
    requires { place + 8 ≤ length bytes.now }
    ensures value { result ≡ worth (take 8 (drop place bytes.now)) }
    ensures bytes { AreBytes (take 8 (drop place bytes.now)) }
{
    let word = bytes[place..].first_chunk::<8>().unwrap();
    u64::from_be_bytes(*word)
}
