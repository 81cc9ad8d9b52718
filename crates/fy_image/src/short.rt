//! Short numbers: groups of 7 bits, the lowest first. Each byte but the last has its top bit set.

ghost use Rattle.std.specs.Prelude.{◌≡◌, ◌<◌, ◌≤◌, All, MatchOption, false, length, true};
ghost use Rattle.fy_image.specs.Refusals.{grouped, is_short, short_size};

/// How many of the bytes are the short number that they begin with, wherever they end.
pub fn short_size(bytes: &[u8]) -> usize
    ensures { result ≡ short_size bytes.now }
{
    let (start, _) = bytes.split_at(bytes.len().min(5));
    for (k, byte) in start.iter().enumerate() {
        if *byte < 128 {
            return k + 1;
        }
    }
    start.len() + 1
}

// The number of the groups.
fn grouped(bytes: &[u8]) -> u64
    requires { length bytes.now ≤ 5 }
    ensures { result ≡ grouped bytes.now }
{
    let mut n = 0;
    for k in (0..bytes.len()).rev() {
        n = (bytes[k] % 128) as u64 + 128 * n;
    }
    n
}

/// The short number of the bytes, unless they are none's.
pub fn short_of(bytes: &[u8]) -> Option<u32>
    requires { 0 < length bytes.now }
    ensures number { MatchOption result (is_short bytes.now ≡ false) (λ n. (is_short bytes.now ≡ true) × (n ≡ grouped bytes.now)) }
    ensures fit { All (λ byte. byte < 256) bytes.now }
{
    if bytes.len() > 5 || bytes[bytes.len() - 1] == 0 {
        return None;
    }
    let n = grouped(bytes);
    if n > u32::MAX as u64 {
        return None;
    }
    Some(n as u32)
}
