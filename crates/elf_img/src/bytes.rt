//! Numbers in a file by their offset, the lowest byte first.

ghost use Rattle.std.specs.Prelude.{◌≡◌, ◌+◌, ◌*◌, ◌^◌, ◌<◌, ◌≤◌, true, length};
ghost use Rattle.elf_img.specs.Bytes.{half_at, word_at, double_at, is_inside, range_at};

/// The 2 bytes at an offset.
#[tactic(auto, unfolding(crate::specs::Bytes::half_at))]
pub fn half_at(file: &[u8], at: usize) -> u64
    requires { at + 2 ≤ length file.now }
    ensures value { result ≡ half_at file.now at }
    ensures fits { result < 2 ^ 16 }
{
    u64::from(file[at]) + u64::from(file[at + 1]) * 0x100
}

/// The 4 bytes at an offset.
#[tactic(auto, unfolding(crate::specs::Bytes::word_at))]
pub fn word_at(file: &[u8], at: usize) -> u64
    requires { at + 4 ≤ length file.now }
    ensures value { result ≡ word_at file.now at }
    ensures fits { result < 2 ^ 32 }
{
    half_at(file, at) + half_at(file, at + 2) * 0x1_0000
}

/// The 8 bytes at an offset.
#[tactic(auto, unfolding(crate::specs::Bytes::double_at))]
pub fn double_at(file: &[u8], at: usize) -> u64
    requires { at + 8 ≤ length file.now }
    ensures value { result ≡ double_at file.now at }
{
    word_at(file, at) + word_at(file, at + 4) * 0x1_0000_0000
}

/// Whether so many bytes from an offset on lie inside a file of this length. The sum may pass 2^64.
pub fn is_inside(len: u64, at: u64, size: u64) -> bool
    ensures { result ≡ is_inside len at size }
{
    size == 0 || (size <= len && at <= len - size)
}

/// The bytes of a range that lies inside the file.
pub fn range_at(file: &[u8], at: u64, size: u64) -> &[u8]
    requires { is_inside (length file.now) at size ≡ true }
    ensures { result.now ≡ range_at file.now at size }
{
    if size == 0 {
        return &file[..0];
    }
    let at = at as usize;
    &file[at..at + size as usize]
}
