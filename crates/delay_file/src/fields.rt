// The fields of records.
ghost use Rattle.std.specs.Prelude.{◌≡◌, ◌+◌, ◌≤◌, length, nat_le, if◌then◌else◌, Some, None};
ghost use Rattle.delay_file.specs.Bytes.{be32, be64, be_z, every, is_zero, not_zero};
ghost use Rattle.std.specs.List.{prefix_len};

// The number in the four bytes from `at` on.
pub(crate) fn u32_at(bytes: &[u8], at: usize) -> u32
    requires { at + 4 ≤ length bytes.now }
    ensures { result ≡ be32 bytes.now at }
{
    u32::from_be_bytes([bytes[at], bytes[at + 1], bytes[at + 2], bytes[at + 3]])
}

// The signed number in the four bytes from `at` on.
pub(crate) fn i32_at(bytes: &[u8], at: usize) -> i32
    requires { at + 4 ≤ length bytes.now }
    ensures { result ≡ be_z bytes.now at }
{
    u32_at(bytes, at).cast_signed()
}

// The number in the four bytes from `at` on, if they are there. This and `word_at` differ in the width alone, and a trait
// over the widths would hold the same two bodies.
pub fn number_at(bytes: &[u8], at: usize) -> Option<u32>
    ensures { result ≡ (if nat_le (at + 4) (length bytes.now) then Some (be32 bytes.now at) else None) }
{
    let field = bytes.get(at..)?;
    if field.len() < 4 {
        return None;
    }
    Some(u32_at(bytes, at))
}

// The number in the eight bytes from `at` on, if they are there.
pub fn word_at(bytes: &[u8], at: usize) -> Option<u64>
    ensures { result ≡ (if nat_le (at + 8) (length bytes.now) then Some (be64 bytes.now at) else None) }
{
    let field = bytes.get(at..)?;
    if field.len() < 8 {
        return None;
    }
    // Joined by arithmetic, as `be64` is; that eight bytes read at once are the same would have to be shown.
    let high = u64::from(u32_at(bytes, at));
    let low = u64::from(u32_at(bytes, at + 4));
    Some(high * 4_294_967_296 + low)
}

pub fn all_zero(bytes: &[u8]) -> bool
    ensures { result ≡ every is_zero bytes.now }
{
    bytes.iter().all(|b| *b == 0)
}

// Where the first zero byte stands, or the length where there is none.
pub(crate) fn first_zero(bytes: &[u8]) -> usize
    ensures { (result ≡ prefix_len not_zero bytes.now) × (result ≤ length bytes.now) }
{
    bytes.iter().position(|b| *b == 0).unwrap_or(bytes.len())
}
