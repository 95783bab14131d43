//! The checksum of an image.

ghost use Rattle.std.specs.Prelude.{◌≡◌, ◌+◌, ◌*◌, ◌/◌, ◌<◌, length};
ghost use Rattle.goblin_pe.specs.added.Checksums.{image_checksum, sum_of_words, summed_byte};
ghost use Rattle.goblin_pe.specs.added.Checksums.{summed_word, with_carry};

fn summed_byte(bytes: &[u8], field: usize, offset: usize) -> u32
    ensures value { result ≡ summed_byte bytes.now field offset }
    ensures small { result < 256 }
{
    if field <= offset && offset - field < 4 {
        return 0;
    }
    match bytes.get(offset) {
        Some(byte) => u32::from(*byte),
        None => 0,
    }
}

fn summed_word(bytes: &[u8], field: usize, index: usize) -> u32
    requires { 2 * index < length bytes.now }
    ensures value { result ≡ summed_word bytes.now field index }
    ensures small { result < 65536 }
{
    summed_byte(bytes, field, 2 * index) + 256 * summed_byte(bytes, field, 2 * index + 1)
}

fn with_carry(sum: u32) -> u32
    requires { sum < 131071 }
    ensures value { result ≡ with_carry sum }
    ensures small { result < 65536 }
{
    sum % 65536 + sum / 65536
}

#[tactic(auto, unfolding(crate::specs::added::Checksums::sum_of_words))]
fn sum_of_words(bytes: &[u8], field: usize) -> u32
    ensures value { result ≡ sum_of_words bytes.now field ((length bytes.now + 1) / 2) }
    ensures small { result < 65536 }
{
    let mut sum = 0;
    'words: for index in 0..bytes.len().div_ceil(2) {
        sum = with_carry(sum + summed_word(bytes, field, index));
    }
    sum
}

/// The checksum of the image `bytes`. `field` is the file offset of the checksum field, which lies
/// 88 bytes after the PE signature at `pe_pointer`.
///
/// The little-endian words of two bytes are summed in 16 bits, with each carry added. Then the
/// length of the file is added, in 32 bits. The four bytes of the field, as far as the file has
/// them, count as zeros. So does the byte that the last word lacks if the length is odd. Windows
/// tests the checksum of drivers, and of libraries that it loads at boot or into critical
/// processes.
///
/// Source: PE Format, "Optional Header Windows-Specific Fields (Image Only)", `CheckSum`, which
/// leaves the algorithm to the Windows library IMAGEHLP. That library is known to sum the field,
/// too, and to subtract it again with borrows. Its sum is then 0 if the other words add up to
/// 0xFFFF, unless the field is 0.
pub fn checksum(bytes: &[u8], field: usize) -> u32
    ensures { result ≡ image_checksum bytes.now field }
{
    let length = (bytes.len() % (1 << 32)) as u32;
    sum_of_words(bytes, field).wrapping_add(length)
}
