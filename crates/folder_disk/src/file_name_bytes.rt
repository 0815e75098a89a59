// Whether bytes are a file name, asked of them where they stand: to make a name of them takes memory.
ghost use Rattle.std.specs.Prelude.{◌≡◌, true, not};
ghost use Rattle.std.specs.List.{position};
ghost use Rattle.desk_ports.specs.FileName.{IsFileName};
ghost use Rattle.desk_ports.specs.FileName as word;

// The most bytes of a file name.
const MOST_FILE_NAME_BYTES: usize = 255;

/// Whether the bytes are a file name.
pub fn is_file_name(bytes: &[u8]) -> bool
    ensures named { result ≡ true → IsFileName bytes.now }
    ensures all { IsFileName bytes.now → result ≡ true }
{
    if bytes.is_empty() {
        return false;
    }
    if bytes.len() > MOST_FILE_NAME_BYTES {
        return false;
    }
    match first_bad_byte(bytes) {
        Some(_) => false,
        None => true,
    }
}

// The place of the first byte that no file name has.
fn first_bad_byte(bytes: &[u8]) -> Option<usize>
    ensures { result ≡ position (λ byte. not (word.is_file_name_byte byte)) bytes.now }
{
    bytes.iter().position(|byte| !is_file_name_byte(*byte))
}

fn is_file_name_byte(byte: u8) -> bool
    ensures { result ≡ word.is_file_name_byte byte }
{
    matches!(byte, b'a'..=b'z' | b'A'..=b'Z' | b'0'..=b'9' | b'.' | b'_' | b'-' | b'~')
}
