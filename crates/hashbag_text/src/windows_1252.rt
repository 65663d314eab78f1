//! The characters of Windows-1252.
ghost use Rattle.std.specs.Prelude.{◌≡◌, ◌-◌, ◌≤◌, ◌<◌, get_or};
ghost use Rattle.hashbag_text.specs.Encodings.{middle, windows_1252};

// The characters of the bytes 0x80 to 0x9F; 0 for a byte that is none.
const MIDDLE: [u16; 32] = [
    0x20AC, 0, 0x201A, 0x0192, 0x201E, 0x2026, 0x2020, 0x2021, 0x02C6, 0x2030, 0x0160, 0x2039,
    0x0152, 0, 0x017D, 0, 0, 0x2018, 0x2019, 0x201C, 0x201D, 0x2022, 0x2013, 0x2014, 0x02DC,
    0x2122, 0x0161, 0x203A, 0x0153, 0, 0x017E, 0x0178,
];

// Returns what the table has for this byte.
fn middle(byte: u8) -> u16
    requires { (0x80 ≤ byte) × (byte < 0xA0) }
    ensures { result ≡ get_or middle (byte - 0x80) 0 }
{
    MIDDLE[byte as usize - 0x80]
}

/// Returns the character of a byte in Windows-1252, or `None` if the byte is no character.
pub fn windows_1252(byte: u8) -> Option<char>
    ensures { result ≡ windows_1252 byte }
{
    if byte < 0x80 || 0xA0 <= byte {
        return Some(char::from(byte));
    }
    let code = middle(byte);
    if code == 0 {
        return None;
    }
    char::from_u32(u32::from(code))
}
