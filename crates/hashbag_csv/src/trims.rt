//! Bytes without the spaces and tabs at their ends.
ghost use Rattle.std.specs.Prelude.{◌≡◌};
ghost use Rattle.hashbag_csv.specs.KeyForms.{end_trimmed, is_blank, start_trimmed, trimmed};

// Whether a byte is a space or a tab.
fn is_space(byte: u8) -> bool
    ensures { result ≡ is_blank byte }
{
    byte == b' ' || byte == b'\t'
}

// Returns the bytes without the spaces and tabs at their start.
fn trim_start(bytes: &[u8]) -> &[u8]
    ensures { result.now ≡ start_trimmed bytes.now }
{
    let mut rest = bytes;
    'spaces: while let Some((byte, after)) = rest.split_first() {
        if !is_space(*byte) {
            return rest;
        }
        rest = after;
    }
    rest
}

// Returns the bytes without the spaces and tabs at their end.
fn trim_end(bytes: &[u8]) -> &[u8]
    ensures { result.now ≡ end_trimmed bytes.now }
{
    let mut rest = bytes;
    'spaces: while let Some((byte, before)) = rest.split_last() {
        if !is_space(*byte) {
            return rest;
        }
        rest = before;
    }
    rest
}

/// Returns the bytes without the spaces and tabs at both ends.
pub fn trim(bytes: &[u8]) -> &[u8]
    ensures { result.now ≡ trimmed bytes.now }
{
    trim_end(trim_start(bytes))
}
