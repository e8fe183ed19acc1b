// The version in an image's head, a text in 32 bytes.
ghost use Rattle.std.specs.Prelude.{◌≡◌, not, position};
ghost use Rattle.std.specs.List.{prefix_len};
ghost use Rattle.ec_model.specs.InfoRows.{is_shown, version_text};

/// A version as it is told: its bytes before the first one that is not printable ASCII, at most 31 of them, and then
/// zeros.
pub fn version_text(raw: &[u8; 32]) -> [u8; 32]
    ensures { result ≡ version_text raw.now }
{
    let count = shown_count(raw).min(31);
    let mut text = [0; 32];
    text[..count].copy_from_slice(&raw[..count]);
    text
}

// How many bytes stand before the first one that is not printable ASCII.
fn shown_count(raw: &[u8]) -> usize
    ensures { result ≡ prefix_len is_shown raw.now }
{
    first_hidden(raw).unwrap_or(raw.len())
}

// The place of the first byte that is not printable ASCII.
fn first_hidden(raw: &[u8]) -> Option<usize>
    ensures { result ≡ position (λ byte. not (is_shown byte)) raw.now }
{
    raw.iter().position(|byte| *byte < 0x20 || *byte > 0x7E)
}
