//! What two texts have in common.

ghost use Rattle.std.specs.Prelude.{◌≡◌};
ghost use Rattle.lert_spec.specs.Agreed.{agreed};

/// How many bytes two texts have in common, from the front on. The formats of all files use it to name the first byte that
/// leaves them.
pub fn agreed(text: &[u8], bytes: &[u8]) -> usize
    ensures { result ≡ agreed text.now bytes.now }
{
    let mut same = 0;
    while same < text.len() && same < bytes.len() && text[same] == bytes[same] {
        same += 1;
    }
    same
}
