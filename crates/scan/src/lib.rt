// Looking for a byte in a text.
#![tactic(auto)]

ghost use Rattle.std.specs.Prelude.{◌≡◌, ◌≤◌, length};
ghost use Rattle.scan.specs.Find.{index_of};

// Where the byte first stands; the text's length where it stands nowhere, and no `None`: `before` and `after` go by that place.
pub fn find(text: &[u8], byte: u8) -> usize
    ensures value { result ≡ index_of byte text.now }
    ensures upper_bound { result ≤ length text.now }
{
    text.iter()
        .position(|here| *here == byte)
        .unwrap_or(text.len())
}
