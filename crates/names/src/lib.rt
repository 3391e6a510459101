// Whether two texts are the same, and which kind of step a name is that of.
#![tactic(auto)]

ghost use Rattle.std.specs.Prelude.{◌≡◌};
ghost use Rattle.names.specs.Names.{kind_named};
ghost use Rattle.names.specs.Text.{same_text};

// The names of the kinds, and that of the retired kind 11: a name's place, counted from 1, is its number.
const NAMES: [&[u8]; 14] = [
    b"LOAD",
    b"LOG",
    b"STORE",
    b"ACQUIRE",
    b"LOGREL",
    b"RELEASE",
    b"FLUSH",
    b"FLUSHLOG",
    b"FENCE",
    b"PRUNE",
    b"EVICT",
    b"EVICTLOG",
    b"EVICTCELL",
    b"EVICTWORDS",
];

// The two texts are the same.
#[tactic(auto, using(crate::proofs::TextLaws::same_is))]
pub fn same(one: &[u8], other: &[u8]) -> bool
    ensures { result ≡ same_text one.now other.now }
{
    one == other
}

// The number of a step's name, and no `Kind`: EVICT has 11, which is none.
pub fn kind_named(name: &[u8]) -> Option<u64>
    ensures { result ≡ kind_named name.now }
{
    NAMES
        .iter()
        .position(|word| same(name, word))
        .map(|place| place as u64 + 1)
}
