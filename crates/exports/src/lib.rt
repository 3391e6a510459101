// The engine's calls for programs in C or Rust, which the static library `exports_c` has under the same names: numbers for answers, since an
// enum has no form in C.
#![tactic(auto)]

ghost use Rattle.std.specs.Prelude.{◌≡◌};
ghost use Rattle.answer.specs.Answer.{number_of};
ghost use Rattle.recovery.specs.Recover.{recover_of};
ghost use Rattle.listing.specs.Transcript.{transcript_in};

// Marks a listing: writes its transcript, and answers how many bytes that takes; 0 where the lent buffer is shorter than 163,840 bytes.
pub fn region_machine_mark(listing: &[u8], output: &mut [u8]) -> usize
    ensures { record { count = result; buffer = output.new } ≡ transcript_in listing.now output.old }
{
    listing::transcript(listing, output)
}

// Recovers the 128 cells of an image of 1,156 words into the lent buffer, and answers 0; or the refusal's number, and the buffer is as it
// was.
pub fn region_machine_recover(image: &[u64], cells: &mut [u64]) -> u64
    ensures value { result ≡ number_of (recover_of image.now cells.old).answer }
    ensures cells_after { cells.new ≡ (recover_of image.now cells.old).buffer }
{
    let answer = recovery::recover(image, cells);
    answer::number(answer)
}
