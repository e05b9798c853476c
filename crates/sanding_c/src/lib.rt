// The static library for programs in C and Rust: it exports the functions of crate sanding. A slice passes as a pointer and a length. The
// functions stand twice, since no crate can call a static library: Rattle's own callers take those of sanding.
#![tactic(auto)]

ghost use Rattle.std.specs.Prelude.{◌≡◌, length};
ghost use Rattle.sheet.specs.Layout.{sheet_of};
ghost use Rattle.runner.specs.Run.{room_as, ran_of, printed_of};
ghost use Rattle.sanding.specs.Exported.{refusal_in, length_in};

// The number of the refusal that a sheet gets, 20 to 24, or 0 if it is accepted: a number, since the C interface has it so (linked/sanding.h).
// Nothing is run.
#[unsafe(no_mangle)]
pub extern "C" fn sanding_refusal(s: &[u8]) -> u8
    ensures { result ≡ refusal_in (sheet_of s.now) }
{
    sanding::sanding_refusal(s)
}

// How long a buffer sanding_run needs for this sheet.
#[unsafe(no_mangle)]
pub extern "C" fn sanding_room(s: &[u8]) -> usize
    ensures { result ≡ room_as (sheet_of s.now) }
{
    sanding::sanding_room(s)
}

// The text of the sheet's run, at the front of the buffer: its length. 0 if the buffer is too short; it then stays as it was.
#[unsafe(no_mangle)]
pub extern "C" fn sanding_run(s: &[u8], out: &mut [u8]) -> usize
    ensures { (result ≡ length_in (ran_of s.now (length out.old))) × (out.new ≡ printed_of s.now out.old) }
{
    sanding::sanding_run(s, out)
}
