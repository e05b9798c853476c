// The runner for programs in C and Rust: what the static library of crate sanding_c exports.
#![tactic(auto)]

ghost use Rattle.std.specs.Prelude.{◌≡◌, length};
ghost use Rattle.sheet.specs.Layout.{sheet_of};
ghost use Rattle.runner.specs.Run.{room_as, ran_of, printed_of};
ghost use Rattle.sanding.specs.Exported.{refusal_in, length_in};

// The number of the refusal that a sheet gets, 20 to 24, or 0 if it is accepted: a number, since the C interface has it so (linked/sanding.h).
// Nothing is run.
pub fn sanding_refusal(s: &[u8]) -> u8
    ensures { result ≡ refusal_in (sheet_of s.now) }
{
    match sheet::layout_of(s) {
        Ok(_) => 0,
        Err(why) => answers::refusal_number(why),
    }
}

// How long a buffer sanding_run needs for this sheet.
pub fn sanding_room(s: &[u8]) -> usize
    ensures { result ≡ room_as (sheet_of s.now) }
{
    runner::room_of(sheet::layout_of(s))
}

// The text of the sheet's run, at the front of the buffer: its length. 0 if the buffer is too short; it then stays as it was.
pub fn sanding_run(s: &[u8], out: &mut [u8]) -> usize
    ensures { (result ≡ length_in (ran_of s.now (length out.old))) × (out.new ≡ printed_of s.now out.old) }
{
    runner::run(s, out).unwrap_or(0)
}
