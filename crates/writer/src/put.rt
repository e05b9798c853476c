// Bytes put into a lent buffer: what stands there then is the old content, with these written over it.
ghost use Rattle.std.specs.Prelude.{◌≡◌, ◌++◌, ◌+◌, ◌*◌, ◌≤◌, length};
ghost use Rattle.std.proofs.lemmas.List.Edits.{sets};
ghost use Rattle.writer.specs.Write.{value_bytes};

// Bytes as they are, from `at` on.
fn put_bytes(out: &mut [u8], at: usize, bytes: &[u8])
    requires { at + length bytes.now ≤ length out.old }
    ensures { out.new ≡ sets out.old at bytes.now }
{
    out[at..at + bytes.len()].copy_from_slice(bytes);
}

// Values from the front on, each low byte first.
fn put_values(out: &mut [u8], values: &[u16])
    requires { 2 * length values.now ≤ length out.old }
    ensures { out.new ≡ sets out.old 0 (value_bytes values.now) }
{
    for (i, value) in values.iter().enumerate() {
        put_bytes(out, 2 * i, &value.to_le_bytes());
    }
}

// The parts of a sheet one after the other, from the front on.
pub(crate) fn put_sheet(out: &mut [u8], values: &[u16], events: &[u8], trailer: &[u8])
    requires { 2 * length values.now + length events.now + length trailer.now ≤ length out.old }
    ensures { out.new ≡ sets out.old 0 (value_bytes values.now ++ events.now ++ trailer.now) }
{
    let first = 2 * values.len();
    let end = first + events.len();
    put_values(out, values);
    put_bytes(out, first, events);
    put_bytes(out, end, trailer);
}
