// The lines of a head.
ghost use Rattle.std.specs.Prelude.{◌≡◌};
ghost use Rattle.keep_wire.specs.Looks.{lines_in};

// How many lines end after the empty lines at the front.
pub(crate) fn count_lines(bytes: &[u8]) -> usize
    ensures { result ≡ lines_in bytes.now }
{
    let mut begun = false;
    let mut count = 0;
    for byte in bytes {
        if begun || (*byte != b'\n' && *byte != b'\r') {
            begun = true;
            if *byte == b'\n' {
                count += 1;
            }
        }
    }
    count
}
