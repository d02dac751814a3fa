// Where the bytes of a request line end so far. The target is judged only where it ends, so a reader has to know whether it stands inside one.
ghost use Rattle.std.specs.Prelude.{◌≡◌, ◌↔◌, IsTrue};
ghost use Rattle.keep_wire.specs.Requests.{EndsWithinTarget};
ghost use Rattle.keep_wire.specs.Target.{place_next, place_after};

use httparse::is_method_token;

#[derive(Clone, Copy, PartialEq, Eq)]
pub(crate) enum Place {
    /// Before the method, at the start of a line.
    Empty,
    /// After a CR that an LF has to follow.
    AfterReturn,
    Method,
    Target,
    /// After the target, or where no request line can be.
    Past,
}

fn step(place: Place, byte: u8) -> Place
    ensures { result ≡ place_next place byte }
{
    match place {
        Place::Empty => {
            if byte == b'\n' {
                Place::Empty
            } else if byte == b'\r' {
                Place::AfterReturn
            } else if is_method_token(byte) {
                Place::Method
            } else {
                Place::Past
            }
        }
        Place::AfterReturn => {
            if byte == b'\n' {
                Place::Empty
            } else {
                Place::Past
            }
        }
        Place::Method => {
            if is_method_token(byte) {
                Place::Method
            } else if byte == b' ' {
                Place::Target
            } else {
                Place::Past
            }
        }
        Place::Target => {
            if byte == b' ' || byte == b'\r' || byte == b'\n' {
                Place::Past
            } else {
                Place::Target
            }
        }
        Place::Past => Place::Past,
    }
}

// Where the bytes end.
fn place_of(bytes: &[u8]) -> Place
    ensures { result ≡ place_after Place.Empty bytes.now }
{
    let mut place = Place::Empty;
    for byte in bytes {
        place = step(place, *byte);
    }
    place
}

// Whether the bytes end inside a target.
pub(crate) fn ends_within_target(bytes: &[u8]) -> bool
    ensures { IsTrue result ↔ EndsWithinTarget bytes.now }
{
    matches!(place_of(bytes), Place::Target)
}
