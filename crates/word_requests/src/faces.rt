// The interface that a request for a packet names.
ghost use Rattle.std.specs.Prelude.{◌≡◌};
ghost use Rattle.word_requests.specs.Faces.{face_of};

use atc::Interface;

// "FACE is 0 for an interface of 525 lines, 1 for one of 625, 2 for high definition". No `TryFrom`: the type is another crate's.
pub fn face_told(number: u8) -> Option<Interface>
    ensures { result ≡ face_of number }
{
    match number {
        0 => Some(Interface::Lines525),
        1 => Some(Interface::Lines625),
        2 => Some(Interface::HighDefinition),
        _ => None,
    }
}
