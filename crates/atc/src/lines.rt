// Which line numbers the second byte of a packet may claim: Table 4 of source document 000, by its columns.
ghost use Rattle.std.specs.Prelude.{◌≡◌};
ghost use Rattle.atc.specs.Lines.{column_of, has_entry, lacks_entry, is_impossible_line};

use crate::types::Interface;

// A column: its head says what b5 is, and it has an entry for each number from `first` to `last`.
fn has_entry(second: u8, b5: u8, first: u8, last: u8) -> bool
    ensures { result ≡ has_entry second (column_of b5 first last) }
{
    let number = second % 32;
    (second / 32 % 2 == b5) & ((first <= number) & (number <= last))
}

// Both columns of an interface are asked, since a second byte says by b5 which is its own.
fn lacks_entry(interface: Interface, second: u8) -> bool
    ensures { result ≡ lacks_entry interface second }
{
    match interface {
        Interface::Lines525 => !(has_entry(second, 0, 10, 20) | has_entry(second, 1, 10, 18)),
        Interface::Lines625 => !(has_entry(second, 0, 6, 22) | has_entry(second, 1, 6, 20)),
        Interface::HighDefinition => false,
    }
}

pub fn is_impossible_line(interface: Interface, payload_type: u8, second: u8) -> bool
    ensures { result ≡ is_impossible_line interface payload_type second }
{
    ((payload_type == 1) | (payload_type == 2)) & lacks_entry(interface, second)
}
