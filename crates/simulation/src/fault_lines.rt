//! Error messages about faults.
ghost use Rattle.std.specs.Prelude.{◌≡◌, ◌+◌, ◌/◌, ◌%◌};
ghost use Rattle.simulation.specs.Faults.{line_of};

use arrayvec::ArrayString;
use board_told::Fault;

/// Returns the last decimal digit of a number as a character.
fn last_decimal_digit(n: u16) -> char
    ensures { result ≡ 48 + n % 10 }
{
    char::from(b'0' + (n % 10) as u8)
}

/// Returns the line that the program prints for a fault, such as `pciguest: fault 102 key`, with a
/// line feed at its end.
pub fn fault_line(fault: Fault) -> ArrayString<48>
    ensures { result.bytes ≡ line_of fault }
{
    let number = fault.number();
    let mut line = ArrayString::new();
    line.push_str("pciguest: fault ");
    line.push(last_decimal_digit(number / 100));
    line.push(last_decimal_digit(number / 10));
    line.push(last_decimal_digit(number));
    line.push(' ');
    line.push_str(fault.words());
    line.push('\n');
    line
}
