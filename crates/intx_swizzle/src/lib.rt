//! Layer: set-up. Below: paths. Above: report.
//!
//! INTx swizzling: maps the interrupt pin of a function to a device and pin on bus 0.
#![tactic(auto)]

ghost use Rattle.std.specs.Prelude.{◌≡◌, ◌≤◌, ◌+◌, ◌<◌, sum_by, length};
ghost use Rattle.model_board.specs.Interrupts.{root_device, root_pin};

use paths::{Part, Path};

/// Returns the sum of the device numbers of some parts of a path.
fn sum_of_device_numbers(parts: &[Part]) -> u32
    requires { length parts.now ≤ 16 }
    ensures value { result ≡ sum_by (λ p. p.device) parts.now }
    ensures bound { result < 512 }
{
    let mut sum = 0;
    for part in parts {
        sum += u32::from(part.device());
    }
    sum
}

/// Returns the device on bus 0, and its pin (1 to 4 for INTA# to INTD#), that receives interrupt
/// `pin` of the function at a path. Every bridge rotates the pin by the device number on its
/// secondary bus (PCI-to-PCI Bridge Architecture 1.2, section 9.1).
pub fn swizzle_to_root(path: &Path, pin: u8) -> (u8, u8)
    requires least { 1 ≤ pin }
    requires most { pin ≤ 4 }
    ensures device { result.0 ≡ root_device path.now }
    ensures pin { result.1 ≡ root_pin path.now pin }
{
    let parts = path.parts();
    let sum = sum_of_device_numbers(&parts[1..]);
    let pin = (u32::from(pin) - 1 + sum) % 4 + 1;
    (parts[0].device(), pin as u8)
}
