//! The error numbers of the calls.
ghost use Rattle.std.specs.Prelude.{◌≡◌, ◌≢◌, IfOk, IfErr};
ghost use Rattle.accesses.specs.{Accesses.reply_of, Replies.IsRefusal};
ghost use Rattle.pciguest_c.specs.Told.{number_told, value_told};

use accesses::Reply;

/// The handle contains no machine or no board.
pub const NO_MACHINE: u32 = 901;

/// An argument isn't valid for the call.
pub const ARGUMENT: u32 = 902;

/// The handle already contains a machine or a board.
pub const IN_USE: u32 = 903;

/// The board has been written to since reset.
pub const NOT_AT_RESET: u32 = 904;

/// Memory was exhausted while a board file was being read.
pub const FILE_MEMORY: u32 = 199;

/// Memory is exhausted.
pub const MEMORY: u32 = 299;

/// Returns 0, or the error number of a reply or of the call.
pub fn status_of_reply(answer: Result<Reply, u32>) -> u32
    ensures told { IfOk answer (λ r. result ≡ number_told (reply_of r)) }
    ensures refused { IfOk answer (λ r. result ≢ 0 → IsRefusal r) }
    ensures unasked { IfErr answer (λ n. result ≡ n) }
{
    match answer {
        Ok(Reply::Value(..) | Reply::Done) => 0,
        Ok(Reply::Refused(why)) => u32::from(why.number()),
        Err(number) => number,
    }
}

/// Returns 0 for any result, or the error number.
pub fn status_of_result<T: Drop>(answer: Result<T, u32>) -> u32
    ensures done { IfOk answer (λ _. result ≡ 0) }
    ensures refused { IfErr answer (λ n. result ≡ n) }
{
    match answer {
        Ok(_) => 0,
        Err(number) => number,
    }
}

/// Stores the value that was read, and returns 0 or the error number.
pub fn store_value_if_ok(answer: Result<Reply, u32>, value: &mut u32) -> u32
    ensures told { IfOk answer (λ r. result ≡ number_told (reply_of r)) }
    ensures value { IfOk answer (λ r. value.new ≡ value_told value.old (reply_of r)) }
    ensures refused { IfOk answer (λ r. result ≢ 0 → IsRefusal r) }
    ensures unasked { IfErr answer (λ n. result ≡ n) }
    ensures unread { result ≢ 0 → value.new ≡ value.old }
    ensures untouched { IfErr answer (λ _. value.new ≡ value.old) }
{
    if let Ok(Reply::Value(read, _)) = answer {
        *value = read;
    }
    status_of_reply(answer)
}

/// Stores a result and returns 0, or returns the error number.
pub fn store_result_if_ok<T: Drop>(answer: Result<T, u32>, told: &mut T) -> u32
    ensures told { IfOk answer (λ v. (result ≡ 0) × (told.new ≡ v)) }
    ensures refused { IfErr answer (λ n. (result ≡ n) × (told.new ≡ told.old)) }
{
    match answer {
        Ok(value) => {
            *told = value;
            0
        }
        Err(number) => number,
    }
}
