// Numbers written as bytes.
ghost use Rattle.std.specs.Prelude.{◌≡◌, ◌^◌, ◌++◌, OnErr, OnOk};
ghost use Rattle.file_bytes.specs.Numbers.{AllBelow, four, bytes_of};

use std::alloc::AllocError;

// Puts a number's four bytes, low byte first, behind those in `bytes`.
pub fn put(bytes: &mut Vec<u8>, number: u32) -> Result<(), AllocError>
    ensures put { OnOk result (bytes.new.items ≡ bytes.old.items ++ four number) }
    ensures kept { OnErr result (bytes.new.items ≡ bytes.old.items) }
{
    bytes.extend_from_slice(&number.to_le_bytes())
}

// Puts numbers behind those in `bytes`, one after the other.
pub fn put_numbers(bytes: &mut Vec<u8>, numbers: &[u64]) -> Result<(), AllocError>
    requires { AllBelow (2 ^ 32) numbers.now }
    ensures { OnOk result (bytes.new.items ≡ bytes.old.items ++ bytes_of numbers.now) }
{
    for number in numbers {
        put(bytes, *number as u32)?;
    }
    Ok(())
}
