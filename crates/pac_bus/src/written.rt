ghost use Rattle.std.specs.Prelude.{◌≡◌, ◌==◌, if◌then◌else◌};
ghost use Rattle.pac_bus.specs.Stores.{latest};

/// A byte that was written.
#[derive(Clone, Copy)]
pub(crate) struct Written {
    /// Its address.
    pub address: u64,
    /// The byte.
    pub byte: u8,
}

/// The byte that was written last at an address, or 0.
pub(crate) fn latest_at(written: &[Written], address: u64) -> u8
    ensures { result ≡ latest 0 written.now address }
{
    let mut byte = 0;
    for entry in written {
        byte = byte_after(entry, address, byte);
    }
    byte
}

/// The byte at an address after one more write.
fn byte_after(entry: &Written, address: u64, byte: u8) -> u8
    ensures { result ≡ (if address == entry.now.address then entry.now.byte else byte) }
{
    if entry.address == address {
        entry.byte
    } else {
        byte
    }
}
