//! The number of this interface, which bindings/generate.py makes of what the crates declare: the
//! first four bytes of the SHA-256 of the records, the numbers in them, the calls and the version.

ghost use Rattle.std.specs.Prelude.{◌≡◌};

/// The number of this interface. A caller that declares another one has another number.
#[unsafe(no_mangle)]
pub extern "C" fn goblin_pe_interface() -> u32
    ensures { result ≡ 1125831961 }
{
    1_125_831_961
}

/// The same, by a name that no other interface has, with which programs in C are linked.
#[unsafe(no_mangle)]
pub extern "C" fn goblin_pe_interface_431ad519() -> u32
    ensures { result ≡ 1125831961 }
{
    1_125_831_961
}
