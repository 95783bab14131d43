//! The whole header of a PE file and its parts: the DOS header, the DOS stub, the Rich header and
//! the COFF header. This module also reads the section table, and the header of a Terse Executable.

mod coff;
mod dos;
mod machine;
mod pe_header;
mod rich;
mod sections;
mod stub;
mod te;

pub use coff::{CoffHeader, SIZEOF_COFF_HEADER};
pub(crate) use dos::SIZEOF_DOS_HEADER;
pub use dos::{DOS_MAGIC, DosHeader, PE_MAGIC, PE_POINTER_OFFSET, SIZEOF_PE_MAGIC};
pub use machine::{
    COFF_MACHINE_ALPHA, COFF_MACHINE_ALPHA64, COFF_MACHINE_AM33, COFF_MACHINE_ARM,
    COFF_MACHINE_ARM64, COFF_MACHINE_ARMNT, COFF_MACHINE_EBC, COFF_MACHINE_IA64,
    COFF_MACHINE_LOONGARCH32, COFF_MACHINE_LOONGARCH64, COFF_MACHINE_M32R, COFF_MACHINE_MIPS16,
    COFF_MACHINE_MIPSFPU, COFF_MACHINE_MIPSFPU16, COFF_MACHINE_POWERPC, COFF_MACHINE_POWERPCFP,
    COFF_MACHINE_R4000, COFF_MACHINE_RISCV32, COFF_MACHINE_RISCV64, COFF_MACHINE_RISCV128,
    COFF_MACHINE_SH3, COFF_MACHINE_SH3DSP, COFF_MACHINE_SH4, COFF_MACHINE_SH5, COFF_MACHINE_THUMB,
    COFF_MACHINE_UNKNOWN, COFF_MACHINE_WCEMIPSV2, COFF_MACHINE_X86, COFF_MACHINE_X86_64,
};
pub use pe_header::Header;
pub(crate) use rich::{dans_place, marker_place};
pub use rich::{
    DANS_MARKER, DANS_MARKER_SIZE, RICH_MARKER, RICH_MARKER_SIZE, RichHeader, RichMetadata,
    RichMetadataIterator,
};
pub use stub::{DOS_STUB_OFFSET, DosStub};
pub use te::{TE_MAGIC, TeHeader, adjust_section};
