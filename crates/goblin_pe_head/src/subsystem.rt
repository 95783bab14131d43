//! The subsystems that run images.
//!
//! Source: PE Format, "Windows Subsystem".

/// The subsystem: unknown.
pub const IMAGE_SUBSYSTEM_UNKNOWN: u16 = 0;
/// The subsystem: none is needed, as for device drivers and native Windows processes.
pub const IMAGE_SUBSYSTEM_NATIVE: u16 = 1;
/// The subsystem: the graphical user interface of Windows.
pub const IMAGE_SUBSYSTEM_WINDOWS_GUI: u16 = 2;
/// The subsystem: the console of Windows.
pub const IMAGE_SUBSYSTEM_WINDOWS_CUI: u16 = 3;
/// The subsystem: the console of OS/2.
pub const IMAGE_SUBSYSTEM_OS2_CUI: u16 = 5;
/// The subsystem: the console of POSIX.
pub const IMAGE_SUBSYSTEM_POSIX_CUI: u16 = 7;
/// The subsystem: a native driver of Windows 9x.
pub const IMAGE_SUBSYSTEM_NATIVE_WINDOWS: u16 = 8;
/// The subsystem: Windows CE.
pub const IMAGE_SUBSYSTEM_WINDOWS_CE_GUI: u16 = 9;
/// The subsystem: an application of the Extensible Firmware Interface.
pub const IMAGE_SUBSYSTEM_EFI_APPLICATION: u16 = 10;
/// The subsystem: a driver of the Extensible Firmware Interface, with boot services.
pub const IMAGE_SUBSYSTEM_EFI_BOOT_SERVICE_DRIVER: u16 = 11;
/// The subsystem: a driver of the Extensible Firmware Interface, with run-time services.
pub const IMAGE_SUBSYSTEM_EFI_RUNTIME_DRIVER: u16 = 12;
/// The subsystem: a ROM image of the Extensible Firmware Interface.
pub const IMAGE_SUBSYSTEM_EFI_ROM: u16 = 13;
/// The subsystem: Xbox.
pub const IMAGE_SUBSYSTEM_XBOX: u16 = 14;
/// The subsystem: a boot application of Windows.
pub const IMAGE_SUBSYSTEM_WINDOWS_BOOT_APPLICATION: u16 = 16;
