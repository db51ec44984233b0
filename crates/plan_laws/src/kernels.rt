//! The laws of all types of kernels, put together.

ghost use Rattle.plan_laws.specs.Kernels.{EveryKernelFinds, RowsOfFilesFit};

/// Whatever is planned, its kernel finds it by its own protocol.
pub fn every_kernel_finds()
    ensures { EveryKernelFinds }
{}

/// Each row of a map file fits a struct boot_e820_entry of the boot protocol.
pub fn rows_of_files_fit()
    ensures { RowsOfFilesFit }
{}
