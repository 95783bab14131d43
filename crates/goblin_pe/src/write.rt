//! Writes numbers and slices at an offset. After a refusal the bytes are unchanged.

pub use goblin_base::write::{pwrite_slice, pwrite_u8, pwrite_u16, pwrite_u32, pwrite_u64};
