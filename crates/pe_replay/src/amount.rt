//! How much there is of what a call read, as a number that tells it from other answers.

use goblin_base::{ErrorOf, ResultOf, Strtab};
use goblin_pe::added::Layout;
use goblin_pe::export::{Export, ExportData};
use goblin_pe::import::{Import, ImportData, SyntheticImportDirectoryEntry};
use goblin_pe::laws::{PartsOf, TablesOf};
use goblin_pe::table::Table;
use goblin_pe::{Part, Whole};
use goblin_pe_sect::{SectionTable, WindowIndex};
use std::alloc::Global;
use std::borrow::CowSlice;

/// Why nothing was read.
#[derive(Copy, Clone)]
pub enum Refusal {
    /// Memory was asked for and refused.
    Memory,
    Other,
}

/// How much there is of it: the number of what it lists, or the length of its text.
pub trait Amount {
    fn amount(&self) -> Result<usize, Refusal>;
}

impl<T: Amount> Amount for ResultOf<'_, T> {
    fn amount(&self) -> Result<usize, Refusal> {
        match self {
            Ok(value) => value.amount(),
            Err(ErrorOf::Memory(_)) => Err(Refusal::Memory),
            Err(_) => Err(Refusal::Other),
        }
    }
}

impl<T: Amount> Amount for Option<T> {
    fn amount(&self) -> Result<usize, Refusal> {
        match self {
            Some(value) => value.amount(),
            None => Ok(0),
        }
    }
}

impl<T: Amount> Amount for Part<T> {
    fn amount(&self) -> Result<usize, Refusal> {
        match self {
            Part::Read(table) => table.amount(),
            _ => Ok(0),
        }
    }
}

/// That of all its items.
impl<T: Amount> Amount for Vec<T> {
    fn amount(&self) -> Result<usize, Refusal> {
        let mut amount = 0usize;
        for item in self {
            amount = amount.saturating_add(item.amount()?);
        }
        Ok(amount)
    }
}

/// That of the second, which was read by the first, or beside it.
impl<A, B: Amount> Amount for (A, B) {
    fn amount(&self) -> Result<usize, Refusal> {
        self.1.amount()
    }
}

impl<V> Amount for Table<V> {
    fn amount(&self) -> Result<usize, Refusal> {
        Ok(self.len())
    }
}

/// A slot, or an end of a range, is one.
impl Amount for usize {
    fn amount(&self) -> Result<usize, Refusal> {
        Ok(1)
    }
}

impl Amount for CowSlice<'_, u8, Global> {
    fn amount(&self) -> Result<usize, Refusal> {
        Ok(self.len())
    }
}

impl Amount for Strtab<'_> {
    fn amount(&self) -> Result<usize, Refusal> {
        Ok(self.len())
    }
}

impl Amount for WindowIndex {
    fn amount(&self) -> Result<usize, Refusal> {
        Ok(self.pieces())
    }
}

impl Amount for SyntheticImportDirectoryEntry<'_> {
    fn amount(&self) -> Result<usize, Refusal> {
        Ok(self.import_address_table.len())
    }
}

impl Amount for ImportData<'_> {
    fn amount(&self) -> Result<usize, Refusal> {
        Ok(self.import_data.len())
    }
}

impl Amount for Import<'_> {
    fn amount(&self) -> Result<usize, Refusal> {
        Ok(self.name.len())
    }
}

impl Amount for ExportData<'_> {
    fn amount(&self) -> Result<usize, Refusal> {
        Ok(self.export_address_table.len())
    }
}

/// The length of its name.
impl Amount for Export<'_> {
    fn amount(&self) -> Result<usize, Refusal> {
        match self.name {
            Some(name) => Ok(name.len()),
            None => Ok(0),
        }
    }
}

/// The length of its name.
impl Amount for SectionTable {
    fn amount(&self) -> Result<usize, Refusal> {
        match self.name() {
            Ok(name) => Ok(name.len()),
            Err(_) => Err(Refusal::Other),
        }
    }
}

// The amounts of three answers, or why one of them was refused.
fn sum_of(
    first: &impl Amount,
    second: &impl Amount,
    third: &impl Amount,
) -> Result<usize, Refusal> {
    let sum = first.amount()?.saturating_add(second.amount()?);
    Ok(sum.saturating_add(third.amount()?))
}

impl Amount for Whole<'_> {
    fn amount(&self) -> Result<usize, Refusal> {
        sum_of(&self.sections, &self.imports, &self.exports)
    }
}

impl Amount for Layout<'_> {
    fn amount(&self) -> Result<usize, Refusal> {
        Ok(self.section_records().len())
    }
}

impl<D> Amount for TablesOf<'_, '_, D> {
    fn amount(&self) -> Result<usize, Refusal> {
        sum_of(&self.lookup, &self.imports, &self.exports)
    }
}

/// That of its sections, by a COFF header and as a Terse Executable's, and of its strings.
impl<D> Amount for PartsOf<'_, '_, D> {
    fn amount(&self) -> Result<usize, Refusal> {
        sum_of(&self.sections, &self.te, &self.strings)
    }
}
