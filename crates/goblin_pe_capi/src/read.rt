//! The calls that read the header of a file.

ghost use Rattle.std.specs.Prelude.{◌≡◌};
ghost use Rattle.goblin_pe_sect.specs.Options.{is_strict};
ghost use Rattle.goblin_pe.specs.Whole.{layout};
ghost use Rattle.goblin_pe_c_headers.specs.Calls.{ReadsWithout, ReportedAfter};
ghost use Rattle.goblin_pe_c_headers.specs.{Faults.options_fault, ImageRecords.IsImage};
ghost use Rattle.goblin_pe_c_headers.specs.ImageRecords.{zero_image};
ghost use Rattle.goblin_pe_c_headers.specs.Options.{header_options};
ghost use Rattle.goblin_pe_c_headers.specs.Kinds.{kind_number, kind_of};
ghost use Rattle.goblin_pe_c_headers.specs.Objects.{ObjectRowsAreRead, object_file, object_image};
ghost use Rattle.goblin_pe_c_headers.specs.TeImages.{SaysTe, TeRecords, TeRowsAreRead, te_file};
ghost use Rattle.goblin_pe_c_tables.specs.PartialImages.{SaysPartial, same_faults};
ghost use Rattle.goblin_pe_c_tables.specs.ReadImages.{ImageLeadsBack, ImageRowsAreRead, image_of};

use goblin_pe::header::TeHeader;
use goblin_pe_c_headers::fault::{PeFault, refused_call, status_of};
use goblin_pe_c_headers::image::PeImage;
use goblin_pe_c_headers::options::PeOptions;
use goblin_pe_c_headers::{kind, object, te};
use goblin_pe_c_tables::partial::{PeHeaderFaults, read_nothing, read_parts};
use goblin_pe_c_tables::read;

/// Returns what a file is, as a [`Kind`](goblin_pe_c_headers::kind::Kind). Whether it can be read
/// is another question.
#[unsafe(no_mangle)]
pub extern "C" fn goblin_pe_raw_kind_of(bytes: &[u8]) -> u32
    ensures { result ≡ kind_number (kind_of bytes.now) }
{
    kind::kind_of(bytes) as u32
}

/// Reads the headers and the section table of an image. The other tables are not looked at.
///
/// If `faults` is null, and the call returns a fault, `image` is not filled. If `faults` is not
/// null, both are filled in any case: `image` with zeros for the parts that can't be read, and
/// `faults` with the reasons. The call returns the same fault as without. All other calls work on
/// what was read. It is an image at all if `faults.dos_header` and `faults.coff_header` have status
/// 0, and there is an optional header. Permissive mode replaces a damaged DOS stub: only `faults`
/// says why. With unknown options no part is read, and each has the fault OPTIONS.
///
/// Faults: a damaged header, as the mode says; OPTIONS.
#[unsafe(no_mangle)]
#[tactic(auto, using(goblin_pe_c_tables::proofs::Placed::image_leads_back, goblin_pe_c_tables::proofs::Named::image_rows))]
pub extern "C" fn goblin_pe_raw_read_image<'a>(
    bytes: &'a [u8],
    options: &PeOptions,
    image: &mut PeImage<'a>,
) -> PeFault
    ensures read { ReportedAfter (options_fault options.now) result (image.new ≡ image.old)
        (ReadsWithout (layout (header_options options.now)) bytes.now
        (λ l. IsImage bytes.now image.new (image_of options.now l.0)) (image.new ≡ image.old)) }
    ensures rows { ImageRowsAreRead }
    ensures back { ImageLeadsBack }
{
    let refusal = refused_call(options);
    if refusal.status != 0 {
        return refusal;
    }
    status_of(read::read(bytes, options, image))
}

/// As [`goblin_pe_raw_read_image`], with faults.
#[unsafe(no_mangle)]
pub extern "C" fn goblin_pe_raw_read_image_with_faults<'a>(
    bytes: &'a [u8],
    options: &PeOptions,
    image: &mut PeImage<'a>,
    faults: &mut PeHeaderFaults,
) -> PeFault
    ensures { ReportedAfter (options_fault options.now) result
        (IsImage bytes.now image.new (zero_image options.now 1)
        × (faults.new ≡ same_faults (options_fault options.now)))
        (SaysPartial options.now bytes.now (image.new, faults.new)) }
{
    let refusal = refused_call(options);
    if refusal.status != 0 {
        read_nothing(bytes, options, refusal, image, faults);
        return refusal;
    }
    status_of(read_parts(bytes, options, image, faults))
}

/// Reads the header of a COFF object. Walk its sections, symbols and relocations. It has no
/// directories, and maps no address. The machine is not tested: call [`goblin_pe_kind_of`] first.
///
/// Faults: a file that is too short for its section headers; a bad section name, as the mode says;
/// OPTIONS.
#[unsafe(no_mangle)]
#[tactic(auto, using(goblin_pe_c_headers::proofs::NamedObject::object_rows))]
pub extern "C" fn goblin_pe_raw_read_object<'a>(
    bytes: &'a [u8],
    options: &PeOptions,
    image: &mut PeImage<'a>,
) -> PeFault
    ensures read { let strict = is_strict (header_options options.now).parse_mode in
        ReportedAfter (options_fault options.now) result (image.new ≡ image.old)
        (ReadsWithout (object_file strict) bytes.now
        (λ x. IsImage bytes.now image.new (object_image options.now x.header))
        (image.new ≡ image.old)) }
    ensures rows { ObjectRowsAreRead }
{
    let refusal = refused_call(options);
    if refusal.status != 0 {
        return refusal;
    }
    status_of(object::read(bytes, options, image))
}

/// Reads the header of a Terse Executable. Walk its sections: their addresses and file pointers are
/// moved, as those of the header. It has no data directories in `image`, and maps no address.
///
/// Faults: a file that is too short for the header or its section headers; a stripped size below
/// 40; a section name that strict mode refuses, in both modes; OPTIONS.
#[unsafe(no_mangle)]
#[tactic(auto, using(goblin_pe_c_headers::proofs::NamedTe::te_rows))]
pub extern "C" fn goblin_pe_raw_read_te<'a>(
    bytes: &'a [u8],
    options: &PeOptions,
    image: &mut PeImage<'a>,
    header: &mut TeHeader,
) -> PeFault
    ensures read { let old : TeRecords = record { image = image.old; header = header.old } in
        let new : TeRecords = record { image = image.new; header = header.new } in
        ReportedAfter (options_fault options.now) result (new ≡ old)
        (ReadsWithout te_file bytes.now (λ x. SaysTe options.now bytes.now x new) (new ≡ old)) }
    ensures rows { TeRowsAreRead }
{
    let refusal = refused_call(options);
    if refusal.status != 0 {
        return refusal;
    }
    status_of(te::read(bytes, options, image, header))
}
