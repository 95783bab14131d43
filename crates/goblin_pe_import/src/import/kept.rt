//! A walk over the entries that a lookup table keeps.

ghost use Rattle.std.specs.Prelude.{◌≡◌, ◌⊎◌, ◌+◌, ◌<◌, ◌≤◌, ◌^◌, IfErr, IfOk, IfSome, IsSome};
ghost use Rattle.std.specs.Prelude.{None, Ok, Some, length, true};
ghost use Rattle.goblin_pe_sect.specs.Addresses.{map_of, reads_strictly};
ghost use Rattle.goblin_pe_import.specs.KeptEntries.{IsEntriesCause, entries_from, kept_value};
ghost use Rattle.goblin_pe_import.specs.KeptEntries.{place_after, slots_bound};
ghost use Rattle.goblin_pe_import.specs.Passed.{Count, HasRisen, count_of, entries_ahead};
ghost use Rattle.goblin_pe_import.specs.Steps.{GivesWithin, HasNotGrown, LooksAt};
ghost use Rattle.goblin_pe_import.specs.Steps.{HasSteps, IsOut, UnlessErr, slots_ahead};
ghost use Rattle.readings.specs.Walks.{GivesNext};

use crate::import::bitfield::Bitfield;
use crate::import::lookup_table::SyntheticImportLookupTableEntry;
use crate::import::passed::Passed;
use crate::import::slots::{may_end, next_entry};
use crate::import::steps::{are_out, spend};
use goblin_base::{Cause, Error, ResultOf};
use goblin_pe_sect::address_map::Finder;

// An entry that a lookup table keeps, and where it lies.
#[derive(Drop)]
pub(crate) struct KeptEntry<'a> {
    // The index of its slot in the lookup table of the file, where entries that are left out are
    // counted. The import's entry in the address table has the same index.
    pub(crate) slot: usize,
    // The file offset of its slot.
    pub(crate) place: usize,
    // What is kept.
    pub(crate) entry: SyntheticImportLookupTableEntry<'a>,
}

// The next entry that the lookup table at `offset` keeps, from the slot at `place` on. It is an
// error if an entry before that is refused, and `None` at the end or without a place.
#[inline(always)]
pub(crate) fn next_kept<'a, 'e, T: Bitfield<'a>>(
    bytes: &'a [u8],
    offset: usize,
    place: Option<usize>,
    finder: &mut Finder<'_>,
) -> Option<ResultOf<'e, KeptEntry<'a>>>
    ensures steps { let m = map_of finder.old in
        GivesNext kept_value
        (entries_from (reads_strictly m) T.format m.addressing bytes.now offset)
        (IsEntriesCause (reads_strictly m) T.format m.addressing bytes.now)
        place result (place_after T.format.width result) }
    ensures further { IfSome result (λ r. IfOk r (λ kept. IfSome place (λ place.
        (place ≤ kept.place) × (kept.place + T.format.width ≤ length bytes.now)))) }
    ensures short { IfSome result (λ r. IfOk r (λ kept. kept.place + T.format.width < 2 ^ 63)) }
    ensures there { IfSome result (λ r. IsSome place) }
    ensures strictly { IfSome result
        (λ r. IfErr r (λ e. reads_strictly (map_of finder.old) ≡ true)) }
    ensures same { finder.new ≡ finder.old }
{
    let mut place = place;
    next_kept_within::<T>(
        bytes,
        offset,
        &mut place,
        finder,
        &mut None,
        &mut Passed::nothing(),
    )
}

// The same within a budget of steps: each step looks at one slot. `place` moves on, and `passed`
// counts the entries that it moves past and keeps nothing of. `None` means the end if no
// place is left, or else that the budget has run out.
#[inline(always)]
#[tactic(auto, using(crate::proofs::SlotSteps::grown_none, crate::proofs::SlotSteps::grown_spent))]
pub(crate) fn next_kept_within<'a, 'e, T: Bitfield<'a>>(
    bytes: &'a [u8],
    offset: usize,
    place: &mut Option<usize>,
    finder: &mut Finder<'_>,
    steps: &mut Option<usize>,
    passed: &mut Passed,
) -> Option<ResultOf<'e, KeptEntry<'a>>>
    ensures steps { let m = map_of finder.old in
        GivesWithin kept_value
        (entries_from (reads_strictly m) T.format m.addressing bytes.now offset)
        (IsEntriesCause (reads_strictly m) T.format m.addressing bytes.now)
        place.old result place.new }
    ensures counted { let format = T.format in
        let before = slots_ahead format bytes.now place.old in
        let after = slots_ahead format bytes.now place.new in
        LooksAt result steps.old steps.new before after }
    ensures passed { let m = map_of finder.old in
        let ahead = entries_ahead (reads_strictly m) T.format m.addressing bytes.now in
        UnlessErr result ((k : Count) → HasRisen (count_of k passed.old) (count_of k passed.new)
        (ahead k place.old) (ahead k place.new)) }
    ensures spent { HasNotGrown steps.old steps.new }
    ensures given { IfSome result (λ r. IfOk r (λ _. HasSteps steps.old)) }
    ensures ended { result ≡ None → (place.new ≡ None) ⊎ IsOut steps.new }
    ensures onward { slots_bound bytes.now place.new ≤ slots_bound bytes.now place.old }
    ensures stays { place.old ≡ None → place.new ≡ None }
    ensures less { let format = T.format in
        slots_ahead format bytes.now place.new ≤ slots_ahead format bytes.now place.old }
    ensures after { IfSome result (λ r. place.new ≡ place_after T.format.width (Some r)) }
    ensures further { IfSome result (λ r. IfOk r (λ kept. IfSome place.old (λ place.
        (place ≤ kept.place) × (kept.place + T.format.width ≤ length bytes.now)))) }
    ensures short { IfSome result (λ r. IfOk r (λ kept. kept.place + T.format.width < 2 ^ 63)) }
    ensures there { IfSome result (λ r. IsSome place.old) }
    ensures strictly { IfSome result
        (λ r. IfErr r (λ e. reads_strictly (map_of finder.old) ≡ true)) }
    ensures same { finder.new ≡ finder.old }
{
    let size = T::size_of();
    let Some(start) = *place else {
        return None;
    };
    let mut at = start;
    'slots: loop {
        if are_out(steps) {
            *place = Some(at);
            return None;
        }
        let Some(entry) = next_entry::<T>(bytes, at) else {
            *place = None;
            if may_end(bytes, at, size, finder.reads_strictly()) {
                passed.add_end(bytes, at, size);
                return None;
            }
            spend(steps, 1);
            return Some(Err(Error::Malformed(Cause::LookupEnd(at))));
        };
        spend(steps, 1);
        match SyntheticImportLookupTableEntry::kept(&entry, bytes, finder) {
            Ok(Some(entry)) => {
                let slot = at.saturating_sub(offset) / size;
                *place = Some(at + size);
                return Some(Ok(KeptEntry {
                    slot,
                    place: at,
                    entry,
                }));
            }
            Ok(None) => {
                passed.add_entry::<T>(&entry, finder);
                at += size;
            }
            Err(error) => {
                *place = None;
                return Some(Err(error));
            }
        }
    }
}
